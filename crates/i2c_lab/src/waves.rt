//! The form `waves BOARD ROOT SCHEDULE SCRIPT...`: the levels of the two wires of a root over a replay.
ghost use Rattle.std.specs.Prelude.{◌≡◌, ◌<◌, ◌≤◌, true, All, length, map, string_bytes, IfOk, IfErr, IsTrue};
ghost use Rattle.i2c_base.specs.Limits.{MOST_CALLERS};
ghost use Rattle.i2c_physics.specs.SimRigs.{kept_states, none_of};
ghost use Rattle.i2c_top.specs.Endings.{CameToRefusal, CameToSuccess, HasEndedAs};
ghost use Rattle.i2c_top.specs.Runs.{AreOpened, cost_of_texts, texts_of, MOST_COST};
ghost use Rattle.i2c_top.specs.Traces.{IsRunOver, outside, rig_view, shelf_view};
ghost use Rattle.i2c_top.specs.forms.Extras.{extra_names, extra_told, AreExtraPlaced};
ghost use Rattle.i2c_top.specs.declared.status.Status.TheVariants as status;
ghost use Rattle.i2c_lab.specs.Waves.{is_waves, waves_form, HasDumped, HasWaved, IsWaveAt};

use crate::number::number_in;
use crate::wave_root::{LAST_ROOT, WaveRoot};
use bus_waves::{Recorded, wave_text};
use caller_core::Script;
use i2c_base::{NoMemory, SegId};
use i2c_board::Accepted;
use i2c_outside::{Rig, Shelf, Sink};
use i2c_physics::{BitRig, WirePort};
use i2c_top::extra::{ExtraFiles, ExtraWords, is_extra, read_files};
use i2c_top::{ReportText, RunLeft, Status, plugged, run_ports, word_at, write_outcome};
use std::alloc::Global;

/// Whether the words are in this form, with a board, a number up to 65,535, a schedule, and 1 to `MOST_CALLERS` scripts.
pub fn is_waves(words: &[String]) -> bool
    ensures { result ≡ is_waves (map string_bytes words.now) }
{
    is_extra("waves", words)
        && number_in(word_at(words, 2).as_bytes(), u32::from(LAST_ROOT)).is_some()
}

// The waves of the port at the number of a root; there are no ports where a run had no memory.
fn wave_at(alloc: Global, root: SegId, ports: &[WirePort<Recorded>]) -> Result<Vec<u8>, NoMemory>
    ensures { IfOk result (λ text. IsWaveAt ports.now root text.items) }
{
    match ports.get(usize::from(root.0)) {
        Some(port) => wave_text(alloc, root, port),
        None => Err(NoMemory),
    }
}

// Runs the scripts over the ports of the rig by the schedule: the waves of a root, or the refusal.
fn run_waves(
    alloc: Global,
    board: &Accepted,
    scripts: Vec<Script>,
    words: &[u8],
    root: SegId,
    rig: &mut BitRig<Recorded>,
) -> Result<ReportText, Status>
    requires opened { AreOpened board.now scripts.items }
    requires few { length scripts.items ≤ MOST_CALLERS }
    requires named { All (λ c. c < length scripts.items) words.now }
    requires cheap { cost_of_texts board.now (texts_of scripts.items) ≤ MOST_COST }
    requires root { root < length board.now.roots }
    ensures waved { IfOk result (λ text. HasWaved board.now root (texts_of scripts.items) words.now text
        rig.new.logs (kept_states rig.new.sim.kept) (none_of (length rig.new.logs))) }
    ensures rig { IsRunOver (rig_view ⟦<BitRig<Recorded> as Rig>⟧ true rig.old) (rig_view ⟦<BitRig<Recorded> as Rig>⟧ true rig.new) result }
{
    let (ports, room) = plugged(alloc, board, rig)?;
    let RunLeft { ports, report } = run_ports(alloc, board, scripts, words, ports, room);
    let text = wave_at(alloc, root, ports.as_slice());
    rig.unplug(ports);
    report?;
    Ok(ReportText::whole(alloc, text?))
}

// Reads the files and runs the scripts by the schedule: the waves of the root that is named, or the refusal.
fn waves<S: Shelf>(
    alloc: Global,
    names: &ExtraWords<'_>,
    shelf: &mut S,
    rig: &mut BitRig<Recorded>,
) -> Result<ReportText, Status>
    requires placed { AreExtraPlaced (S.words shelf.old) (extra_told names.now) }
    ensures done { IfOk result (λ text. CameToSuccess (waves_form (extra_told names.now))
        (shelf_view S.Shelf shelf.old) (shelf_view S.Shelf shelf.new)
        (rig_view ⟦<BitRig<Recorded> as Rig>⟧ true rig.old) (rig_view ⟦<BitRig<Recorded> as Rig>⟧ true rig.new) text) }
    ensures refused { IfErr result (CameToRefusal (waves_form (extra_told names.now))
        (shelf_view S.Shelf shelf.old) (shelf_view S.Shelf shelf.new)
        (rig_view ⟦<BitRig<Recorded> as Rig>⟧ true rig.old) (rig_view ⟦<BitRig<Recorded> as Rig>⟧ true rig.new)) }
{
    let ExtraFiles {
        board,
        scripts,
        extra,
        words,
    } = read_files::<WaveRoot, S>(alloc, names, shelf)?;
    run_waves(
        alloc,
        &board,
        scripts,
        words.as_slice(),
        extra.number(),
        rig,
    )
}

/// Runs 1 to 8 scripts over a board by a schedule, and writes the levels that the two wires of one root had in the run, as a value change
/// dump (IEEE Std 1364-2005, section 18); a refusal writes its line. The words are those of the form, and the shelf's. The files are read in the
/// order board, scripts, schedule, and the number of the root is tested before the schedule is read; then the scripts' cost is tested.
///
/// It returns on every input. `NoRoot` is told exactly where the board is accepted, the scripts are in the grammar, and the number is that of
/// none of its roots. The rig is plugged at most once, and is not left plugged.
pub fn waves_call<S: Shelf, K: Sink>(
    alloc: Global,
    words: &[String],
    shelf: &mut S,
    sink: &mut K,
    rig: &mut BitRig<Recorded>,
) -> Status
    requires words { S.words shelf.old ≡ map string_bytes words.now }
    requires form { is_waves (map string_bytes words.now) ≡ true }

    // The cause of each status and each status of a cause, what was written, and what is kept.
    ensures ended { HasEndedAs (waves_form (extra_names (map string_bytes words.now)))
        (outside S.Shelf K.Sink ⟦<BitRig<Recorded> as Rig>⟧ true shelf.old sink.old rig.old)
        (outside S.Shelf K.Sink ⟦<BitRig<Recorded> as Rig>⟧ true shelf.new sink.new rig.new) result }

    // The waves of a root over a run that is legal, complete and followed by the flat world.
    ensures success { IsTrue S.tells → IsTrue K.tells → result ≡ status.Ok
        → HasDumped (S.file shelf.old) (extra_names (map string_bytes words.now)) (K.bytes sink.old) (K.bytes sink.new)
        rig.new.logs (kept_states rig.new.sim.kept) (none_of (length rig.new.logs)) }
{
    let names = ExtraWords::of(words);
    let outcome = waves(alloc, &names, shelf, rig);
    write_outcome(alloc, words, outcome, sink)
}
