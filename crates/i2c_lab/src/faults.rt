//! The form `faults BOARD FAULTS SCHEDULE SCRIPT...`: a replay in which the calls fail that a list names.
ghost use Rattle.std.specs.Prelude.{◌≡◌, true, map, string_bytes, IfOk, IfErr, OnOk, IsTrue};
ghost use Rattle.i2c_top.specs.Endings.{CameToRefusal, CameToSuccess, HasEndedAs};
ghost use Rattle.i2c_top.specs.Traces.{shelf_view, rig_view, outside};
ghost use Rattle.i2c_top.specs.forms.Extras.{extra_names, extra_told, AreExtraPlaced};
ghost use Rattle.i2c_top.specs.declared.status.Status.TheVariants as status;
ghost use Rattle.i2c_physics.specs.FailPorts.{logs_given, counts_given};
ghost use Rattle.i2c_physics.specs.SimRigs.{kept_states};
ghost use Rattle.i2c_lab.specs.Faults.{faults_form, is_faults, HasFailedAsListed, HasFaulted};

use crate::call_list::CallList;
use i2c_outside::{Rig, Shelf, Sink};
use i2c_physics::FailRig;
use i2c_top::extra::{ExtraFiles, ExtraWords, is_extra, read_files};
use i2c_top::{ReportText, Status, run_scripts, write_outcome};
use std::alloc::Global;

/// Whether the words are in this form, with a board, a list of calls, a schedule, and 1 to `MOST_CALLERS` scripts.
pub fn is_faults(words: &[String]) -> bool
    ensures { result ≡ is_faults (map string_bytes words.now) }
{
    is_extra("faults", words)
}

// Reads the files and runs the scripts by the schedule while the listed calls fail: the report, or the refusal.
fn faults<S: Shelf>(
    alloc: Global,
    names: &ExtraWords<'_>,
    shelf: &mut S,
    rig: &mut FailRig,
) -> Result<ReportText, Status>
    requires placed { AreExtraPlaced (S.words shelf.old) (extra_told names.now) }
    ensures done { IfOk result (λ text. CameToSuccess (faults_form (extra_told names.now))
        (shelf_view S.Shelf shelf.old) (shelf_view S.Shelf shelf.new)
        (rig_view ⟦<FailRig as Rig>⟧ true rig.old) (rig_view ⟦<FailRig as Rig>⟧ true rig.new) text) }
    ensures refused { IfErr result (CameToRefusal (faults_form (extra_told names.now))
        (shelf_view S.Shelf shelf.old) (shelf_view S.Shelf shelf.new)
        (rig_view ⟦<FailRig as Rig>⟧ true rig.old) (rig_view ⟦<FailRig as Rig>⟧ true rig.new)) }
    ensures failed { IsTrue S.tells → OnOk result (HasFailedAsListed (S.file shelf.old) (extra_told names.now) (logs_given rig.new.given)) }
{
    let ExtraFiles {
        board,
        scripts,
        extra,
        words,
    } = read_files::<CallList, S>(alloc, names, shelf)?;
    rig.arm(extra.into_calls());
    let outcome = run_scripts(alloc, &board, scripts, words.as_slice(), rig);
    rig.failed_where_told();
    outcome
}

/// Runs 1 to 8 scripts over a board by a schedule, while the calls on its ports fail that a list names, and writes the report; a
/// refusal writes its line. The words are those of the form, and the shelf's. The files are read in the order board, scripts, list,
/// schedule; then the scripts' cost is tested.
///
/// It returns on every input. A call that fails acts as a stop on its root, and ends its transfer. Calls
/// count from 0 on the port of their root, failed ones among them; one that is never made is none. `Faults` is told exactly at the
/// first word that names no call on a root of the board. The rig is plugged at most once, and is not left plugged.
pub fn faults_call<S: Shelf, K: Sink>(
    alloc: Global,
    words: &[String],
    shelf: &mut S,
    sink: &mut K,
    rig: &mut FailRig,
) -> Status
    requires words { S.words shelf.old ≡ map string_bytes words.now }
    requires form { is_faults (map string_bytes words.now) ≡ true }

    // The cause of each status and each status of a cause, what was written, and what is kept.
    ensures ended { HasEndedAs (faults_form (extra_names (map string_bytes words.now)))
        (outside S.Shelf K.Sink ⟦<FailRig as Rig>⟧ true shelf.old sink.old rig.old)
        (outside S.Shelf K.Sink ⟦<FailRig as Rig>⟧ true shelf.new sink.new rig.new) result }

    // The report of a run that is legal, complete and followed by the flat world, and where calls have failed in it.
    ensures success { IsTrue S.tells → IsTrue K.tells → result ≡ status.Ok
        → HasFaulted (S.file shelf.old) (extra_names (map string_bytes words.now)) (K.bytes sink.old) (K.bytes sink.new)
        (logs_given rig.new.given) (kept_states rig.new.sim.kept) (counts_given rig.new.given) }
    ensures failed { IsTrue S.tells → result ≡ status.Ok
        → HasFailedAsListed (S.file shelf.old) (extra_names (map string_bytes words.now)) (logs_given rig.new.given) }
{
    let names = ExtraWords::of(words);
    let outcome = faults(alloc, &names, shelf, rig);
    write_outcome(alloc, words, outcome, sink)
}
