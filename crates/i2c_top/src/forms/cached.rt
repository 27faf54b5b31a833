//! The form `cached BOARD SCHEDULE SCRIPT...`: a replay of scripts whose reads of sensors' limit registers are answered from memory.
ghost use Rattle.std.specs.Prelude.{◌≡◌, ◌≤◌, true, [], All, None, Some, length, map, string_bytes, IfOk, IfErr, IsSome, IsTrue};
ghost use Rattle.std.specs.List.{AllZip};
ghost use Rattle.caller_core.specs.Reach.{IsReachOf};
ghost use Rattle.i2c_base.specs.Limits.{MOST_CALLERS};
ghost use Rattle.i2c_top.specs.Callers.{AreReady};
ghost use Rattle.i2c_top.specs.Endings.{CameToRefusal, CameToSuccess, HasEndedAs};
ghost use Rattle.i2c_top.specs.Runs.{AreOpened, texts_of};
ghost use Rattle.i2c_top.specs.Traces.{shelf_view, rig_view, outside};
ghost use Rattle.i2c_top.specs.forms.Caches.{cached_form, cached_row, cached_scripts, is_cached, HasCached};
ghost use Rattle.i2c_top.specs.forms.Replays.{names_told, replay_names, ArePlaced};
ghost use Rattle.i2c_top.specs.declared.status.Status.TheVariants as status;

use crate::Status;
use crate::cost::limit_of;
use crate::ending::write_outcome;
use crate::files::{ReplayFiles, listed, read_files};
use crate::names::{ReplayNames, SCRIPT_OF_REPLAY};
use crate::run::run_callers;
use crate::text::ReportText;
use crate::words::{are_names, word_at};
use arrayvec::ArrayVec;
use caller_core::{Reach, Script};
use i2c_base::{MOST_CALLERS, NoMemory};
use i2c_board::Accepted;
use i2c_outside::{Rig, Shelf, Sink};
use reg_cache::{CachedCaller, cacheable, cached_scripts_are_fair};
use std::alloc::Global;

/// Whether the words are in this form, with a board, a schedule, and 1 to `MOST_CALLERS` scripts.
pub fn is_cached(words: &[String]) -> bool
    ensures { result ≡ is_cached (map string_bytes words.now) }
{
    4 <= words.len()
        && words.len() <= SCRIPT_OF_REPLAY as usize + MOST_CALLERS as usize
        && word_at(words, 0) == "cached"
        && are_names(words)
}

// What the lines of each script reach.
fn reaches_of(scripts: &[Script]) -> ArrayVec<Reach, 8>
    requires { length scripts.now ≤ MOST_CALLERS }
    ensures { AllZip (λ s reach. IsReachOf s.script reach) scripts.now result.items }
{
    let mut reaches = ArrayVec::new();
    for script in scripts {
        reaches.push(*script.reach());
    }
    reaches
}

// Each script as a caller that keeps what it may of the board's sensors.
fn cached_callers(
    alloc: Global,
    board: &Accepted,
    scripts: Vec<Script>,
) -> Result<Vec<CachedCaller>, NoMemory>
    requires opened { AreOpened board.now scripts.items }
    requires few { length scripts.items ≤ MOST_CALLERS }
    ensures scripts { IfOk result (λ callers. map (λ c. c.script) callers.items ≡ cached_scripts board.now (texts_of scripts.items)) }
    ensures untaken { IfOk result (λ callers. All (λ c. c.taken ≡ []) callers.items) }
{
    let reaches = reaches_of(scripts.as_slice());
    let mut callers = Vec::with_capacity(alloc, scripts.len())?;
    for script in scripts {
        let caller = callers.len() as u8;
        let devices = cacheable(alloc, board, reaches.as_slice(), caller)?;
        callers.push_reserved(CachedCaller::open(alloc, board, script, devices)?);
    }
    Ok(callers)
}

// Reads the files and runs the cached scripts by the schedule: the report, or the refusal.
fn cached<S: Shelf, R: Rig>(
    alloc: Global,
    names: &ReplayNames<'_>,
    shelf: &mut S,
    rig: &mut R,
) -> Result<ReportText, Status>
    requires placed { ArePlaced (S.words shelf.old) (names_told names.now) }
    requires scheduled { IsSome (names_told names.now).schedule }
    ensures done { IfOk result (λ text. CameToSuccess (cached_form (names_told names.now))
        (shelf_view S.Shelf shelf.old) (shelf_view S.Shelf shelf.new)
        (rig_view R.Rig R.P.tells rig.old) (rig_view R.Rig R.P.tells rig.new) text) }
    ensures refused { IfErr result (CameToRefusal (cached_form (names_told names.now))
        (shelf_view S.Shelf shelf.old) (shelf_view S.Shelf shelf.new)
        (rig_view R.Rig R.P.tells rig.old) (rig_view R.Rig R.P.tells rig.new)) }
{
    let ReplayFiles {
        board,
        scripts,
        schedule,
    } = read_files(alloc, names, shelf)?;
    let words = listed(alloc, schedule);
    let limit = limit_of(&board, scripts.as_slice());
    let callers = cached_callers(alloc, &board, scripts)?;
    cached_scripts_are_fair();
    run_callers(alloc, &board, callers, limit, words.as_slice(), rig)
}

/// Runs 1 to 8 scripts over a board, by a schedule, with a register cache for each (Linux regmap), and writes the report; a refusal
/// writes its line. The words are those of the form, and the shelf's. The files are read in the order board, scripts, schedule; then the
/// scripts' cost is tested, which is counted as that of a replay.
///
/// A script's reads of the hysteresis and limit registers of the bound LM75s that it may keep are answered from what it read or wrote
/// there before, without a message. It may keep one that no script names in a line with `-f`, a `force` line or an `rdwr` line, and
/// that no other script writes. It returns on every input, and its statuses are those of `replay_call`.
pub fn cached_call<S: Shelf, K: Sink, R: Rig>(
    alloc: Global,
    words: &[String],
    shelf: &mut S,
    sink: &mut K,
    rig: &mut R,
) -> Status
    requires words { S.words shelf.old ≡ map string_bytes words.now }
    requires form { is_cached (map string_bytes words.now) ≡ true }

    // The cause of each status and each status of a cause, what was written, and what is kept.
    ensures ended { HasEndedAs (cached_form (replay_names (map string_bytes words.now)))
        (outside S.Shelf K.Sink R.Rig R.P.tells shelf.old sink.old rig.old)
        (outside S.Shelf K.Sink R.Rig R.P.tells shelf.new sink.new rig.new) result }

    // The report of a run of the scripts with their hits left out, whose replies with the hits filled in are those of the flat world.
    ensures cached { IsTrue S.tells → IsTrue K.tells → IsTrue R.tells → IsTrue R.P.tells → result ≡ status.Ok
        → HasCached (S.file shelf.old) (replay_names (map string_bytes words.now))
        (K.bytes sink.old) (K.bytes sink.new) (R.logs rig.new) (R.states rig.new) (R.port_faults rig.new) }
{
    let names = ReplayNames::of_cached(words);
    let outcome = cached(alloc, &names, shelf, rig);
    write_outcome(alloc, words, outcome, sink)
}
