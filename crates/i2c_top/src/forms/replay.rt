//! The forms `replay BOARD SCHEDULE SCRIPT...` and `run BOARD SCRIPT...`: scripts over a board, and their report.
ghost use Rattle.std.specs.Prelude.{◌≡◌, true, None, map, string_bytes, IfOk, IfErr, IsSome, IsTrue};
ghost use Rattle.i2c_top.specs.Endings.{CameToSuccess, CameToRefusal, HasEndedAs};
ghost use Rattle.i2c_top.specs.Traces.{shelf_view, rig_view, outside};
ghost use Rattle.i2c_top.specs.forms.Replays.{is_replay, is_run, replay_names, run_names, replay_form, names_told, ArePlaced, HasReplayed};
ghost use Rattle.i2c_top.specs.declared.status.Status.TheVariants as status;

use crate::Status;
use crate::ending::write_outcome;
use crate::files::{ReplayFiles, listed, read_files};
use crate::names::{ReplayNames, SCRIPT_OF_REPLAY, SCRIPT_OF_RUN};
use crate::run::{run_at_once, run_scripts};
use crate::text::ReportText;
use crate::words::{are_names, word_at};
use i2c_base::MOST_CALLERS;
use i2c_outside::{Gate, Rig, Shelf, Sink};
use std::alloc::Global;
use std::sync::Wait;
use std::thread::Threads;

/// Whether the words are in the form `replay`, with a board, a schedule, and 1 to `MOST_CALLERS` scripts.
pub fn is_replay(words: &[String]) -> bool
    ensures { result ≡ is_replay (map string_bytes words.now) }
{
    4 <= words.len()
        && words.len() <= SCRIPT_OF_REPLAY as usize + MOST_CALLERS as usize
        && word_at(words, 0) == "replay"
        && are_names(words)
}

/// Whether they are in the form `run`, which has no schedule.
pub fn is_run(words: &[String]) -> bool
    ensures { result ≡ is_run (map string_bytes words.now) }
{
    3 <= words.len()
        && words.len() <= SCRIPT_OF_RUN as usize + MOST_CALLERS as usize
        && word_at(words, 0) == "run"
        && are_names(words)
}

// Reads the files and runs the scripts by the schedule: the report, or the refusal.
fn replay<S: Shelf, R: Rig>(
    alloc: Global,
    names: &ReplayNames<'_>,
    shelf: &mut S,
    rig: &mut R,
) -> Result<ReportText, Status>
    requires placed { ArePlaced (S.words shelf.old) (names_told names.now) }
    requires scheduled { IsSome (names_told names.now).schedule }
    ensures done { IfOk result (λ text. CameToSuccess (replay_form (names_told names.now))
        (shelf_view S.Shelf shelf.old) (shelf_view S.Shelf shelf.new)
        (rig_view R.Rig R.P.tells rig.old) (rig_view R.Rig R.P.tells rig.new) text) }
    ensures refused { IfErr result (CameToRefusal (replay_form (names_told names.now))
        (shelf_view S.Shelf shelf.old) (shelf_view S.Shelf shelf.new)
        (rig_view R.Rig R.P.tells rig.old) (rig_view R.Rig R.P.tells rig.new)) }
{
    let ReplayFiles {
        board,
        scripts,
        schedule,
    } = read_files(alloc, names, shelf)?;
    let words = listed(alloc, schedule);
    run_scripts(alloc, &board, scripts, words.as_slice(), rig)
}

// The same without a schedule, each script on a thread of its own.
fn run<H: Threads + Wait + Sync, S: Shelf, R: Rig, G: Gate + Sync>(
    rt: &H,
    alloc: Global,
    names: &ReplayNames<'_>,
    shelf: &mut S,
    rig: &mut R,
    gate: &G,
) -> Result<ReportText, Status>
    requires placed { ArePlaced (S.words shelf.old) (names_told names.now) }
    requires free { (names_told names.now).schedule ≡ None }
    ensures done { IfOk result (λ text. CameToSuccess (replay_form (names_told names.now))
        (shelf_view S.Shelf shelf.old) (shelf_view S.Shelf shelf.new)
        (rig_view R.Rig R.P.tells rig.old) (rig_view R.Rig R.P.tells rig.new) text) }
    ensures refused { IfErr result (CameToRefusal (replay_form (names_told names.now))
        (shelf_view S.Shelf shelf.old) (shelf_view S.Shelf shelf.new)
        (rig_view R.Rig R.P.tells rig.old) (rig_view R.Rig R.P.tells rig.new)) }
{
    let ReplayFiles {
        board,
        scripts,
        schedule: _,
    } = read_files(alloc, names, shelf)?;
    run_at_once(rt, alloc, &board, scripts, gate, rig)
}

/// Runs 1 to 8 scripts over a board, by a schedule, and writes the report; a refusal writes its line. The words are those of
/// a replay, and the shelf's. The files are read in the order board, scripts, schedule.
///
/// It returns on every input. `Read(i)` is told of the place `i` among the words. `Cost` is told exactly where the scripts
/// cost more than the limit. The rig is plugged at most once, where the files are well formed and the cost is within the
/// limit, and is not left plugged.
pub fn replay_call<S: Shelf, K: Sink, R: Rig>(
    alloc: Global,
    words: &[String],
    shelf: &mut S,
    sink: &mut K,
    rig: &mut R,
) -> Status
    requires words { S.words shelf.old ≡ map string_bytes words.now }
    requires form { is_replay (map string_bytes words.now) ≡ true }

    // The cause of each status and each status of a cause, what was written, and what is kept.
    ensures ended { HasEndedAs (replay_form (replay_names (map string_bytes words.now)))
        (outside S.Shelf K.Sink R.Rig R.P.tells shelf.old sink.old rig.old)
        (outside S.Shelf K.Sink R.Rig R.P.tells shelf.new sink.new rig.new) result }

    // The report of a run that is legal, complete and followed by the flat world.
    ensures success { IsTrue S.tells → IsTrue K.tells → IsTrue R.tells → IsTrue R.P.tells → result ≡ status.Ok
        → HasReplayed (S.file shelf.old) (replay_names (map string_bytes words.now))
        (K.bytes sink.old) (K.bytes sink.new) (R.logs rig.new) (R.states rig.new) (R.port_faults rig.new) }
{
    let names = ReplayNames::of_replay(words);
    let outcome = replay(alloc, &names, shelf, rig);
    write_outcome(alloc, words, outcome, sink)
}

/// Runs 1 to 8 scripts over a board, each on a thread of its own, and writes the report; a refusal writes its line. The words
/// are those of a run, and the shelf's. The files are read in the order board, scripts. The gate is passed after each step of
/// a script.
///
/// It waits for threads: nothing says that it returns, and in which order the scripts come to the bus is free. Where it
/// returns, its statuses are those of `replay_call`, but for `Schedule`.
pub fn run_call<'a, H: Threads + Wait + Sync, S: Shelf, K: Sink, R: Rig, G: Gate + Sync>(
    rt: &H,
    alloc: Global,
    words: &'a [String],
    shelf: &mut S,
    sink: &mut K,
    rig: &mut R,
    gate: &G,
) -> Status
    requires words { S.words shelf.old ≡ map string_bytes words.now }
    requires form { is_run (map string_bytes words.now) ≡ true }

    // The cause of each status and each status of a cause, what was written, and what is kept.
    ensures ended { HasEndedAs (replay_form (run_names (map string_bytes words.now)))
        (outside S.Shelf K.Sink R.Rig R.P.tells shelf.old sink.old rig.old)
        (outside S.Shelf K.Sink R.Rig R.P.tells shelf.new sink.new rig.new) result }

    // The report of a run that is legal, complete and followed by the flat world.
    ensures success { IsTrue S.tells → IsTrue K.tells → IsTrue R.tells → IsTrue R.P.tells → result ≡ status.Ok
        → HasReplayed (S.file shelf.old) (run_names (map string_bytes words.now))
        (K.bytes sink.old) (K.bytes sink.new) (R.logs rig.new) (R.states rig.new) (R.port_faults rig.new) }
{
    let names = ReplayNames::of_run(words);
    let outcome = run(rt, alloc, &names, shelf, rig, gate);
    write_outcome(alloc, words, outcome, sink)
}
