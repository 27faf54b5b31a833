//! The form `gen SEED ROOTS LINES`: a generated board, scripts and schedule, which are replayed, and the summary of it.
ghost use Rattle.std.specs.Prelude.{◌≡◌, map, string_bytes, IfOk, IfErr, IfSome, IsTrue};
ghost use Rattle.i2c_gen.specs.Scripts.{IsPlan};
ghost use Rattle.i2c_top.specs.Endings.{CameToSuccess, CameToRefusal, HasEndedAs};
ghost use Rattle.i2c_top.specs.Traces.{ShelfView, rig_view, around};
ghost use Rattle.i2c_top.specs.forms.Generations.{plan_in, gen_form, HasGenerated};
ghost use Rattle.i2c_top.specs.declared.status.Status.TheVariants as status;

use crate::Status;
use crate::ending::write_outcome;
use crate::number::number_named;
use crate::run::run_generated;
use crate::text::ReportText;
use crate::words::word_at;
use i2c_base::MOST_ROOTS;
use i2c_gen::{MOST_LINES, Made, Plan, make};
use i2c_outside::{Rig, Sink};
use std::alloc::Global;

/// What is to be generated, where the words are in the form.
pub fn plan_in(words: &[String]) -> Option<Plan>
    ensures value { result ≡ plan_in (map string_bytes words.now) }
    ensures plan { IfSome result IsPlan }
{
    if words.len() != 4 || word_at(words, 0) != "gen" {
        return None;
    }
    let seed = number_named(word_at(words, 1), 0, u64::MAX)?;
    let roots = number_named(word_at(words, 2), 1, MOST_ROOTS as u64)?;
    let lines = number_named(word_at(words, 3), 1, u64::from(MOST_LINES))?;
    Some(Plan {
        seed,
        roots: roots as u8,
        lines: lines as u16,
    })
}

// Makes what the plan asks for, and replays it: the summary, or the refusal.
fn generate<R: Rig>(alloc: Global, plan: &Plan, rig: &mut R) -> Result<ReportText, Status>
    requires plan { IsPlan plan.now }
    ensures done { IfOk result (λ text. (shelf : ShelfView) → CameToSuccess (gen_form plan.now) shelf shelf
        (rig_view R.Rig R.P.tells rig.old) (rig_view R.Rig R.P.tells rig.new) text) }
    ensures refused { IfErr result (λ e. (shelf : ShelfView) → CameToRefusal (gen_form plan.now) shelf shelf
        (rig_view R.Rig R.P.tells rig.old) (rig_view R.Rig R.P.tells rig.new) e) }
{
    let Made {
        board,
        scripts,
        schedule,
    } = make(alloc, plan)?;
    run_generated(alloc, &board, scripts, schedule.as_slice(), plan, rig)
}

/// Replays what a plan asks for, and writes what comes of it, in six lines: the plan, and how many transfers, messages, locks
/// taken, errors and bytes read there were. No file is read.
///
/// It returns on every input. `Rig` is told only where the rig counted a fault in its one plug, and `Write` where the sink did. The
/// rig is plugged at most once, and is not left plugged.
pub fn gen_call<K: Sink, R: Rig>(alloc: Global, plan: &Plan, sink: &mut K, rig: &mut R) -> Status
    requires { IsPlan plan.now }

    // The cause of each status and each status of a cause, what was written, and what is kept; beside any shelf.
    ensures ended { (shelf : ShelfView) → HasEndedAs (gen_form plan.now)
        (around shelf K.Sink R.Rig R.P.tells sink.old rig.old)
        (around shelf K.Sink R.Rig R.P.tells sink.new rig.new) result }

    // The summary of a run that is legal, complete, follows the schedule and is followed by the flat world.
    ensures success { IsTrue K.tells → IsTrue R.tells → IsTrue R.P.tells → result ≡ status.Ok
        → HasGenerated plan.now (K.bytes sink.old) (K.bytes sink.new) (R.logs rig.new) (R.states rig.new) (R.port_faults rig.new) }
{
    let outcome = generate(alloc, plan, rig);
    write_outcome(alloc, &[], outcome, sink)
}
