//! The forms of the words, one after the other. Each has a file of its own in `forms`.
ghost use Rattle.std.specs.Prelude.{◌≡◌, map, string_bytes};
ghost use Rattle.i2c_top.specs.Endings.{IsWritten};
ghost use Rattle.i2c_top.specs.forms.{request_in, usage_text, HasEnded, UsesRig};
ghost use Rattle.i2c_top.specs.Traces.{outside, output_view};
ghost use Rattle.i2c_top.specs.declared.status.Status.TheVariants as status;

mod atr;
mod cached;
mod check;
mod clear;
mod generate;
mod replay;
mod verify;

use crate::Status;
use crate::ending::write_due;
pub use atr::atr_call;
use atr::is_atr;
pub use cached::cached_call;
use cached::is_cached;
pub use check::check_call;
use check::is_check;
use clear::clear_in;
pub use clear::{ClearAt, clear_call};
pub use generate::gen_call;
use generate::plan_in;
use i2c_outside::{Gate, Rig, Shelf, Sink};
pub use replay::{replay_call, run_call};
use replay::{is_replay, is_run};
use std::alloc::Global;
use std::sync::Wait;
use std::thread::Threads;
use verify::is_verify;
pub use verify::verify_call;

const USAGE: &[u8] =
    b"usage: i2cbus run BOARD SCRIPT... | replay BOARD SCHEDULE SCRIPT... | check BOARD | gen SEED ROOTS LINES | verify BOARD JOURNAL SCRIPT... | atr BOARD MAP SCHEDULE SCRIPT... | cached BOARD SCHEDULE SCRIPT... | clear BOARD BUS ADDR CUT\n";

// Writes the line on usage.
fn turn_down<K: Sink>(sink: &mut K) -> Status
    ensures { IsWritten (output_view K.Sink sink.old) (output_view K.Sink sink.new) status.Usage usage_text result }
{
    write_due(Status::Usage, USAGE, sink)
}

/// Does what the words ask for, in whichever form they are; words in none are turned down by the line on usage.
pub fn answer<H: Threads + Wait + Sync, S: Shelf, K: Sink, R: Rig, G: Gate + Sync>(
    rt: &H,
    alloc: Global,
    words: &[String],
    shelf: &mut S,
    sink: &mut K,
    rig: &mut R,
    gate: &G,
) -> Status
    requires { S.words shelf.old ≡ map string_bytes words.now }
    ensures ended { HasEnded (request_in (map string_bytes words.now))
        (outside S.Shelf K.Sink R.Rig R.P.tells shelf.old sink.old rig.old)
        (outside S.Shelf K.Sink R.Rig R.P.tells shelf.new sink.new rig.new) result }
    ensures unplugged { (UsesRig (request_in (map string_bytes words.now)) → ⊥) → rig.new ≡ rig.old }
{
    if is_replay(words) {
        replay_call(alloc, words, shelf, sink, rig)
    } else if is_run(words) {
        run_call(rt, alloc, words, shelf, sink, rig, gate)
    } else if is_check(words) {
        check_call(alloc, words, shelf, sink)
    } else if is_verify(words) {
        verify_call(alloc, words, shelf, sink)
    } else if is_atr(words) {
        atr_call(alloc, words, shelf, sink, rig)
    } else if is_cached(words) {
        cached_call(alloc, words, shelf, sink, rig)
    } else if let Some(plan) = plan_in(words) {
        gen_call(alloc, &plan, sink, rig)
    } else if let Some(at) = clear_in(words) {
        clear_call(alloc, words, &at, shelf, sink)
    } else {
        turn_down(sink)
    }
}
