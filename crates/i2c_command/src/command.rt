//! A call of the top with the words of the command line, over the real files and output.
ghost use Rattle.std.specs.Prelude.{◌≡◌, ℕ, List, Some, map, string_bytes, IsTrue};
ghost use Rattle.i2c_gen.specs.declared.plan.Plan.{Plan};
ghost use Rattle.i2c_top.specs.forms.{Replay, Check, Generate, Verify, Atr, Cached, Clear, request_in, HasEnded};
ghost use Rattle.i2c_top.specs.forms.Atrs.{HasTranslated};
ghost use Rattle.i2c_top.specs.forms.Extras.{ExtraNames};
ghost use Rattle.i2c_top.specs.forms.Caches.{HasCached};
ghost use Rattle.i2c_top.specs.forms.Checks.{HasChecked};
ghost use Rattle.i2c_top.specs.forms.Clears.{HasCleared};
ghost use Rattle.i2c_top.specs.forms.Generations.{HasGenerated};
ghost use Rattle.i2c_top.specs.forms.Replays.{Names, HasReplayed};
ghost use Rattle.i2c_top.specs.forms.Verifies.{VerifyNames, HasVerified};
ghost use Rattle.i2c_top.specs.declared.forms.clear.ClearAt.{ClearAt};
ghost use Rattle.i2c_top.specs.declared.status.Status.TheVariants as status;
ghost use Rattle.i2c_top.specs.Traces.{outside, rig_view};
ghost use Rattle.i2c_command.specs.Starts.{HasCome};

use crate::words::{Words, words_of};
use i2c_outside::{FileShelf, OpenGate, Rig, Shelf, Sink, StdoutSink};
use i2c_top::{Status, top};
use std::alloc::Global;
use std::env::Env;
use std::rt::Files;
use std::sync::Wait;
use std::thread::Threads;

// Does what the words say, over whatever shelf, output and rig: the status is that of `top`, and so is
// what a success wrote.
fn run<H: Threads + Wait + Sync, S: Shelf, K: Sink, R: Rig>(
    rt: &H,
    alloc: Global,
    words: &[String],
    shelf: &mut S,
    sink: &mut K,
    rig: &mut R,
) -> Status
    requires { S.words shelf.old ≡ map string_bytes words.now }
    ensures ended { HasEnded (request_in (map string_bytes words.now))
        (outside S.Shelf K.Sink R.Rig R.P.tells shelf.old sink.old rig.old) (outside S.Shelf K.Sink R.Rig R.P.tells shelf.new sink.new rig.new) result }
    ensures success { IsTrue S.tells → IsTrue K.tells → IsTrue R.tells → IsTrue R.P.tells
        → (names : Names) → request_in (map string_bytes words.now) ≡ Some (Replay names) → result ≡ status.Ok
        → HasReplayed (S.file shelf.old) names (K.bytes sink.old) (K.bytes sink.new) (R.logs rig.new) (R.states rig.new) (R.port_faults rig.new) }
    ensures checked { IsTrue S.tells → IsTrue K.tells
        → (board : List ℕ) → request_in (map string_bytes words.now) ≡ Some (Check board) → result ≡ status.Ok
        → HasChecked (S.file shelf.old) board (K.bytes sink.old) (K.bytes sink.new) }
    ensures generated { IsTrue K.tells → IsTrue R.tells → IsTrue R.P.tells
        → (plan : Plan) → request_in (map string_bytes words.now) ≡ Some (Generate plan) → result ≡ status.Ok
        → HasGenerated plan (K.bytes sink.old) (K.bytes sink.new) (R.logs rig.new) (R.states rig.new) (R.port_faults rig.new) }
    ensures verified { IsTrue S.tells → IsTrue K.tells
        → (names : VerifyNames) → request_in (map string_bytes words.now) ≡ Some (Verify names) → result ≡ status.Ok
        → HasVerified (S.file shelf.old) names (K.bytes sink.old) (K.bytes sink.new) }
    ensures translated { IsTrue S.tells → IsTrue K.tells → IsTrue R.tells → IsTrue R.P.tells
        → (names : ExtraNames) → request_in (map string_bytes words.now) ≡ Some (Atr names) → result ≡ status.Ok
        → HasTranslated (S.file shelf.old) names (K.bytes sink.old) (K.bytes sink.new) (R.logs rig.new) (R.states rig.new) (R.port_faults rig.new) }
    ensures cached { IsTrue S.tells → IsTrue K.tells → IsTrue R.tells → IsTrue R.P.tells
        → (names : Names) → request_in (map string_bytes words.now) ≡ Some (Cached names) → result ≡ status.Ok
        → HasCached (S.file shelf.old) names (K.bytes sink.old) (K.bytes sink.new) (R.logs rig.new) (R.states rig.new) (R.port_faults rig.new) }
    ensures cleared { IsTrue S.tells → IsTrue K.tells
        → (board : List ℕ) (at : ClearAt) → request_in (map string_bytes words.now) ≡ Some (Clear board at) → result ≡ status.Ok
        → HasCleared (S.file shelf.old) board at (K.bytes sink.old) (K.bytes sink.new) }
{
    top(rt, alloc, words, shelf, sink, rig, &OpenGate)
}

/// What came of the words of the command line: these, where there was memory for them, and the status.
#[derive(Drop)]
pub struct Called {
    pub words: Option<Words>,
    pub status: Status,
}

/// Reads the words of the command line and does what they say, over the real files, the standard output and a rig. The status is that of
/// `top` for just these words, over files and an output that counted no fault, or Memory where there was no memory for the words.
pub fn call<E: Env + Files + Print + AllocGlobal + Threads + Wait + Sync, R: Rig>(
    rt: &E,
    rig: &mut R,
) -> Called
    ensures { HasCome result.words (rig_view R.Rig R.P.tells rig.old) (rig_view R.Rig R.P.tells rig.new) result.status }
{
    let alloc = rt.alloc();
    let Ok(words) = words_of(rt, alloc) else {
        return Called {
            words: None,
            status: Status::Memory,
        };
    };
    let mut shelf = FileShelf::new(rt, words.as_slice());
    let mut sink = StdoutSink::new(rt);
    let status = run(rt, alloc, words.as_slice(), &mut shelf, &mut sink, rig);
    Called {
        words: Some(words),
        status,
    }
}
