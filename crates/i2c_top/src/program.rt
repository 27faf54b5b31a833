//! `top`: what the program does with the words of its command line.
ghost use Rattle.std.specs.Prelude.{◌≡◌, ℕ, List, Some, map, string_bytes, IsTrue};
ghost use Rattle.i2c_gen.specs.declared.plan.Plan.{Plan};
ghost use Rattle.i2c_top.specs.forms.{Replay, Check, Generate, Verify, Atr, Cached, Clear, request_in, HasEnded, UsesRig};
ghost use Rattle.i2c_top.specs.forms.Atrs.{HasTranslated};
ghost use Rattle.i2c_top.specs.forms.Extras.{ExtraNames};
ghost use Rattle.i2c_top.specs.forms.Caches.{HasCached};
ghost use Rattle.i2c_top.specs.forms.Checks.{HasChecked};
ghost use Rattle.i2c_top.specs.forms.Clears.{HasCleared};
ghost use Rattle.i2c_top.specs.forms.Generations.{HasGenerated};
ghost use Rattle.i2c_top.specs.forms.Replays.{Names, HasReplayed};
ghost use Rattle.i2c_top.specs.forms.Verifies.{VerifyNames, HasVerified};
ghost use Rattle.i2c_top.specs.Traces.{outside};
ghost use Rattle.i2c_top.specs.declared.forms.clear.ClearAt.{ClearAt};
ghost use Rattle.i2c_top.specs.declared.status.Status.TheVariants as status;

use crate::Status;
use crate::forms::answer;
use i2c_outside::{Gate, Rig, Shelf, Sink};
use std::alloc::Global;
use std::sync::Wait;
use std::thread::Threads;

/// Does what the program does: `words` are the command line without the program's name, and the shelf's words.
///
/// `Usage` is told exactly where the words are in no form that is in force; then nothing is read or plugged. The other
/// statuses are those of the form's call (`forms`). It returns where that does: nothing says that of `run_call`.
pub fn top<H: Threads + Wait + Sync, S: Shelf, K: Sink, R: Rig, G: Gate + Sync>(
    rt: &H,
    alloc: Global,
    words: &[String],
    shelf: &mut S,
    sink: &mut K,
    rig: &mut R,
    gate: &G,
) -> Status
    requires { S.words shelf.old ≡ map string_bytes words.now }

    // By the form of the words: the cause of each status and each status of a cause, what was written, and what is kept.
    ensures ended { HasEnded (request_in (map string_bytes words.now))
        (outside S.Shelf K.Sink R.Rig R.P.tells shelf.old sink.old rig.old)
        (outside S.Shelf K.Sink R.Rig R.P.tells shelf.new sink.new rig.new) result }
    ensures unplugged { (UsesRig (request_in (map string_bytes words.now)) → ⊥) → rig.new ≡ rig.old }

    // What a success wrote, as its form has it: the report of a run that is legal, complete and followed by the flat world; the
    // line of a board; the summary of a generated run; the report of a run behind address translators, or with register caches.
    ensures success { IsTrue S.tells → IsTrue K.tells → IsTrue R.tells → IsTrue R.P.tells
        → (names : Names) → request_in (map string_bytes words.now) ≡ Some (Replay names) → result ≡ status.Ok
        → HasReplayed (S.file shelf.old) names (K.bytes sink.old) (K.bytes sink.new) (R.logs rig.new) (R.states rig.new) (R.port_faults rig.new) }
    ensures checked { IsTrue S.tells → IsTrue K.tells
        → (board : List ℕ) → request_in (map string_bytes words.now) ≡ Some (Check board) → result ≡ status.Ok
        → HasChecked (S.file shelf.old) board (K.bytes sink.old) (K.bytes sink.new) }
    ensures generated { IsTrue K.tells → IsTrue R.tells → IsTrue R.P.tells
        → (plan : Plan) → request_in (map string_bytes words.now) ≡ Some (Generate plan) → result ≡ status.Ok
        → HasGenerated plan (K.bytes sink.old) (K.bytes sink.new) (R.logs rig.new) (R.states rig.new) (R.port_faults rig.new) }
    ensures verified { IsTrue S.tells → IsTrue K.tells
        → (names : VerifyNames) → request_in (map string_bytes words.now) ≡ Some (Verify names) → result ≡ status.Ok
        → HasVerified (S.file shelf.old) names (K.bytes sink.old) (K.bytes sink.new) }
    ensures translated { IsTrue S.tells → IsTrue K.tells → IsTrue R.tells → IsTrue R.P.tells
        → (names : ExtraNames) → request_in (map string_bytes words.now) ≡ Some (Atr names) → result ≡ status.Ok
        → HasTranslated (S.file shelf.old) names (K.bytes sink.old) (K.bytes sink.new) (R.logs rig.new) (R.states rig.new) (R.port_faults rig.new) }
    ensures cached { IsTrue S.tells → IsTrue K.tells → IsTrue R.tells → IsTrue R.P.tells
        → (names : Names) → request_in (map string_bytes words.now) ≡ Some (Cached names) → result ≡ status.Ok
        → HasCached (S.file shelf.old) names (K.bytes sink.old) (K.bytes sink.new) (R.logs rig.new) (R.states rig.new) (R.port_faults rig.new) }
    ensures cleared { IsTrue S.tells → IsTrue K.tells
        → (board : List ℕ) (at : ClearAt) → request_in (map string_bytes words.now) ≡ Some (Clear board at) → result ≡ status.Ok
        → HasCleared (S.file shelf.old) board at (K.bytes sink.old) (K.bytes sink.new) }
{
    answer(rt, alloc, words, shelf, sink, rig, gate)
}
