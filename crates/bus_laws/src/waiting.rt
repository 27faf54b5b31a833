//! Who waits for a lock.
ghost use Rattle.std.specs.Prelude.{◌≡◌, ℕ, List, ◌∷◌, Option, Some, None, false, slice_get};
ghost use Rattle.i2c_base.specs.Board.{BoardView};
ghost use Rattle.i2c_base.specs.declared.ids.LockId.{LockId};
ghost use Rattle.i2c_base.specs.declared.entry.Entry.{Entry};
ghost use Rattle.i2c_spec.specs.Plain.{IsPlainBoard};
ghost use Rattle.i2c_spec.specs.Rules.{MeetsRules};
ghost use Rattle.i2c_spec.specs.History.{Asks};
ghost use Rattle.bus_spec.specs.Walk.{WalkTree};
ghost use Rattle.bus_spec.specs.Slots.{Slots};
ghost use Rattle.bus_spec.specs.Grammar.{seen, first_act};
ghost use Rattle.bus_spec.specs.Stepwise.{IsStepwise};
ghost use Rattle.bus_spec.specs.Schedule.{Turn, FollowsWords, is_ready};
ghost use Rattle.bus_laws.specs.Reach.{AsksForMessages};
ghost use Rattle.bus_laws.specs.Waiting.{LocksKept, IsHeldUp};
ghost use Rattle.bus_laws.specs.Ready.{IsStuck};
ghost use Rattle.bus_laws.specs.Coming.{Comes};

use i2c_spec::an_accepted_board_is_a_tree;

/// Where each walk has ended or waits for a lock, all have ended: told by the walks, the locks that each holds, and the
/// table of holders alone.
///
/// A table that named a holder with no walk, or a walk that took locks in rising rank, could have all of them wait.
pub fn not_all_wait()
    ensures { (b : BoardView) (trees : List WalkTree) (held : List (List LockId)) (numbers : List ℕ) (holder : LockId → Option ℕ) (v : Slots)
        → LocksKept b trees held numbers holder v → ((i : ℕ) (w : WalkTree) → slice_get trees i ≡ Some w → IsHeldUp holder v w)
        → (i : ℕ) (w : WalkTree) → slice_get trees i ≡ Some w → first_act (seen v w) ≡ None }
{}

/// A caller that waits for a lock, or has finished, isn't ready, whatever comes later; so a word of a schedule that names
/// it is passed over.
///
/// A caller that isn't stuck may make the next step. Entries that might not come, before or behind, could be of the caller
/// itself. The rules of the board, and a message in each transfer, are what the tree law is shown of.
pub fn who_is_stuck_waits()
    ensures waits { (b : BoardView) (callers : ℕ) (asks : Asks) (past : List Entry) → IsPlainBoard b → MeetsRules b → AsksForMessages asks → IsStepwise b callers asks past
        → (c : ℕ) → IsStuck b asks past c → (later : List Turn) → Comes b callers asks past later → is_ready past later c ≡ false }
    ensures passed { (b : BoardView) (callers : ℕ) (asks : Asks) (past : List Entry) → IsPlainBoard b → MeetsRules b → AsksForMessages asks → IsStepwise b callers asks past
        → (c : ℕ) (words : List ℕ) → IsStuck b asks past c → (later : List Turn) → Comes b callers asks past later → FollowsWords words past later → FollowsWords (c ∷ words) past later }
{
    an_accepted_board_is_a_tree();
}
