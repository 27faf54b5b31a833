//! What an entry of one caller leaves of the others.
ghost use Rattle.std.specs.Prelude.{◌≡◌, ℕ, ◌≤◌, List, ◌∷◌, None};
ghost use Rattle.i2c_base.specs.Board.{BoardView};
ghost use Rattle.i2c_base.specs.declared.entry.Entry.{Entry};
ghost use Rattle.i2c_base.specs.declared.reply.Reply.{Reply};
ghost use Rattle.i2c_base.specs.declared.reply.Cut.{Cut};
ghost use Rattle.i2c_spec.specs.Plain.{IsPlainBoard};
ghost use Rattle.i2c_spec.specs.Rules.{MeetsRules};
ghost use Rattle.i2c_spec.specs.History.{Asks};
ghost use Rattle.bus_spec.specs.Walk.{WalkTree};
ghost use Rattle.bus_spec.specs.Readings.{caller_of};
ghost use Rattle.bus_spec.specs.Past.{Now, current, now, step};
ghost use Rattle.bus_spec.specs.Stepwise.{IsStepwise};
ghost use Rattle.bus_laws.specs.Reach.{AsksForMessages};
ghost use Rattle.bus_laws.specs.Others.{CallerTold};

use i2c_spec::an_accepted_board_is_a_tree;

/// An entry of one caller leaves what the journal tells of each other caller: what is ahead of it, its replies, what it has
/// read, and the cut of its last entry. The entry need not be one that may come.
///
/// Of the caller itself it would be false: a lock that is taken is no longer ahead.
pub fn an_entry_leaves_the_other_callers()
    ensures { (b : BoardView) (asks : Asks) (n : Now) (e : Entry) (c : ℕ) (w : WalkTree) (replies : List Reply) (got : List ℕ) (cut : Cut)
        → (c ≡ caller_of e → ⊥) → CallerTold b asks n c w replies got cut → CallerTold b asks (step b asks n e) c w replies got cut }
{}

/// What a caller does next stays while others step, with the looks in front of it answered.
///
/// The caller itself goes on. An entry that might not come could be a message of one that hasn't the lock of its bus. The
/// rules of the board, and a message in each transfer, are what the tree law is shown of.
pub fn the_next_step_stays()
    ensures { (b : BoardView) (callers : ℕ) (asks : Asks) (past : List Entry) (e : Entry) → IsPlainBoard b → MeetsRules b → AsksForMessages asks → IsStepwise b callers asks (e ∷ past)
        → (c : ℕ) → (c ≡ caller_of e → ⊥) → current b asks (now b asks (e ∷ past)) c ≡ current b asks (now b asks past) c }
{
    an_accepted_board_is_a_tree();
}

/// A caller that asks for nothing never steps: fewer callers are as good as more.
///
/// One that asks for something may step, and its entries are of no smaller number of callers.
pub fn who_asks_for_nothing_never_steps()
    ensures { (b : BoardView) (callers fewer : ℕ) (asks : Asks) → ((c : ℕ) → fewer ≤ c → (rs : List Reply) → asks c rs ≡ None)
        → (past : List Entry) → IsStepwise b callers asks past → IsStepwise b fewer asks past }
{}
