//! What is so of a journal whose walks have ended.
ghost use Rattle.std.specs.Prelude.{◌≡◌, ℕ, ◌<◌, List, [], Some, None};
ghost use Rattle.i2c_base.specs.declared.ids.LockId.{LockId};
ghost use Rattle.i2c_base.specs.Board.{BoardView};
ghost use Rattle.i2c_base.specs.declared.entry.Entry.{Entry};
ghost use Rattle.i2c_spec.specs.Plain.{IsPlainBoard};
ghost use Rattle.i2c_spec.specs.Rules.{MeetsRules};
ghost use Rattle.i2c_spec.specs.History.{Asks};
ghost use Rattle.bus_spec.specs.Walk.{Ends};
ghost use Rattle.bus_spec.specs.Past.{now};
ghost use Rattle.bus_spec.specs.Stepwise.{IsStepwise};
ghost use Rattle.bus_spec.specs.Legal.{IsComplete};
ghost use Rattle.bus_laws.specs.Reach.{AsksForMessages};
ghost use Rattle.flat_laws.specs.Ends.{IsDone};

use i2c_spec::an_accepted_board_is_a_tree;

/// A caller whose walk has ended holds no lock, and whoever has a lock is one of the callers.
pub fn a_caller_with_no_walk_holds_nothing()
    ensures nothing { (b : BoardView) (callers : ℕ) (asks : Asks) (past : List Entry) → IsPlainBoard b → MeetsRules b → AsksForMessages asks → IsStepwise b callers asks past
        → (c : ℕ) → (now b asks past).walk c ≡ Ends → (now b asks past).held c ≡ [] }
    ensures known { (b : BoardView) (callers : ℕ) (asks : Asks) (past : List Entry) → IsPlainBoard b → MeetsRules b → AsksForMessages asks → IsStepwise b callers asks past
        → (l : LockId) (c : ℕ) → (now b asks past).holder l ≡ Some c → c < callers }
{
    an_accepted_board_is_a_tree();
}

/// A caller that holds no lock has no walk under way: a walk that has begun holds a lock until it ends.
pub fn a_caller_that_holds_nothing_has_no_walk()
    ensures { (b : BoardView) (callers : ℕ) (asks : Asks) (past : List Entry) → IsPlainBoard b → MeetsRules b → AsksForMessages asks → IsStepwise b callers asks past
        → (c : ℕ) → (now b asks past).held c ≡ [] → (now b asks past).walk c ≡ Ends }
{
    an_accepted_board_is_a_tree();
}

/// A journal in which each caller's walk has ended, and none asks for more, is complete: no lock is held, and on no root
/// has a transfer begun and not ended.
pub fn a_finished_journal_is_complete()
    ensures complete { (b : BoardView) (callers : ℕ) (asks : Asks) (past : List Entry) → IsPlainBoard b → MeetsRules b → AsksForMessages asks → IsStepwise b callers asks past
        → ((c : ℕ) → c < callers → IsDone asks (now b asks past) c) → IsComplete b callers asks past }
    ensures outside { (b : BoardView) (callers : ℕ) (asks : Asks) (past : List Entry) → IsPlainBoard b → MeetsRules b → AsksForMessages asks → IsStepwise b callers asks past
        → ((c : ℕ) → c < callers → IsDone asks (now b asks past) c) → (r : ℕ) → (now b asks past).inside r ≡ None }
{
    an_accepted_board_is_a_tree();
}
