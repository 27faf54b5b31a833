//! Who can go on.
ghost use Rattle.std.specs.Prelude.{◌≡◌, ◌⊎◌, ◌↔◌, ℕ, ◌<◌, List, None, true};
ghost use Rattle.i2c_base.specs.Board.{BoardView};
ghost use Rattle.i2c_base.specs.declared.entry.Entry.{Entry};
ghost use Rattle.i2c_spec.specs.Plain.{IsPlainBoard};
ghost use Rattle.i2c_spec.specs.Rules.{MeetsRules};
ghost use Rattle.i2c_spec.specs.History.{Asks};
ghost use Rattle.bus_spec.specs.Past.{now};
ghost use Rattle.bus_spec.specs.Stepwise.{IsStepwise};
ghost use Rattle.bus_spec.specs.Schedule.{Turn, is_ready};
ghost use Rattle.bus_laws.specs.Reach.{AsksForMessages};
ghost use Rattle.bus_laws.specs.Ready.{CanGoOn, HasFinished, IsStuck, SomeCanGoOn};
ghost use Rattle.bus_laws.specs.Coming.{Comes, after_all};

use i2c_spec::an_accepted_board_is_a_tree;

/// At each place of a journal all callers have finished, or some caller has an entry that may come: the locks stop nobody
/// for good. Where a settle is due it is that one.
///
/// After entries that might not come a lock may be held by a caller that has finished. The rules of the board, and a
/// message in each transfer, are what the tree law is shown of.
pub fn some_caller_can_go_on()
    ensures { (b : BoardView) (callers : ℕ) (asks : Asks) (past : List Entry) → IsPlainBoard b → MeetsRules b → AsksForMessages asks → IsStepwise b callers asks past → SomeCanGoOn b callers asks past }
{
    an_accepted_board_is_a_tree();
}

/// Where no settle is due, each caller has an entry that may come, or waits for a lock that somebody has, or has finished;
/// and who waits or has finished has no entry that may come.
///
/// Where a settle is due only its caller has one. After entries that might not come a caller may have a lock of a lower
/// rank than the free one that it takes next. The rules of the board, and a message in each transfer, are what the tree law
/// is shown of.
pub fn each_caller_goes_on_or_is_stuck()
    ensures either { (b : BoardView) (callers : ℕ) (asks : Asks) (past : List Entry) → IsPlainBoard b → MeetsRules b → AsksForMessages asks → IsStepwise b callers asks past
        → (now b asks past).due ≡ None → (c : ℕ) → c < callers → CanGoOn b callers asks past c ⊎ IsStuck b asks past c }
    ensures never { (b : BoardView) (callers : ℕ) (asks : Asks) (past : List Entry) → IsPlainBoard b → MeetsRules b → AsksForMessages asks → IsStepwise b callers asks past
        → (c : ℕ) → IsStuck b asks past c → CanGoOn b callers asks past c → ⊥ }
{
    an_accepted_board_is_a_tree();
}

/// The schedule looks at a journal afterwards, and sees what each place tells: in steps after which all have finished, a
/// caller is ready exactly where it has an entry that may come.
///
/// Where a settle is due another may be ready that can't go on yet. In steps that end before all have finished, or might not
/// come, a caller may have none, though it can go on; one that is none of the callers has none. The rules of the board, and a
/// message in each transfer, are what the tree law is shown of.
pub fn who_can_go_on_is_ready()
    ensures { (b : BoardView) (callers : ℕ) (asks : Asks) (past : List Entry) → IsPlainBoard b → MeetsRules b → AsksForMessages asks → IsStepwise b callers asks past
        → (now b asks past).due ≡ None → (later : List Turn) → Comes b callers asks past later → ((c : ℕ) → c < callers → HasFinished b asks (after_all past later) c)
        → (c : ℕ) → c < callers → (is_ready past later c ≡ true) ↔ CanGoOn b callers asks past c }
{
    an_accepted_board_is_a_tree();
}
