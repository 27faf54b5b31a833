//! The laws that a checker of journals rests on.
ghost use Rattle.std.specs.Prelude.{◌≡◌, ◌+◌, ◌-◌, ◌<◌, ◌≤◌, ℕ, List, ◌∷◌, ◌++◌, length, reverse, None};
ghost use Rattle.i2c_base.specs.Board.{BoardView};
ghost use Rattle.i2c_base.specs.declared.entry.Entry.{Entry};
ghost use Rattle.i2c_base.specs.declared.reply.Reply.{Reply};
ghost use Rattle.i2c_spec.specs.Plain.{IsPlainBoard};
ghost use Rattle.i2c_spec.specs.Rules.{MeetsRules};
ghost use Rattle.i2c_spec.specs.History.{Asks};
ghost use Rattle.bus_spec.specs.Past.{calls_of, now};
ghost use Rattle.bus_spec.specs.Readings.{caller_of};
ghost use Rattle.bus_spec.specs.Stepwise.{IsStepwise};
ghost use Rattle.bus_laws.specs.Reach.{AsksForMessages, AsksWithinLimits};
ghost use Rattle.check_laws.specs.Failed.{FailBy, FailedBy, gaps_told};
ghost use Rattle.check_laws.specs.Wrong.{CantBeTold, IsFirstWrong, first_step};

use flat_laws::a_journal_is_legal;
use i2c_spec::an_accepted_board_is_a_tree;
use journal_laws::{a_legal_journal_is_stepwise, each_prefix_of_a_legal_journal_is_legal};

/// Which calls of the ports failed in a journal is told by its entries alone, and so by any that it is the front of.
///
/// Entries that might not come may tell anything.
pub fn the_failed_calls_are_told()
    ensures { (b : BoardView) (callers : ℕ) (asks : Asks) (past later : List Entry) → IsPlainBoard b → MeetsRules b → AsksForMessages asks
        → IsStepwise b callers asks past → FailBy b asks (gaps_told b (reverse past ++ later)) past }
{
    an_accepted_board_is_a_tree();
}

/// The logs of the roots of a board tell all of it: a journal makes no call on any other. And each world is that of its root.
///
/// Of a board that breaks its rules a line may be of a mux on no root.
pub fn the_roots_tell_each_call()
    ensures fails { (b : BoardView) (callers : ℕ) (asks : Asks) (past : List Entry) (gaps : ℕ → List ℕ) → IsPlainBoard b → MeetsRules b → AsksForMessages asks
        → IsStepwise b callers asks past → ((r : ℕ) → r < length b.roots → FailedBy (calls_of b asks past r) (gaps r)) → FailBy b asks gaps past }
    ensures root { (b : BoardView) (callers : ℕ) (asks : Asks) (past : List Entry) (r : ℕ) → IsPlainBoard b → MeetsRules b → AsksForMessages asks
        → IsStepwise b callers asks past → ((now b asks past).worlds r).root ≡ r }
{
    an_accepted_board_is_a_tree();
}

/// After a legal front of these entries the next one's caller is stuck, or makes another step where the same calls of the ports
/// fail: then the step that is told there is the first that isn't legal.
///
/// Where other calls fail, another step may be legal too.
pub fn where_a_step_differs_a_journal_is_wrong()
    ensures wrong { (b : BoardView) (callers : ℕ) (asks : Asks) (front : List Entry) (next : Entry) (rest : List Entry) → IsPlainBoard b → MeetsRules b
        → AsksForMessages asks → AsksWithinLimits asks → IsStepwise b callers asks (reverse front) → (now b asks (reverse front)).due ≡ None
        → CantBeTold b callers asks (gaps_told b (front ++ next ∷ rest)) (reverse front) (caller_of next) (next ∷ rest)
        → IsFirstWrong b callers asks (front ++ next ∷ rest) (length front + first_step (next ∷ rest) - 1) }
    ensures fewer { (b : BoardView) (callers fewer : ℕ) (asks : Asks) (es : List Entry) (i : ℕ) → IsPlainBoard b → MeetsRules b → AsksForMessages asks
        → AsksWithinLimits asks → fewer ≤ callers → ((c : ℕ) → fewer ≤ c → (rs : List Reply) → asks c rs ≡ None)
        → IsFirstWrong b callers asks es i → IsFirstWrong b fewer asks es i }
{
    an_accepted_board_is_a_tree();
    a_journal_is_legal();
    a_legal_journal_is_stepwise();
    each_prefix_of_a_legal_journal_is_legal();
}
