//! The steps of a journal, and the schedule that it follows.
ghost use Rattle.std.specs.Prelude.{◌≡◌, ℕ, ◌<◌, List, [], ◌∷◌, ◌++◌, reverse, None};
ghost use Rattle.i2c_base.specs.Board.{BoardView};
ghost use Rattle.i2c_base.specs.declared.entry.Entry.{Entry};
ghost use Rattle.i2c_spec.specs.Plain.{IsPlainBoard};
ghost use Rattle.i2c_spec.specs.Rules.{MeetsRules};
ghost use Rattle.i2c_spec.specs.History.{Asks};
ghost use Rattle.bus_spec.specs.Past.{now};
ghost use Rattle.bus_spec.specs.Stepwise.{IsStepwise};
ghost use Rattle.bus_spec.specs.Schedule.{Turn, turns, past_after};
ghost use Rattle.bus_laws.specs.Reach.{AsksForMessages};
ghost use Rattle.bus_laws.specs.Ready.{IsStuck};
ghost use Rattle.bus_laws.specs.Coming.{IsTurn};
ghost use Rattle.bus_laws.specs.Following.{GoesOnBy, KeepsTo};

use i2c_spec::an_accepted_board_is_a_tree;

/// A journal and one step more: its steps are those before, and that one.
///
/// A settle that is due joins the message before it, so the steps before would be others; so would a lone settle after a
/// message of its caller, which may stand in entries that might not come. The rules of the board, and a message in each
/// transfer, are what the tree law is shown of.
pub fn one_step_more()
    ensures { (b : BoardView) (callers : ℕ) (asks : Asks) (past : List Entry) → IsPlainBoard b → MeetsRules b → AsksForMessages asks → IsStepwise b callers asks past → (now b asks past).due ≡ None
        → (t : Turn) → IsTurn b callers asks past t → turns (reverse past ++ t.entries) ≡ turns (reverse past) ++ t ∷ [] }
{
    an_accepted_board_is_a_tree();
}

/// A loop over a schedule follows it from whatever journal it begins with: a word's caller makes a step, or is stuck and passed
/// over, and after the last word the least caller that isn't stuck makes each step.
///
/// A word that passes over a caller that isn't stuck, or a step of one that isn't the least, is none of the schedule's.
/// Where a settle is due, or in entries that might not come, a step more could change the steps before. The rules of the
/// board, and a message in each transfer, are what the tree law is shown of.
pub fn a_loop_follows()
    ensures made { (b : BoardView) (callers : ℕ) (asks : Asks) (words : List ℕ) (from past : List Entry) → IsPlainBoard b → MeetsRules b → AsksForMessages asks → IsStepwise b callers asks past
        → (now b asks past).due ≡ None → (t : Turn) → IsTurn b callers asks past t → (left : List ℕ) → KeepsTo b callers asks words from (t.caller ∷ left) past → KeepsTo b callers asks words from left (past_after past t) }
    ensures passed { (b : BoardView) (callers : ℕ) (asks : Asks) (words : List ℕ) (from past : List Entry) → IsPlainBoard b → MeetsRules b → AsksForMessages asks → IsStepwise b callers asks past
        → (w : ℕ) → IsStuck b asks past w → (left : List ℕ) → KeepsTo b callers asks words from (w ∷ left) past → KeepsTo b callers asks words from left past }
    ensures least { (b : BoardView) (callers : ℕ) (asks : Asks) (words : List ℕ) (from past : List Entry) → IsPlainBoard b → MeetsRules b → AsksForMessages asks → IsStepwise b callers asks past
        → (now b asks past).due ≡ None → (t : Turn) → IsTurn b callers asks past t → ((c : ℕ) → c < t.caller → IsStuck b asks past c)
        → KeepsTo b callers asks words from [] past → KeepsTo b callers asks words from [] (past_after past t) }
    ensures whole { (b : BoardView) (callers : ℕ) (asks : Asks) (words : List ℕ) (from : List Entry) → KeepsTo b callers asks words from words from }
    ensures end { (b : BoardView) (callers : ℕ) (asks : Asks) (words : List ℕ) (from past : List Entry) → KeepsTo b callers asks words from [] past → GoesOnBy words (reverse from) (reverse past) }
{
    an_accepted_board_is_a_tree();
}
