//! What walks, callers and all of them together spend: entries of the journal, their bytes, and calls of the ports.
ghost use Rattle.std.specs.Prelude.{◌≡◌, ℕ, ◌<◌, List, [], Some};
ghost use Rattle.i2c_base.specs.Board.{BoardView};
ghost use Rattle.i2c_base.specs.declared.entry.Entry.{Entry};
ghost use Rattle.i2c_base.specs.declared.reply.Reply.{Reply};
ghost use Rattle.i2c_base.specs.Transfer.{TransferView};
ghost use Rattle.i2c_spec.specs.Plain.{IsPlainBoard};
ghost use Rattle.i2c_spec.specs.Rules.{MeetsRules};
ghost use Rattle.i2c_spec.specs.Cost.{cost_of};
ghost use Rattle.i2c_spec.specs.History.{Asks};
ghost use Rattle.bus_spec.specs.Readings.{replies};
ghost use Rattle.bus_spec.specs.Stepwise.{IsStepwise};
ghost use Rattle.bus_laws.specs.Reach.{AsksForMessages};
ghost use Rattle.journal_laws.specs.Spent.{AreWithin, CoversCosts, IsWithinCost, KeepsFits, cost_from, its_bytes, its_calls, of_caller, of_walk, one_entry, sum_below, whose_walk};

use i2c_spec::an_accepted_board_is_a_tree;

/// No transfer makes more entries than its cost, its settle among them, nor more than twice its cost in bytes of these and
/// in calls of the ports. That is so while it is under way too.
///
/// On a board that isn't accepted a mux-locked arbitrator could be asked more often than is counted. A transfer without a
/// message would send one that its cost doesn't count. Entries that might not come may be any.
pub fn no_transfer_exceeds_its_cost()
    ensures { (b : BoardView) (callers : ℕ) (asks : Asks) (past : List Entry) → IsPlainBoard b → MeetsRules b → AsksForMessages asks → IsStepwise b callers asks past
        → (c : ℕ) (t : TransferView) → whose_walk b asks past c ≡ Some t
        → IsWithinCost (cost_of b t) (of_walk b asks one_entry past c) (of_walk b asks its_bytes past c) (of_walk b asks (its_calls b asks) past c) }
{
    an_accepted_board_is_a_tree();
}

/// No caller spends more than the transfers cost that it has asked for: those that its replies are of, and the next one.
///
/// On a board that isn't accepted a mux-locked arbitrator could be asked more often than is counted. A transfer without a
/// message would send one that its cost doesn't count. Entries that might not come may be any.
pub fn no_caller_exceeds_its_cost()
    ensures { (b : BoardView) (callers : ℕ) (asks : Asks) (past : List Entry) → IsPlainBoard b → MeetsRules b → AsksForMessages asks → IsStepwise b callers asks past
        → (c : ℕ) → IsWithinCost (cost_from b (asks c) [] (replies past c)) (of_caller one_entry past c) (of_caller its_bytes past c) (of_caller (its_calls b asks) past c) }
{
    an_accepted_board_is_a_tree();
}

/// Every journal ends: a caller whose own bound falls by each transfer's cost never spends more than that bound says at the
/// beginning, and all callers together make no more steps than the sum of their bounds. The steps are those of the
/// schedule, so the lone settle of a refused transfer is one.
///
/// A bound that doesn't fall says nothing; that it falls with each reply that fits its transfer is enough. On a board that
/// isn't accepted a mux-locked arbitrator could be asked more often than is counted. A transfer without a message would send
/// one that its cost doesn't count. Entries that might not come may be any.
pub fn all_callers_stay_within_their_bounds()
    ensures each { (b : BoardView) (callers : ℕ) (asks : Asks) (past : List Entry) → IsPlainBoard b → MeetsRules b → AsksForMessages asks → IsStepwise b callers asks past
        → (c : ℕ) (left : List Reply → ℕ) → CoversCosts b (asks c) left
        → IsWithinCost (left []) (of_caller one_entry past c) (of_caller its_bytes past c) (of_caller (its_calls b asks) past c) }
    ensures together { (b : BoardView) (callers : ℕ) (asks : Asks) (past : List Entry) → IsPlainBoard b → MeetsRules b → AsksForMessages asks → IsStepwise b callers asks past
        → (left : ℕ → List Reply → ℕ) → ((c : ℕ) → c < callers → CoversCosts b (asks c) (left c)) → AreWithin b asks past (sum_below callers (λ c. left c [])) }
{
    an_accepted_board_is_a_tree();
}

/// Each reply that is settled is one that its transfer may get: what was read is what its messages ask for, of a counted
/// read as many bytes as it counted.
///
/// A transfer without a message would send one that nobody asked for; and a settle that might not come may tell any reply.
pub fn each_reply_fits_its_transfer()
    ensures { (b : BoardView) (callers : ℕ) (asks : Asks) (past : List Entry) → AsksForMessages asks → IsStepwise b callers asks past → KeepsFits asks past }
{}
