//! A journal beside the flat world: its walks, the devices that it leaves, and its replies.
ghost use Rattle.std.specs.Prelude.{◌≡◌, ℕ, List, None};
ghost use Rattle.i2c_base.specs.Board.{BoardView};
ghost use Rattle.i2c_base.specs.declared.entry.Entry.{Entry};
ghost use Rattle.i2c_spec.specs.Plain.{IsPlainBoard};
ghost use Rattle.i2c_spec.specs.Rules.{MeetsRules};
ghost use Rattle.i2c_spec.specs.History.{Asks};
ghost use Rattle.bus_spec.specs.Past.{now};
ghost use Rattle.bus_spec.specs.Walk.{Ends};
ghost use Rattle.bus_spec.specs.Stepwise.{IsStepwise};
ghost use Rattle.bus_spec.specs.ByTree.{KeepsWalks};
ghost use Rattle.bus_spec.specs.Legal.{IsLegal, KeepsReplies};
ghost use Rattle.bus_spec.specs.Ruled.{IsRuled};
ghost use Rattle.flat_laws.specs.Left.{KeepsDevices, LeavesDevices};
ghost use Rattle.bus_laws.specs.Reach.{AsksForMessages, AsksWithinLimits};

use i2c_spec::an_accepted_board_is_a_tree;

/// The walk rule: where no settle is due, the entries of each caller, in order, are its transfers' walks one after the
/// other, the last one maybe under way.
pub fn each_caller_walks_its_transfers()
    ensures { (b : BoardView) (callers : ℕ) (asks : Asks) (past : List Entry) → AsksForMessages asks → IsStepwise b callers asks past → (now b asks past).due ≡ None → KeepsWalks b asks past }
{}

/// The devices: where no settle is due, those of a root are the ones that the flat world has after the settled transfers;
/// where a caller's messages have begun on the root and not ended, they are those behind these messages. All others are
/// quiet.
pub fn the_devices_are_those_of_the_history()
    ensures { (b : BoardView) (callers : ℕ) (asks : Asks) (past : List Entry) → IsPlainBoard b → MeetsRules b → AsksForMessages asks → AsksWithinLimits asks
        → IsStepwise b callers asks past → (now b asks past).due ≡ None → KeepsDevices b asks past }
{
    an_accepted_board_is_a_tree();
}

/// Where no walk is under way, the devices of all roots together are those that the flat world has after the transfers.
pub fn a_journal_that_rests_leaves_the_devices_of_its_history()
    ensures { (b : BoardView) (callers : ℕ) (asks : Asks) (past : List Entry) → IsPlainBoard b → MeetsRules b → AsksForMessages asks → AsksWithinLimits asks
        → IsStepwise b callers asks past → ((c : ℕ) → (now b asks past).walk c ≡ Ends) → LeavesDevices b asks past }
{
    an_accepted_board_is_a_tree();
}

/// The reply rule: the replies of each caller are those of the flat world doing the transfers one at a time, in the
/// order of the settles, each cut as its settle tells. So no caller sees another's transfer half done, nor a mux or a lock.
pub fn each_reply_is_that_of_the_flat_world()
    ensures { (b : BoardView) (callers : ℕ) (asks : Asks) (past : List Entry) → IsPlainBoard b → MeetsRules b → AsksForMessages asks → AsksWithinLimits asks
        → IsStepwise b callers asks past → KeepsReplies b asks past }
{
    an_accepted_board_is_a_tree();
}

/// A journal each of whose entries might come where it did, and in which no settle is due, is legal.
pub fn a_journal_is_legal()
    ensures { (b : BoardView) (callers : ℕ) (asks : Asks) (past : List Entry) → IsPlainBoard b → MeetsRules b → AsksForMessages asks → AsksWithinLimits asks
        → IsStepwise b callers asks past → (now b asks past).due ≡ None → IsLegal b callers asks past }
{
    an_accepted_board_is_a_tree();
}

/// What a legal journal keeps is told without any walk tree: there is what each entry does, so that each caller's entries are the
/// lists of the walk rule, and each message reached its target where everything stood by what the entries before did.
pub fn a_legal_journal_keeps_the_rules()
    ensures { (b : BoardView) (callers : ℕ) (asks : Asks) (past : List Entry) → IsLegal b callers asks past → IsRuled b callers asks past }
{}
