//! What stands at a place of a journal: the fold over its past has each of the readings, whatever the entries are.
ghost use Rattle.std.specs.Prelude.{◌≡◌, ℕ, ◌⊎◌, List, Some};
ghost use Rattle.i2c_base.specs.Board.{BoardView};
ghost use Rattle.i2c_base.specs.declared.entry.Entry.{Entry};
ghost use Rattle.i2c_base.specs.declared.ids.LockId.{LockId};
ghost use Rattle.i2c_spec.specs.Tree.{home_of_mux};
ghost use Rattle.i2c_spec.specs.Plain.{IsPlainBoard};
ghost use Rattle.i2c_spec.specs.Rules.{MeetsRules};
ghost use Rattle.i2c_spec.specs.History.{Asks};
ghost use Rattle.bus_spec.specs.Readings.{holder, replies, last_cut};
ghost use Rattle.bus_spec.specs.Past.{mark, kept_channel, now, world_at};
ghost use Rattle.bus_spec.specs.Stepwise.{IsStepwise};
ghost use Rattle.bus_spec.specs.Places.{mark_left, kept_left, walk_left, world_after};
ghost use Rattle.bus_laws.specs.Reach.{AsksForMessages};
ghost use Rattle.journal_laws.specs.Flight.{AreInFlight};
ghost use Rattle.journal_laws.specs.Selected.{GoesThroughSelected};

use i2c_spec::an_accepted_board_is_a_tree;

/// What is settled for a caller, what its last entry tells of a cut, and who has a lock, is what the entries alone tell.
pub fn settled_is_replies()
    ensures settled { (b : BoardView) (asks : Asks) (past : List Entry) (c : ℕ) → (now b asks past).settled c ≡ replies past c }
    ensures cut { (b : BoardView) (asks : Asks) (past : List Entry) (c : ℕ) → (now b asks past).cut c ≡ last_cut past c }
    ensures held { (b : BoardView) (asks : Asks) (past : List Entry) (l : LockId) → (now b asks past).holder l ≡ holder past l }
{}

/// What is left of a caller's walk is what its own entries have left of it, one step after the other.
pub fn each_walk_is_what_its_entries_left()
    ensures { (b : BoardView) (asks : Asks) (past : List Entry) (c : ℕ) → (now b asks past).walk c ≡ walk_left b asks past c }
{}

/// The mark of a bus is the mux that a failed step marked there last, if no mux on the bus was switched since without
/// failing.
pub fn each_mark_is_the_last_one_made()
    ensures { (b : BoardView) (asks : Asks) (past : List Entry) (p : ℕ) → mark b asks past p ≡ mark_left b asks past p }
{}

/// The channel that a mux keeps is what the last message or line step that switches it tells by its own byte or level. A
/// select that went through opens its channel, and every other one leaves none. Of the mark of a bus nothing is said: the
/// message that marked it may have been one to another mux, on the way of its own.
///
/// On a board that isn't accepted a mux may lack the channel that is selected. Entries that might not come may tell another
/// byte, or another mux, than what was sent. A message in each transfer is what the tree law is shown of.
pub fn each_kept_channel_is_the_last_one_told()
    ensures { (b : BoardView) (callers : ℕ) (asks : Asks) (past : List Entry) → IsPlainBoard b → MeetsRules b → AsksForMessages asks → IsStepwise b callers asks past
        → (m : ℕ) → (mark b asks past (home_of_mux b m) ≡ Some m) ⊎ (kept_channel b asks past m ≡ kept_left b past m) }
{
    an_accepted_board_is_a_tree();
}

/// Each message goes through muxes that are selected: of each mux on its way the last select that went through, with no
/// deselect or close since, was of the way's hop; and where the mux disconnects when idle it was the message's own caller that
/// made it. A channel that is kept may be another caller's select.
///
/// On a board that isn't accepted a mux may stand on a channel of its own, and the message that selects it first goes through
/// it. Entries that might not come may go through a mux that nobody selected. The rules of a board, and a message in each
/// transfer, are what the tree law is shown of.
pub fn each_message_goes_through_selected_muxes()
    ensures { (b : BoardView) (callers : ℕ) (asks : Asks) (past : List Entry) → IsPlainBoard b → MeetsRules b → AsksForMessages asks → IsStepwise b callers asks past → GoesThroughSelected b asks past }
{
    an_accepted_board_is_a_tree();
}

/// The world of each root is the opening one after the calls that the entries before tell.
pub fn each_world_is_that_of_its_calls()
    ensures { (b : BoardView) (asks : Asks) (past : List Entry) (r : ℕ) → world_at b asks past r ≡ world_after b asks past r }
{}

/// Each message of a journal has the address and the direction of the message in flight: the one that its caller's walk
/// sends next where it stands.
pub fn each_message_is_the_one_in_flight()
    ensures { (b : BoardView) (callers : ℕ) (asks : Asks) (past : List Entry) → IsStepwise b callers asks past → AreInFlight b asks past }
{}
