//! Laws of whole journals: locks, open paths, kept channels and marks, and where each settle stands.
ghost use Rattle.std.specs.Prelude.{◌≡◌, ℕ, ◌<◌, List, Some};
ghost use Rattle.i2c_base.specs.Board.{BoardView};
ghost use Rattle.i2c_base.specs.declared.entry.Entry.{Entry};
ghost use Rattle.i2c_spec.specs.Tree.{buses, home_of_mux};
ghost use Rattle.i2c_spec.specs.Plain.{IsPlainBoard};
ghost use Rattle.i2c_spec.specs.Rules.{MeetsRules};
ghost use Rattle.i2c_spec.specs.History.{Asks};
ghost use Rattle.bus_spec.specs.Past.{mark};
ghost use Rattle.bus_spec.specs.Stepwise.{IsStepwise};
ghost use Rattle.bus_spec.specs.Legal.{KeepsLocks, KeepsSettles, KeepsWhole};
ghost use Rattle.bus_laws.specs.Reach.{AsksForMessages, KeepsClosed, KeepsPathsOpen};

use i2c_spec::an_accepted_board_is_a_tree;

/// The lock rule: a lock is taken only while nobody has it, and in falling rank; and it is freed only by who has it
/// (Linux i2c-topology).
pub fn each_journal_keeps_its_locks()
    ensures { (b : BoardView) (callers : ℕ) (asks : Asks) (past : List Entry) → IsPlainBoard b → MeetsRules b → AsksForMessages asks → IsStepwise b callers asks past → KeepsLocks b past }
{
    an_accepted_board_is_a_tree();
}

/// Each mux has exactly the channel open that it keeps, or none where it keeps none; of the mark of a bus alone nothing is
/// said. A mux that stays as it is may keep a channel while nobody is on the bus. One that disconnects keeps one only while
/// the caller that selected it has the lock of its bus, between that select and the deselect (Linux i2c-topology).
///
/// On a board that isn't accepted one select could open channels of two muxes. Entries that might not come may free a lock
/// after a select. A message in each transfer is what the tree law is shown of.
pub fn each_mux_keeps_its_channel_or_is_marked()
    ensures { (b : BoardView) (callers : ℕ) (asks : Asks) (past : List Entry) → IsPlainBoard b → MeetsRules b → AsksForMessages asks → IsStepwise b callers asks past → KeepsClosed b asks past }
{
    an_accepted_board_is_a_tree();
}

/// Each mark is a mux that stands on that bus, and that is a bus of the board.
///
/// On a board that isn't accepted a mux may stand on a bus that the board lacks. A message in each transfer, and entries
/// that may come, are what the tree law is shown of.
pub fn each_mark_is_on_a_bus_of_the_board()
    ensures home { (b : BoardView) (callers : ℕ) (asks : Asks) (past : List Entry) → IsPlainBoard b → MeetsRules b → AsksForMessages asks → IsStepwise b callers asks past
        → (p m : ℕ) → mark b asks past p ≡ Some m → home_of_mux b m ≡ p }
    ensures there { (b : BoardView) (callers : ℕ) (asks : Asks) (past : List Entry) → IsPlainBoard b → MeetsRules b → AsksForMessages asks → IsStepwise b callers asks past
        → (p m : ℕ) → mark b asks past p ≡ Some m → p < buses b }
{
    an_accepted_board_is_a_tree();
}

/// At each message every mux over its bus has the channel of the path open, in the world of its root; and who has
/// heard the message is exactly who hears its start in that world, but where the start itself failed (UM10204
/// section 3.1.10). Its caller has the root's lock, and the lock of each other bus on the path (Linux i2c-topology).
///
/// On a board that isn't accepted a mux could hear the select of another one below it, and change its own channel. Entries
/// that might not come may take no lock and select nothing. A message in each transfer is what the tree law is shown of.
pub fn each_message_finds_its_path_open()
    ensures { (b : BoardView) (callers : ℕ) (asks : Asks) (past : List Entry) → IsPlainBoard b → MeetsRules b → AsksForMessages asks → IsStepwise b callers asks past → KeepsPathsOpen b asks past }
{
    an_accepted_board_is_a_tree();
}

/// The whole rule: between two messages of one transfer no other message or line step of that root stands (UM10204
/// section 3.1.10: messages joined by repeated starts are one transfer).
pub fn no_message_stands_inside_a_transfer()
    ensures { (b : BoardView) (callers : ℕ) (asks : Asks) (past : List Entry) → IsPlainBoard b → MeetsRules b → AsksForMessages asks → IsStepwise b callers asks past → KeepsWhole b past }
{
    an_accepted_board_is_a_tree();
}

/// Each settle tells the cut of its caller's last entry, and stands directly after that message or line step where its
/// transfer steps on the bus.
pub fn each_settle_stands_where_it_is_decided()
    ensures { (b : BoardView) (callers : ℕ) (asks : Asks) (past : List Entry) → AsksForMessages asks → IsStepwise b callers asks past → KeepsSettles b asks past }
{}
