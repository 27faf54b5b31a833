//! The reach rule: who hears each message of a journal.
ghost use Rattle.std.specs.Prelude.{ℕ, List};
ghost use Rattle.i2c_base.specs.Board.{BoardView};
ghost use Rattle.i2c_base.specs.declared.entry.Entry.{Entry};
ghost use Rattle.i2c_spec.specs.Plain.{IsPlainBoard};
ghost use Rattle.i2c_spec.specs.Rules.{MeetsRules};
ghost use Rattle.i2c_spec.specs.History.{Asks};
ghost use Rattle.bus_spec.specs.Stepwise.{IsStepwise};
ghost use Rattle.bus_spec.specs.Legal.{Reaches};
ghost use Rattle.bus_laws.specs.Reach.{AsksForMessages};

use i2c_spec::an_accepted_board_is_a_tree;

/// The reach rule: a caller's message is heard by the device that its bus and address grant and by nothing else, on an
/// open path; a control message by its mux chip alone; and by nobody where that target doesn't acknowledge.
pub fn each_message_reaches_its_target()
    ensures { (b : BoardView) (callers : ℕ) (asks : Asks) (past : List Entry) → IsPlainBoard b → MeetsRules b → AsksForMessages asks → IsStepwise b callers asks past → Reaches b asks past }
{
    an_accepted_board_is_a_tree();
}
