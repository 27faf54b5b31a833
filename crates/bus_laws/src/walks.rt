//! Laws of the walk of one transfer, from its first lock to its last.
ghost use Rattle.i2c_base.specs.Board.{BoardView};
ghost use Rattle.i2c_base.specs.Transfer.{TransferView};
ghost use Rattle.i2c_spec.specs.TreeFacts.{IsTree};
ghost use Rattle.bus_spec.specs.Slots.{Slots};
ghost use Rattle.bus_spec.specs.Grammar.{walk_for};
ghost use Rattle.bus_laws.specs.Lines.{LinesAreLocked};
ghost use Rattle.bus_laws.specs.Runs.{Runs};
ghost use Rattle.bus_laws.specs.Holds.{HoldsLocks};
ghost use Rattle.bus_laws.specs.Settles.{Settles};
ghost use Rattle.bus_laws.specs.Costs.{IsWithin};
ghost use Rattle.bus_laws.specs.Jobs.{EachJob, IsJobOf};
ghost use Rattle.i2c_spec.specs.Cost.{cost_of};
ghost use Rattle.i2c_spec.specs.Rules.{MeetsRules};
ghost use Rattle.i2c_spec.specs.Plain.{IsPlainBoard};
ghost use Rattle.std.specs.Prelude.{◌-◌, ◌<◌, false, [], length};

use i2c_spec::an_accepted_board_is_a_tree;

/// The tree law: the whole walk of a transfer runs, whatever its steps give and whatever is known of the buses.
///
/// It takes its locks in falling rank and frees them in reverse. At each message every mux over its bus is selected
/// and its lock held, and so is the root's lock. A failure marks, of the muxes whose locks are held, all that may be
/// open. At a lock that is freed nothing is open there but what is marked.
pub fn each_walk_keeps_its_path_open()
    ensures { (b : BoardView) (t : TransferView) → IsTree b → LinesAreLocked b → 0 < length t.msgs → (v : Slots) → Runs b t [] v (walk_for b t) }
{}

/// Each walk settles exactly once, directly after a message or a line step, or as its only step where the transfer is
/// refused without one. The caller's messages come before it, each directly after the one before.
pub fn each_walk_settles_once()
    ensures { (b : BoardView) (t : TransferView) → Settles false (walk_for b t) }
{}

/// No walk has more steps and bytes than its transfer's cost, with the settle counted as one step.
///
/// The bytes of a message are those that it moves at most, of a counted read as many as the board's limit allows. On a board
/// that isn't accepted a mux-locked arbitrator could be asked more often than is counted. A transfer without a message would
/// send one that its cost doesn't count.
pub fn each_walk_keeps_to_its_cost()
    ensures { (b : BoardView) (t : TransferView) → IsPlainBoard b → MeetsRules b → 0 < length t.msgs → IsWithin b (walk_for b t) (cost_of b t - 1) }
{
    an_accepted_board_is_a_tree();
}

/// All that a walk sends, and each line that it shifts, is behind its transfer's root.
///
/// It sends its messages, and selects and deselects muxes on its path; a mux is closed there too where it is marked.
pub fn each_walk_stays_on_its_root()
    ensures { (b : BoardView) (t : TransferView) → IsPlainBoard b → MeetsRules b → EachJob (IsJobOf b t) (walk_for b t) }
{
    an_accepted_board_is_a_tree();
}

/// Each walk takes its locks in falling rank and frees them in reverse, each of them a lock of the board. At each message
/// and line step it has the root's lock and the lock of each bus that a failure may mark, whatever its looks find and its
/// steps give.
///
/// On a board that is no tree the locks of a path don't fall; and a line step below a mux-locked mux has no root's lock.
pub fn each_walk_holds_its_locks()
    ensures { (b : BoardView) → IsTree b → LinesAreLocked b → (t : TransferView) → HoldsLocks b [] (walk_for b t) }
{}
