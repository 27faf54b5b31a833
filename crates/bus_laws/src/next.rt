//! What the next entry of a caller can be: whom its message reaches, and which lock it takes.
ghost use Rattle.std.specs.Prelude.{◌≡◌, ℕ, List, None};
ghost use Rattle.i2c_base.specs.declared.ids.LockId.{LockId};
ghost use Rattle.i2c_base.specs.Board.{BoardView};
ghost use Rattle.i2c_base.specs.declared.entry.Entry.{Entry};
ghost use Rattle.i2c_base.specs.declared.entry.Purpose.TheVariants as purpose;
ghost use Rattle.i2c_spec.specs.Tree.{root_of};
ghost use Rattle.i2c_spec.specs.Plain.{IsPlainBoard};
ghost use Rattle.i2c_spec.specs.Rules.{MeetsRules};
ghost use Rattle.i2c_spec.specs.Messages.{MessageView};
ghost use Rattle.i2c_spec.specs.History.{Asks};
ghost use Rattle.bus_spec.specs.Walk.{Job, Call, Take, Send, Shift, job_bus, job_purpose, line_mux, line_level};
ghost use Rattle.bus_spec.specs.Past.{now};
ghost use Rattle.bus_spec.specs.Stepwise.{IsBelow, IsNext, IsStepwise};
ghost use Rattle.bus_laws.specs.Reach.{AsksForMessages};
ghost use Rattle.bus_laws.specs.Next.{HasLineIn, WillReach, WillSwitch};

use i2c_spec::an_accepted_board_is_a_tree;

/// A caller's message that comes next is one of the transfer that the caller asks for. Its start will be heard by the
/// device that its bus and address grant, where that device acknowledges it, and by nothing else (UM10204 section
/// 3.1.10).
///
/// The answer of the start tells which of the two it is.
pub fn the_next_message_reaches_its_target()
    ensures { (b : BoardView) (callers : ℕ) (asks : Asks) (past : List Entry) → IsPlainBoard b → MeetsRules b → AsksForMessages asks → IsStepwise b callers asks past
        → (c bus : ℕ) (messages : List MessageView) (left : ℕ) → IsNext b asks (now b asks past) c (Send (Call bus messages) left)
        → WillReach b asks (now b asks past) c bus messages left }
{
    an_accepted_board_is_a_tree();
}

/// A control message that comes next, which selects, deselects or closes, has the address of its mux. Its start will be
/// heard by that mux, where it is there, and by nothing else (UM10204 section 3.1.10).
///
/// The answer of the start tells whether it is there.
pub fn the_next_control_message_reaches_its_mux()
    ensures { (b : BoardView) (callers : ℕ) (asks : Asks) (past : List Entry) → IsPlainBoard b → MeetsRules b → AsksForMessages asks → IsStepwise b callers asks past
        → (c : ℕ) (job : Job) (left m : ℕ) → job_purpose job ≡ purpose.Control m → IsNext b asks (now b asks past) c (Send job left)
        → WillSwitch b (now b asks past) job left m }
{
    an_accepted_board_is_a_tree();
}

/// A lock that a caller takes next has a lower rank than all that the caller has (Linux i2c-topology). So a caller that
/// is alone waits for no lock.
pub fn the_next_lock_has_a_lower_rank()
    ensures below { (b : BoardView) (callers : ℕ) (asks : Asks) (past : List Entry) → IsPlainBoard b → MeetsRules b → AsksForMessages asks → IsStepwise b callers asks past
        → (c : ℕ) (l : LockId) → IsNext b asks (now b asks past) c (Take l) → IsBelow b l ((now b asks past).held c) }
    ensures sole { (b : BoardView) (asks : Asks) (past : List Entry) → IsPlainBoard b → MeetsRules b → AsksForMessages asks → IsStepwise b 1 asks past
        → (l : LockId) → IsNext b asks (now b asks past) 0 (Take l) → (now b asks past).holder l ≡ None }
{
    an_accepted_board_is_a_tree();
}

/// A line step that comes next is of a gpio mux behind its root, to one of the levels of that mux.
///
/// A walk that comes to no line step says nothing of one. The rules of the board, a message in each transfer, and entries
/// that may come, are what the tree law is shown of.
pub fn the_next_line_is_of_a_gpio_mux()
    ensures { (b : BoardView) (callers : ℕ) (asks : Asks) (past : List Entry) → IsPlainBoard b → MeetsRules b → AsksForMessages asks → IsStepwise b callers asks past
        → (c : ℕ) (job : Job) → IsNext b asks (now b asks past) c (Shift job) → HasLineIn b (root_of b (job_bus job)) (line_mux job) (line_level job) }
{
    an_accepted_board_is_a_tree();
}
