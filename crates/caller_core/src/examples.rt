//! Worked examples, computed by the checker itself: each function has an empty body.

ghost use Rattle.std.specs.Prelude.{◌≡◌, ℕ, true, false, Some, None, List, [], ◌∷◌, codes};
ghost use Rattle.i2c_base.specs.Board.{BoardView};
ghost use Rattle.i2c_base.specs.declared.errno.Errno.TheVariants.{Enxio};
ghost use Rattle.i2c_base.specs.declared.reply.Reply.TheVariants.{Done, Read, Err};
ghost use Rattle.i2c_base.specs.Transfer.{plain_read};
ghost use Rattle.i2c_base.specs.declared.transfer.TransferKind.TheVariants.{Plain};
ghost use Rattle.dev_handle.specs.Examples.{one_bus};
ghost use Rattle.dev_handle.specs.Handles.{fresh};
ghost use Rattle.tools.specs.Dialogues.{transfers_of};
ghost use Rattle.tools.specs.declared.command.Cmd.TheVariants.{Handle, Tool};
ghost use Rattle.tools.specs.declared.command.handle.HandleCmd.TheVariants.{Close, Open, Rdwr, Read as ReadBy};
ghost use Rattle.tools.specs.declared.lists.DescOp.TheVariants.{Read as Reads};
ghost use Rattle.tools.specs.declared.command.ToolCmd.TheVariants.{Get, List as Listing};
ghost use Rattle.tools.specs.declared.command.get.GetMode.TheVariants.{SendReceive};
ghost use Rattle.caller_core.specs.Runs.{command_dialogue, handles_behind, command_run};
ghost use Rattle.caller_core.specs.Turns.{quiet, progress};
ghost use Rattle.caller_core.specs.View.{CommandView};

/// A command of two transfers takes two replies, and then it is the next one's turn; so it is after one that is an error.
pub fn replies_go_to_the_commands_in_turn()
    ensures both { (b : BoardView) (echo : List ℕ)
        → let next : CommandView = record { echo = echo; run = command_run b [] (Tool (Get (record { force = false; bus = 0; addr = 0x20; reg = None; mode = None; pec = false; len = None }))) }
        in (progress (record { echo = echo; run = command_run b [] (Tool (Get (record { force = false; bus = 0; addr = 0x20; reg = Some 5; mode = Some SendReceive; pec = false; len = None }))) } ∷ next ∷ []) (Done ∷ Read (0x7e ∷ []) ∷ [])).left
        ≡ next ∷ [] }
    ensures error { (b : BoardView) (echo : List ℕ)
        → let next : CommandView = record { echo = echo; run = command_run b [] (Tool (Get (record { force = false; bus = 0; addr = 0x20; reg = None; mode = None; pec = false; len = None }))) }
        in (progress (record { echo = echo; run = command_run b [] (Tool (Get (record { force = false; bus = 0; addr = 0x20; reg = Some 5; mode = Some SendReceive; pec = false; len = None }))) } ∷ next ∷ []) (Err Enxio ∷ [])).left
        ≡ next ∷ [] }
    ensures one { (b : BoardView) (echo : List ℕ) (next : CommandView)
        → (progress (record { echo = echo; run = command_run b [] (Tool (Get (record { force = false; bus = 0; addr = 0x20; reg = Some 5; mode = Some SendReceive; pec = false; len = None }))) } ∷ next ∷ []) (Done ∷ [])).own
        ≡ Done ∷ [] }
{}

/// A command that asks for nothing is over at its turn: before the first reply, and after the reply that ends the one before.
pub fn a_command_that_asks_for_nothing_is_over_at_its_turn()
    ensures first { (b : BoardView) (echo : List ℕ)
        → let list : CommandView = record { echo = echo; run = command_run b [] (Tool Listing) }
        in (progress (list ∷ list ∷ []) []).over ≡ quiet list ∷ quiet list ∷ [] }
    ensures behind { (b : BoardView) (echo : List ℕ)
        → let list : CommandView = record { echo = echo; run = command_run b [] (Tool Listing) }
        in let get : CommandView = record { echo = echo; run = command_run b [] (Tool (Get (record { force = false; bus = 0; addr = 0x20; reg = None; mode = None; pec = false; len = None }))) }
        in (progress (get ∷ list ∷ get ∷ []) (Err Enxio ∷ [])).over ≡ record { command = get; replies = Err Enxio ∷ [] } ∷ quiet list ∷ [] }
{}

/// A number that isn't open is told before all else, and that no address was set before any message. What the address was set by
/// goes with each message.
pub fn a_handle_is_asked_before_its_messages_are()
    ensures closed { (b : BoardView) → (command_dialogue (command_run b (None ∷ []) (Handle (ReadBy 0 1)))).lines [] ≡ codes "EBADF" ∷ [] }
    ensures bare { (b : BoardView) → (command_dialogue (command_run b (Some (fresh 0) ∷ []) (Handle (ReadBy 0 1)))).lines [] ≡ codes "EINVAL" ∷ [] }
    ensures forced { (b : BoardView)
        → transfers_of (command_dialogue (command_run b (Some (record { bus = 3; addr = Some 0x20; force = true; pec = true }) ∷ []) (Handle (ReadBy 0 2))))
        ≡ record { bus = 3; kind = Plain; force = true; msgs = plain_read 0x20 2 ∷ []; out = [] } ∷ [] }
{}

/// The messages of `rdwr` go to the addresses that they name, also where none was set, with the force of the handle.
pub fn rdwr_has_the_force_of_its_handle()
    ensures forced { (b : BoardView)
        → transfers_of (command_dialogue (command_run b (Some (record { bus = 3; addr = None; force = true; pec = false }) ∷ [])
        (Handle (Rdwr 0 (record { addr = 0x50; op = Reads 1 } ∷ [])))))
        ≡ record { bus = 3; kind = Plain; force = true; msgs = plain_read 0x50 1 ∷ []; out = [] } ∷ [] }
    ensures closed { (b : BoardView) → (command_dialogue (command_run b [] (Handle (Rdwr 0 (record { addr = 0x50; op = Reads 1 } ∷ []))))).lines []
        ≡ codes "EBADF" ∷ [] }
{}

/// What is closed leaves its number behind, and the next handle has another.
pub fn a_closed_handle_leaves_its_number()
    ensures left { (b : BoardView) → handles_behind b (Some (fresh 0) ∷ []) (Handle (Close 0)) ≡ None ∷ [] }
    ensures next { (command_dialogue (command_run one_bus (None ∷ []) (Handle (Open 0)))).lines [] ≡ codes "handle 1" ∷ [] }
    ensures missing { (command_dialogue (command_run one_bus (None ∷ []) (Handle (Open 1)))).lines [] ≡ codes "ENODEV" ∷ [] }
{}
