//! A script as a caller of the bus: what it asks for, command by command, and what it prints of the replies.
//!
//! Its public contract: `Script` is opened exactly where each line of its text is in the grammar, asks for the transfers
//! of its commands one after the other, and prints them with their answers, those that ask for nothing at their turn; it
//! tells what they cost and which roots they name. Its handles are followed while it is read, so that none is opened while it runs. Once it
//! has reserved the room for its replies and answers, nothing takes memory. A script is a fair caller (`scripts_are_fair`), and no text that it
//! prints has a line `journal` (`no_section_has_a_journal_line`). Definitions:
//! `specs/Turns.antt` (whose turn it is), `specs/Scripts.antt` (a script), `specs/Runs.antt` (a command as it runs), `specs/HandleRuns.antt` (the
//! line of a handle as it runs), `specs/Callers.antt` (a script as
//! a caller), `specs/Roots.antt` (the roots that it names), `specs/View.antt` (what contracts see); what each command asks
//! for and prints is in `tools` and
//! `i2c_drivers`.
#![tactic(auto)]

mod caller;
mod commands;
mod examples;
mod handle;
mod reach;
mod run;
mod script;
mod totals;

pub use caller::{Script, ScriptData, no_section_has_a_journal_line, scripts_are_fair};
pub use examples::{
    a_closed_handle_leaves_its_number, a_command_that_asks_for_nothing_is_over_at_its_turn,
    a_handle_is_asked_before_its_messages_are, rdwr_has_the_force_of_its_handle,
    replies_go_to_the_commands_in_turn,
};
pub use reach::Reach;
pub use run::CommandRun;
pub use script::{ScriptFault, read_behind};
pub use totals::{MOST_COST, cost_of_command};
