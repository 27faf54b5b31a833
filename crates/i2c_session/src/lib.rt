//! A session over a board: lines of a script, each answered before the next one is read.
//!
//! Its public contract: `Session::answer` reads a line as a script of the lines before it would, refuses it or runs its command, and
//! gives what a replay prints of it, with the number of commands so far. Its transfers happen in the flat world, of which a replay's
//! replies are too. `LineInput` takes the lines off an input, one at a time. Definitions: `specs/Sessions.antt` (what a line is answered),
//! `specs/Inputs.antt` (the lines of an input).
#![tactic(auto)]

mod examples;
mod input;
mod session;
mod talk;

pub use examples::{
    a_thousand_commands_are_the_most, an_answer_ends_with_its_number, an_input_is_cut_into_lines,
};
pub use input::LineInput;
pub use session::Session;
