//! A call of `i2cbus` with its real surroundings, over any rig.
//!
//! Its public contract: the words of the command line, the real files and the standard output are handed to `top`, and the
//! program ends with the number of its status. Definitions: `specs/Starts.antt`.
#![tactic(auto)]

mod command;
mod words;

pub use command::{Called, call};
pub use words::{Words, words_of};
