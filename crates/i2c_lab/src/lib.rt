//! The laboratory: runs of `i2c_top` over ports that fail where they are told to, or whose wires are kept, and sessions.
//!
//! `lab` reads the words of a command line, and does what they ask for in one of the forms, under the rules of words, statuses and
//! texts that `top` keeps. `faults_call` is a replay in which the calls fail that a list names; `waves_call` writes the levels
//! that the wires of a root had in a replay; `session_call` answers the lines of an input, each before it takes the next. Definitions:
//! `specs/CallLists.antt` (the list), `specs/Faults.antt` (the form, and where calls have failed), `specs/Waves.antt` (the root, the form, and
//! what is written), `specs/SessionForm.antt` (how a session ends, and what it says), `specs/Lab.antt` (the words and the endings).
#![tactic(auto)]

mod call_list;
mod faults;
mod number;
mod program;
mod session;
mod wave_root;
mod waves;

pub use faults::faults_call;
pub use program::lab;
pub use session::session_call;
pub use waves::waves_call;
