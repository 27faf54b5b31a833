//! The levels of the two wires of a root over a run, step by step.
//!
//! `Recorded` are the lines of a root, which keep the levels of SCL and SDA behind each step of their controller, a byte a step; by its
//! type these are those of its lines, and they show all that was seen on them. Definitions: `specs/Levels.antt` (the levels, and what
//! they show), `specs/Recordings.antt` (lines that are recorded), by UM10204, "I2C-bus specification and user manual", sections 3.1.1,
//! 3.1.3 and 3.1.4.
#![tactic(auto)]

mod dump;
mod laws;
mod record;
mod recorded;
mod wave;

pub use dump::dump_text;
pub use laws::{
    a_register_read_is_read_back, a_start_that_was_too_slow_is_read_otherwise,
    the_levels_tell_the_calls,
};
pub use recorded::Recorded;
pub use wave::wave_text;
