//! The core of the bus: callers step through their transfers, one step of one caller at a time, over the ports of a
//! board's roots, with its lock words and the journal of all that they do.
//!
//! Its contract is that of `BusCore`: after every step, whatever calls on the ports fail, the journal is stepwise by
//! `bus_spec`'s rules, and the lock words, the worlds and logs of ports that tell, and the callers' replies are as that
//! journal tells; `ready` is the least caller that isn't blocked, `finish` and `follow` end with every script used up, and
//! no step takes memory. Definitions: `specs/State.antt` (what a contract sees of a core), `specs/Answers.antt` (what a
//! step, and the lack of one, say), `specs/Kept.antt` (what is kept), `specs/Places.antt` (the parts as plain lists),
//! `specs/Opening.antt` (what never changes), and the records of `core_laws`. Standard: Linux i2c-topology.
#![tactic(auto)]

mod advance;
mod bus;
mod marks;
mod opening;
mod parts;
mod readiness;
mod replies;
mod running;
mod seat;
mod steps;

pub use bus::{BusCore, ClosedCore};
pub use replies::{Decided, Replies};
pub use seat::Seat;
pub use steps::StepAnswer;
