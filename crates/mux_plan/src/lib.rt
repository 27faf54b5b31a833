//! The walk of a transfer: which lock, message or line a caller takes next, on a bus behind any muxes.
//!
//! Its public contract: a `Walk` stands for a tree of `bus_spec`'s grammar, `next` is the first step of that tree
//! after its looks, `advance` leaves what follows the step's outcome, and `updates` tells which marks and kept channels
//! change after it.
//! Definitions: `specs/Plans.antt`, `specs/Marks.antt`, and the grammar itself in `bus_spec`. Standard: Linux i2c-topology.
#![tactic(auto)]

mod laws;
mod marks;
mod parts;
mod route;
mod seen;
mod stack;
mod task;
mod walk;
mod work;

pub use laws::changed_marks_are_told;
pub use marks::{MuxUpdate, MuxUpdates};
pub(crate) use route::Route;
pub use seen::Seen;
pub use task::{Action, NextMsg, Outcome};
pub(crate) use task::{Task, Work, WorkResult};
pub use walk::Walk;
