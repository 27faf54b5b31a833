//! A target on the two wires of a root, bit by bit, driven by the edges of SCL and SDA.
//!
//! Its public contract: a `BitTarget` over any `Wired` target does at each edge, and at each low look at SCL, what the
//! definition says of its table, and it pulls SDA and holds SCL exactly where that says so. So a mux chip, and a device of each
//! kind, is on the wires by its table alone. Definitions: `Wires` of `wire_spec`, by UM10204, "I2C-bus specification and user
//! manual", sections 3.1.3 to 3.1.6, 3.1.9 and 3.1.10; `specs/Targets.antt` has the bits of a byte that are missing.
#![tactic(auto)]

mod edges;
mod target;
mod wired;

pub use edges::entered;
pub use target::BitTarget;
pub use wired::{Wired, wired_targets_are_fair};
