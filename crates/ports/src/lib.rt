//! The controller of one root bus as a trait, and why a call of it fails.
//!
//! Its public contract: a call of a port fails only where its own count of faults rose in that call, and where a port
//! tells its world, each call acts on it as `after` says (UM10204 section 3.1).
//! Definitions: `specs/Causes.antt`, `specs/LineCalls.antt`, and `World` of `i2c_spec`.
#![tactic(auto)]

mod failed;
mod port;

pub use failed::Failed;
pub use i2c_base::{Phase, PortCall};
pub use port::Port;
