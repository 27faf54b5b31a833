//! A rig with its ports, and a caller, of one's own, as short as each can be: who brings one begins with a copy of it.
//! Nobody depends on this crate.
//!
//! On the ports of the rig nobody answers; they tell no world, as a real bus tells none. The caller asks for one read, and
//! keeps what came of it. That it is fair, as the core wants it, is a law (`one_reads_are_fair`).
#![tactic(auto)]

mod one_read;
mod quiet_port;
mod quiet_rig;

pub use one_read::{OneRead, OneReadData, one_reads_are_fair};
pub use quiet_port::QuietPort;
pub use quiet_rig::QuietRig;
