//! The flat world: the devices of a board alone, without muxes, locks or other callers. A transfer reaches the devices
//! that its addresses lead to, whatever the muxes over them were left at, and happens whole before the next one.
//!
//! Its public contract: `Flat::apply` gives the reply of any transfer and leaves the devices as `flat` of `i2c_spec` says,
//! cut off wherever it is told, and takes no memory. Definitions: `i2c_spec/specs/Flat.antt`, and
//! `i2c_spec/specs/Conversation.antt` for a message (UM10204 section 3.1.10, SMBus 3.2 section 6.5.7); `specs/` here has
//! the same conversation as it is sent, with its calls counted and each named device listed once.
#![tactic(auto)]

mod devices;
mod flat;
mod message;
mod site;
mod transfer;

pub use flat::Flat;
