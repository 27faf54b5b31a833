//! The physics of a board: the ports of its roots, with mux chips and devices on the wires, and the rig that they
//! come from.
//!
//! Its public contract: `SimPort` meets `Port` and tells, so each call acts on the world of its root as `World` of
//! `i2c_spec` says, and `SimRig` meets `Rig`. Neither ever fails by a fault. `FailPort` and `FailRig` are the same with
//! calls and plugs that fail, exactly those that are listed. `HoldPort` and `HoldRig` meet what `SimPort` and `SimRig` do,
//! and the ports of two roots wait for each other. `BitRig` meets `Rig` too, and its ports drive two wires, bit by bit: they
//! never fail, they show what their calls show (`specs/Shows.antt`), and it tells how often SCL rose. `SimWorld` is that world alone, whose calls may come at any time.
//! Definitions: `World` of `i2c_spec` (UM10204 section 3.1), `specs/FailPorts.antt`.
#![tactic(auto)]

mod bit_rig;
mod device_slot;
mod fail_port;
mod fail_rig;
mod hold_port;
mod hold_rig;
mod numbers;
mod parted_port;
mod phase;
mod place;
mod reach;
mod root_lines;
mod sim_port;
mod sim_rig;
mod sim_world;
mod sites;
mod unplug;
mod wire_port;
mod wired_and;
mod words;

pub use bit_rig::BitRig;
pub use bus_lines::BusLines;
pub use fail_port::FailPort;
pub use fail_rig::FailRig;
pub use hold_port::HoldPort;
pub use hold_rig::HoldRig;
pub use root_lines::RootLines;
pub use sim_port::SimPort;
pub use sim_rig::SimRig;
pub use sim_world::SimWorld;
pub use wire_port::WirePort;
