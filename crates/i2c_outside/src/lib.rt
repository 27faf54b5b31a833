//! What the program is handed: a shelf of files, a sink for its output, a rig with a port for each root bus, and a gate.
//!
//! Its public contract: a call of the first three fails only where its object's own count of faults rose in that call,
//! and where an object tells what it holds, a call that succeeds does what its trait says.
//! Definitions: `specs/Shelves.antt`, `specs/Sinks.antt`, `ports/specs/Causes.antt`, and `World` of `i2c_spec`.
#![tactic(auto)]

mod failed;
mod file_shelf;
mod gate;
mod listed;
mod map_shelf;
mod rig;
mod shelf;
mod sink;
mod stdout_sink;
mod turn_gate;
mod vec_sink;

pub use failed::{ReadFail, RigFail};
pub use file_shelf::FileShelf;
pub use gate::{Gate, OpenGate, Point};
pub use listed::is_listed;
pub use map_shelf::MapShelf;
pub use rig::Rig;
pub use shelf::Shelf;
pub use sink::Sink;
pub use stdout_sink::StdoutSink;
pub use turn_gate::TurnGate;
pub use vec_sink::VecSink;
