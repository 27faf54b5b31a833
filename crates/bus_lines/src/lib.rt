//! The two lines of a root with its targets on them, bit by bit.
//!
//! Its public contract: `BusLines` are `Lines` that tell their targets: each pull and each look is what the definition of the
//! two wires says of the mux chips and the devices of a board, and who is joined after a stop, or after a line is set, is read
//! from the board's tree and the chips. As a board is opened the lines are free, with the world of the root. They tell what they
//! have shown, and count how often SCL rose, and the starts and stops. A `WireTarget` is a mux chip or a device, with one table. Definitions: `Bus` and `Sites`
//! of `wire_spec`, by UM10204, "I2C-bus specification and user manual", sections 3.1.1, 3.1.4 and 3.1.9; `specs/Joins.antt` is
//! who is joined, by the places of the targets; `specs/LinesViews.antt` and `specs/Opens.antt` what is seen of the lines, and
//! how they are opened; `specs/Shown.antt` what they have shown, and the two counts of it.
//!
//! They are `ByteLines` too: a start, a stop, and a byte with its acknowledge clock are one step, which comes to what their pulls
//! and looks come to by the laws of `wire_spec`. An address byte at which a target would hold SCL for too long goes bit by bit.
//!
//! An edge, or a byte, touches only those that were called since the last start, whose numbers are kept, and a look at a high clock
//! touches nobody. While an address byte comes in, one register takes it in for all that is joined; then those at the address are
//! called, by an index, and those that a message has reached since their last stop see another's start (`specs/Units.antt`). A
//! stop touches these alone. Who is joined is kept of these alone too: of others it is read from the board's tree and the chips
//! when an address names them (`specs/Known.antt`). Nothing is kept of another root's devices (`specs/Away.antt`).
#![tactic(auto)]

mod apart;
mod bus_lines;
mod counter;
mod edges;
mod index;
mod joining;
mod message;
mod node;
mod numbers;
mod opening;
mod place;
mod register;
mod root_targets;
mod sign_log;
mod wire_state;

pub use apart::Apart;
pub use bus_lines::BusLines;
pub use node::WireTarget;
pub use wire_state::WireState;
