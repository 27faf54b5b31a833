//! The controller of a root that drives the two wires, SDA and SCL, bit by bit: a port over any pair of lines.
//!
//! `Lines` are pulled and looked at. `ByteLines` are sent whole bytes, starts and stops, each of which comes to what its pulls and
//! looks come to; the bodies that the trait has make these one by one, so that lines of one's own, which watch each level, need
//! none.
//!
//! Its public contract: a `BitPort` over lines that tell their targets is a `Port` that does in each call what the world of
//! bytes says, with a clock that is held for more than 64 looks as Slow, and never fails; over any lines a call fails exactly
//! where SCL, once let go, looked low 65 times in a row, in a stop 255 times, and lets both lines go then. In the acknowledge
//! clock of a start the answer is Slow instead. Over lines that tell, SCL rises nine times in a byte with its acknowledge, once
//! before a repeated start and once in a stop, and SDA changes while SCL is high once in a start, once in a stop, and never else;
//! but this is not said of a start that is Slow, nor of the stop after it. Definitions: `specs/Wiring.antt` is what is seen of
//! every pair of lines; `specs/Counting.antt` how often they change in a start and in a stop; `specs/Stands.antt` how told lines
//! stand between two calls, the world that they are, and what a call on them is in it; `specs/CallLogs.antt` the calls that were
//! made on a port, which it doesn't keep; `specs/PortViews.antt` what is seen of the port. What a controller does, pull by pull and look by look, is `Calls` of `wire_spec`, by UM10204, "I2C-bus specification and
//! user manual", sections 3.1.3 to 3.1.6, 3.1.9 and 3.1.10.
#![tactic(auto)]

mod bit_port;
mod bytes;
mod call_log;
mod clocks;
mod lines;
mod messages;
mod phases;

pub use bit_port::{BitPort, ClosedPort};
pub use bytes::{get_byte, put_byte, read_byte, write_byte};
pub use clocks::{LOOKS, clock_bit, clock_byte, release};
pub use lines::{ByteLines, Lines, SclTimeout};
pub use messages::{STOP_LOOKS, address, set_line, start_message, stop_message};
