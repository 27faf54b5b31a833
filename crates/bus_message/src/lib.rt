//! One message, and one line step, over the port of a root.
//!
//! `send_message` is for a port alone; `send_next` sends the message of a caller's transfer that comes next, or a control
//! message, and `shift_line` sets a line. The caller's transfer is read, and nothing is copied but its bytes, into a list
//! that the caller of these lends.
//!
//! Its contract: over a port that tells, the calls, bytes and end of a message are those of its conversation with the
//! world of the root, counted reads included, whichever call fails; who is told to have heard it has. Over any port:
//! another message may start after it, the port is idle unless the message went through and isn't the last of its
//! transfer, and a read that went through gave all that it asks for. Definitions: `specs/Talks.antt` (a conversation, and
//! a message in progress), `specs/Ports.antt` (ports as plain data, and what a message and a line step leave of one),
//! `specs/Cursors.antt` (a transfer partway), `specs/Sends.antt` (the next message of a walk). Standard: UM10204 section
//! 3.1, SMBus 3.2 section 6.5.7.
#![tactic(auto)]

mod cursor;
mod line;
mod message;
mod send;

pub use cursor::TransferCursor;
pub use line::shift_line;
pub use message::{Message, MsgResult, send_message};
pub use send::send_next;
