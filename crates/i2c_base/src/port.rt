//! The calls on a port, and what its wires have come to.
use crate::{Addr, MuxId};

/// A call on a port, as its log keeps it.
#[derive(Clone, Copy)]
pub enum PortCall {
    /// A start, or a repeated start: the address, and whether the message reads.
    Start(Addr, bool),
    Put(u8),
    /// A byte is read, and acknowledged or not.
    Get(bool),
    Stop,
    /// The line of a gpio mux is set to a level.
    Line(MuxId, u8),
    /// In the place of a call that failed.
    Fault,
}

/// What a port has come to since its last stop: a name for each way in which its wires can stand.
#[derive(Clone, Copy)]
pub enum Phase {
    /// No message is in progress.
    Idle,
    /// A write was acknowledged, and so was each byte since.
    Writing,
    /// A byte of a write was not acknowledged.
    PutRefused,
    /// A read was acknowledged, and so was each byte that came.
    Reading,
    /// A byte was read and not acknowledged: the last one of its message.
    LastRead,
    /// Nobody acknowledged the address.
    Unanswered,
    /// A target held the clock too long at its address.
    Slow,
}
