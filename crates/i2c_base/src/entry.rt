//! The entries of the journal.
use crate::{Addr, ByteList, Cut, LockId, MuxId, Node, Reply, SegId};

/// Why a message is sent.
#[derive(Clone, Copy)]
pub enum Purpose {
    /// It belongs to the caller's transfer.
    Call,
    /// It switches this mux.
    Control(MuxId),
}

/// How a message ended.
#[derive(Clone, Copy, PartialEq, Eq)]
pub enum End {
    Ok,
    /// Nobody acknowledged the address.
    Nack,
    /// A target held the clock too long at its address.
    Slow,
    /// A byte of a write was not acknowledged.
    Refused,
    /// A block count was 0 or above the limit.
    Proto,
    /// The port failed after so many calls of the message.
    Cut(u16),
}

/// One event of the journal, by one caller.
#[derive(Drop)]
pub enum Entry {
    Take {
        caller: u8,
        lock: LockId,
    },
    Free {
        caller: u8,
        lock: LockId,
    },
    Message {
        caller: u8,
        bus: SegId,
        purpose: Purpose,
        /// Which message of its transfer it is, from 1, and how many those are.
        part: u8,
        parts: u8,
        addr: Addr,
        reading: bool,
        /// Of a write the bytes that were acknowledged, of a read all that came.
        bytes: ByteList,
        /// Who acknowledged the address.
        heard: Option<Node>,
        end: End,
    },
    /// The line of a gpio mux was set to a level.
    Line {
        caller: u8,
        mux: MuxId,
        level: u8,
        failed: bool,
    },
    /// The reply of the caller's transfer is decided.
    Settle {
        caller: u8,
        reply: Reply,
        cut: Cut,
    },
}
