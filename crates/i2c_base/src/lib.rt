//! The words of the bus that every other crate uses: addresses, messages and transfers, what a target
//! sees and answers, the parts of a board, and the entries of the journal.
//!
//! Its public contract: `Addr` holds exactly the addresses that a target may have, and a `Transfer`
//! only what fits its limits. Definitions: `specs/`, a file for each subject.
//! Standards: UM10204, sections 3.1.10 and 3.1.12; Linux's i2c-protocol and i2c-topology.
#![tactic(auto)]

mod addr;
mod alias;
mod board;
mod bytes;
mod caller;
mod entry;
mod errno;
mod event;
mod flags;
mod ids;
mod limits;
mod lists;
mod memory;
mod mux_facts;
mod port;
mod reply;
mod row;
mod rules;
mod transfer;
mod tree;

pub use addr::Addr;
pub use alias::{AliasPair, alias_of};
pub use board::{
    DeviceKind, DeviceSpec, Idle, LockMode, MemoryRun, MuxKind, MuxSpec, RootSpec, Size,
};
pub use bytes::{ByteList, ByteStore, Bytes};
pub use caller::Caller;
pub use entry::{End, Entry, Purpose};
pub use errno::Errno;
pub use event::{Answer, Event, Target};
pub use flags::MsgFlags;
pub use ids::{DevId, LockId, MuxId, Node, SegId};
pub use limits::{
    BLOCK_LIMIT, I2C_BLOCK_LIMIT, LARGEST_BLOCK, MOST_BYTES, MOST_CALLERS, MOST_CALLS,
    MOST_CHANNELS, MOST_DEPTH, MOST_DEVICES, MOST_LENGTH, MOST_LOOKS, MOST_MESSAGES, MOST_MUXES,
    MOST_ON_PATH, MOST_ROOTS, POLLS, limit_of, the_code_has_these_limits,
};
pub use lists::empty;
pub use memory::NoMemory;
pub use mux_facts::{ChannelCode, MuxFacts};
pub use port::{Phase, PortCall};
pub use reply::{Cut, Reply, ReplyHead};
pub use row::Row;
pub use rules::{Item, RuleBroken};
pub use transfer::{Msg, TooLong, Transfer, TransferKind};
pub use tree::{Grant, Way};
