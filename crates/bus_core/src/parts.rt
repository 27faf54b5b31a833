//! The parts of a core, which each of its steps works on.
use crate::seat::Seat;
use bus_journal::Journal;
use i2c_base::{ByteList, SegId};
use i2c_board::CachedBoard;
use mux_plan::MuxUpdates;
use seg_locks::Locks;
use std::snapshot::Snapshot;

/// The parts of the core.
#[derive(Drop)]
pub struct CoreInside<'b, P, C> {
    pub board: CachedBoard<'b>,
    /// The ports, each with its root.
    pub ports: Vec<(SegId, P)>,
    /// The callers, each with its number and where it stands.
    pub seats: Vec<Seat<C>>,
    /// The place of the caller of each number among the seats.
    pub places: Vec<Option<u8>>,
    pub locks: Locks,
    pub journal: Journal,
    /// The bytes of the message that was sent last, and the marks that it changed.
    pub bytes: ByteList,
    pub updates: MuxUpdates,
    /// The ports as they were when the core was opened. It takes no room.
    pub start: Snapshot<Vec<(SegId, P)>>,
}
