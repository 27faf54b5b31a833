//! A core over a board, its ports and its callers, as it is opened.
ghost use Rattle.std.specs.Prelude.{◌≡◌, ◌<◌, ℕ, length, None, Some, replicate, slice_get, IfOk};
ghost use Rattle.std.specs.List.{All};
ghost use Rattle.i2c_base.specs.Limits.{MOST_CALLERS};
ghost use Rattle.core_laws.specs.Opens.{AreDepths};
ghost use Rattle.core_laws.specs.Table.{AreDistinct};
ghost use Rattle.seg_locks.specs.Locks.{IsDepth};
ghost use Rattle.bus_core.specs.Kept.{IsCore, roots_of};
ghost use Rattle.bus_core.specs.Opens.{numbers_in, MayOpen, IsOpenedWith, IsFreshSeat, AreSeated};
ghost use Rattle.bus_core.specs.Places.{HasRoom};

use crate::parts::CoreInside;
use crate::seat::Seat;
use bus_journal::Journal;
use i2c_base::{ByteList, Caller, MOST_CALLERS, NoMemory, SegId};
use i2c_board::{Accepted, CachedBoard};
use mux_plan::MuxUpdates;
use ports::Port;
use seg_locks::Locks;
use std::alloc::Global;
use std::snapshot::Snapshot;

// How many muxes stand over each bus of a board.
fn depths(alloc: Global, board: &Accepted) -> Result<Vec<u8>, NoMemory>
    ensures are { IfOk result (λ d. AreDepths board.now d.items) }
    ensures few { IfOk result (λ d. All IsDepth d.items) }
{
    let layout = board.board().layout();
    let mut depths = Vec::with_capacity(alloc, usize::from(board.board().buses()))?;
    for bus in 0..board.board().buses() {
        depths.push_reserved(layout.hops(SegId(bus)).len() as u8);
    }
    Ok(depths)
}

// A caller that has room for its replies takes its seat, and its first transfer is loaded.
fn seat_of<P: Port, C: Caller>(
    board: &mut CachedBoard<'_>,
    ports: &[(SegId, P)],
    number: u8,
    caller: C,
) -> Seat<C>
    requires room { HasRoom C.Caller caller }
    ensures seat { IsFreshSeat C.Caller board.old (roots_of ports.now) number caller result }
    ensures board { board.new ≡ board.old }
{
    let mut seat = Seat::resting(board.board(), number, caller);
    seat.load(board, ports);
    seat
}

// No number has a place yet.
fn no_places(alloc: Global) -> Result<Vec<Option<u8>>, NoMemory>
    ensures { IfOk result (λ places. places.items ≡ replicate MOST_CALLERS None) }
{
    let places = vec![in alloc; None; usize::from(MOST_CALLERS)]?;
    Ok(places)
}

// The callers take their seats in their order, and each number's place among them is noted.
fn seats_of<P: Port, C: Caller>(
    alloc: Global,
    board: &mut CachedBoard<'_>,
    ports: &[(SegId, P)],
    callers: Vec<(u8, C)>,
) -> Result<(Vec<Seat<C>>, Vec<Option<u8>>), NoMemory>
    requires distinct { AreDistinct (numbers_in callers.items) }
    requires below { (i : ℕ) (x : ℕ × C) → slice_get callers.items i ≡ Some x → x.0 < MOST_CALLERS }
    ensures seated { IfOk result (λ r. AreSeated C.Caller board.old (roots_of ports.now) callers.items (length callers.items) r.0.items r.1.items) }
    ensures board { board.new ≡ board.old }
{
    let mut seats = Vec::with_capacity(alloc, callers.len())?;
    let mut places = no_places(alloc)?;
    for (number, caller) in callers {
        let mut caller = caller;
        caller.reserve()?;
        places[usize::from(number)] = Some(seats.len() as u8);
        seats.push_reserved(seat_of(board, ports, number, caller));
    }
    Ok((seats, places))
}

/// Opens a core: a port for each root that the callers' transfers name, and callers with distinct numbers that have
/// taken no reply, over a board that all of them were opened with. `limit` covers all steps that the callers may ask
/// for; the journal has room for so many entries, and for twice as many bytes.
///
/// Being out of memory drops the ports and the callers. From then on nothing takes memory.
pub fn open<'b, P: Port, C: Caller>(
    alloc: Global,
    board: &'b Accepted,
    ports: Vec<(SegId, P)>,
    callers: Vec<(u8, C)>,
    limit: u32,
) -> Result<CoreInside<'b, P, C>, NoMemory>
    requires { MayOpen P.Port C.Caller board.now ports.items callers.items limit }
    ensures core { IfOk result (IsCore P.Port C.Caller) }
    ensures opened { IfOk result (IsOpenedWith P.Port C.Caller board.now ports.items callers.items limit) }
{
    let start = Snapshot::of(&ports);
    let journal = Journal::with_room(alloc, limit as usize, 2 * limit)?;
    let depths = depths(alloc, board)?;
    let roots = board.board().roots().len() as u8;
    let muxes = board.board().muxes().len() as u8;
    let locks = Locks::open(alloc, depths.as_slice(), roots, muxes)?;
    let mut board = CachedBoard::open(alloc, board)?;
    let (seats, places) = seats_of(alloc, &mut board, ports.as_slice(), callers)?;
    Ok(CoreInside {
        board,
        ports,
        seats,
        places,
        locks,
        journal,
        bytes: ByteList::new(),
        updates: MuxUpdates::new(),
        start,
    })
}
