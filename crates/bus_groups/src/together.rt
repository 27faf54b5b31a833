//! Callers and ports parted into groups, run, and put together again.
ghost use Rattle.std.specs.Prelude.{◌≡◌, ◌<◌, ◌≤◌, [], length, map, All, IfOk, IsSome, vec_capacity};
ghost use Rattle.std.specs.List.{AllZip};
ghost use Rattle.bus_groups.specs.Homes.{homes_of, caller_home};
ghost use Rattle.bus_groups.specs.Slots.{HasRun};
ghost use Rattle.bus_groups.specs.Rounds.{AreBegun, AreEnded, HaveRun, MayRun, one_of};

use crate::homes::{Homes, groups};
use crate::rounds::{Lists, apart, left, opened, shares};
use crate::shares::{parted, rejoined};
use crate::{Slot, run_slots};
use bus_core::{ClosedCore, Seat};
use bus_journal::Journal;
use i2c_base::{Caller, NoMemory, SegId};
use i2c_board::Accepted;
use i2c_outside::Gate;
use i2c_spec::an_accepted_board_is_a_tree;
use ports::Port;
use std::alloc::Global;
use std::sync::Wait;
use std::thread::Threads;

// The homes, and a core for each, with its ports and its callers.
#[derive(Drop)]
struct Opened<'b, P: Port, C: Caller> {
    homes: Homes,
    slots: Vec<Slot<'b, P, C>>,
}

// Opens a core for each home.
fn begin<'b, P: Port, C: Caller>(
    alloc: Global,
    board: &'b Accepted,
    masks: &[u8],
    costs: &[u32],
    ports: Vec<(SegId, P)>,
    callers: Vec<(u8, C)>,
) -> Result<Opened<'b, P, C>, NoMemory>
    requires { MayRun P.Port C.Caller board.now masks.now costs.now ports.items callers.items }
    ensures roots { IfOk result (λ x. x.homes.roots.items ≡ homes_of (length board.now.roots) masks.now) }
    ensures callers { IfOk result (λ x. x.homes.callers.items ≡ map (caller_home (homes_of (length board.now.roots) masks.now)) masks.now) }
    ensures begun { IfOk result (λ x. AreBegun P.Port C.Caller board.now x.homes.roots.items x.homes.callers.items (length board.now.roots) ports.items callers.items (map (λ s. s.core) x.slots.items)) }
{
    let many = board.board().roots().len();
    let homes = groups(many as u8, masks);
    let ports = parted(alloc, homes.roots.as_slice(), many, ports)?;
    let callers = parted(alloc, homes.callers.as_slice(), many, callers)?;
    let shares = shares(alloc, ports, callers, homes.callers.as_slice(), costs)?;
    let slots = opened(alloc, board, shares)?;
    Ok(Opened { homes, slots })
}

/// What is left of cores that ran: the ports and the callers in their old order, and the journal of each core.
#[derive(Drop)]
pub struct Ran<P, C> {
    pub ports: Vec<(SegId, P)>,
    pub seats: Vec<Seat<C>>,
    pub journals: Vec<Journal>,
}

// Room for what is left of so many cores with so many callers.
#[derive(Drop)]
struct Room<P, C> {
    parts: Vec<ClosedCore<P, C>>,
    lists: Lists<P, C>,
    ports: Vec<(SegId, P)>,
    seats: Vec<Seat<C>>,
}

fn rooms<P: Drop, C: Drop>(
    alloc: Global,
    many: usize,
    callers: usize,
) -> Result<Room<P, C>, NoMemory>
    ensures parts { IfOk result (λ x. (x.parts.items ≡ []) × (many ≤ vec_capacity x.parts)) }
    ensures lists { IfOk result (λ x. (x.lists.ports.items ≡ []) × (x.lists.seats.items ≡ []) × (x.lists.journals.items ≡ [])) }
    ensures wide { IfOk result (λ x. (many ≤ vec_capacity x.lists.ports) × (many ≤ vec_capacity x.lists.seats) × (many ≤ vec_capacity x.lists.journals)) }
    ensures ports { IfOk result (λ x. (x.ports.items ≡ []) × (many ≤ vec_capacity x.ports)) }
    ensures seats { IfOk result (λ x. (x.seats.items ≡ []) × (callers ≤ vec_capacity x.seats)) }
{
    Ok(Room {
        parts: Vec::with_capacity(alloc, many)?,
        lists: Lists {
            ports: Vec::with_capacity(alloc, many)?,
            seats: Vec::with_capacity(alloc, many)?,
            journals: Vec::with_capacity(alloc, many)?,
        },
        ports: Vec::with_capacity(alloc, many)?,
        seats: Vec::with_capacity(alloc, callers)?,
    })
}

// What is left of the cores of all slots, put together in the old order.
fn ended<'b, P: Port, C: Caller>(
    homes: &Homes,
    slots: Vec<Slot<'b, P, C>>,
    rooms: Room<P, C>,
) -> Ran<P, C>
    requires full { All (λ slot. IsSome slot.core) slots.items }
    requires roots { length homes.now.roots.items ≡ length slots.items }
    requires below { All (λ h. h < length slots.items) homes.now.roots.items }
    requires callers { All (λ h. h < length slots.items) homes.now.callers.items }
    requires parts { (rooms.parts.items ≡ []) × (length slots.items ≤ vec_capacity rooms.parts) }
    requires lists { (rooms.lists.ports.items ≡ []) × (rooms.lists.seats.items ≡ []) × (rooms.lists.journals.items ≡ []) }
    requires wide { (length slots.items ≤ vec_capacity rooms.lists.ports) × (length slots.items ≤ vec_capacity rooms.lists.seats) × (length slots.items ≤ vec_capacity rooms.lists.journals) }
    requires ports { (rooms.ports.items ≡ []) × (length slots.items ≤ vec_capacity rooms.ports) }
    requires seats { (rooms.seats.items ≡ []) × (length homes.now.callers.items ≤ vec_capacity rooms.seats) }
    ensures { AreEnded P.Port C.Caller homes.now.roots.items homes.now.callers.items (map (λ s. s.core) slots.entry.items) (one_of result) }
{
    let lists = apart(left(slots, rooms.parts), rooms.lists);
    Ran {
        ports: rejoined(homes.roots.as_slice(), lists.ports, rooms.ports),
        seats: rejoined(homes.callers.as_slice(), lists.seats, rooms.seats),
        journals: lists.journals,
    }
}

// Runs the cores of all slots at once.
fn run_in<'b, P: Port, C: Caller + Send, G: Gate + Sync, H: Threads + Wait + Sync>(
    rt: &H,
    slots: Vec<Slot<'b, P, C>>,
    gate: &G,
) -> Vec<Slot<'b, P, C>>
    ensures { AllZip (λ old new. HasRun C.asked P.tells old.core new.core) slots.entry.items result.items }
{
    let mut slots = slots;
    run_slots(rt, slots.as_mut_slice(), gate);
    slots
}

/// Runs callers over the ports of a board's roots, all at once, with a core for each group of callers that share a root,
/// also through others: what is left is as of one core that ran, and the groups' journals stand one after the other. `masks`
/// tells of each caller which roots it names, as bits, and `costs` how many steps it may make.
///
/// All memory is taken before the first core runs. Being out of memory drops the ports and the callers.
pub fn run_groups<'b, P: Port, C: Caller + Send, G: Gate + Sync, H: Threads + Wait + Sync>(
    rt: &H,
    alloc: Global,
    board: &'b Accepted,
    masks: &[u8],
    costs: &[u32],
    ports: Vec<(SegId, P)>,
    callers: Vec<(u8, C)>,
    gate: &G,
) -> Result<Ran<P, C>, NoMemory>
    requires { MayRun P.Port C.Caller board.now masks.now costs.now ports.items callers.items }
    ensures { IfOk result (HaveRun P.Port C.Caller board.now masks.now ports.items callers.items) }
{
    an_accepted_board_is_a_tree();
    let many = board.board().roots().len();
    let begun = begin(alloc, board, masks, costs, ports, callers)?;
    let rooms = rooms(alloc, many, masks.len())?;
    let slots = run_in(rt, begun.slots, gate);
    Ok(ended(&begun.homes, slots, rooms))
}
