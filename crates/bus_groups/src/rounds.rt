//! Shares of ports and callers, the cores that are opened with them, and what is left of these.
ghost use Rattle.std.specs.Prelude.{◌≡◌, ◌≤◌, [], length, map, sum_by, All, IfOk, IsSome, vec_capacity};
ghost use Rattle.std.specs.List.{range_with_len, AllZip};
ghost use Rattle.i2c_base.specs.Limits.{MOST_CALLS, MOST_ROOTS};
ghost use Rattle.bus_core.specs.Opens.{MayOpen};
ghost use Rattle.bus_groups.specs.Rounds.{IsOpenedWith, AreLeftOf};
ghost use Rattle.bus_groups.specs.Shares.{cost_of_home};

use crate::Slot;
use crate::shares::cost_of_home;
use bus_core::{BusCore, ClosedCore, Seat};
use bus_journal::Journal;
use i2c_base::{Caller, NoMemory, SegId};
use i2c_board::Accepted;
use ports::Port;
use std::alloc::Global;

/// The ports of a group's roots, its callers, and how many steps these may make, all together.
#[derive(Drop)]
pub struct Share<P, C> {
    pub ports: Vec<(SegId, P)>,
    pub callers: Vec<(u8, C)>,
    pub limit: u32,
}

// Each home's ports with its callers, and with what these cost, by the homes and the costs of all callers.
pub fn shares<P: Drop, C: Drop>(
    alloc: Global,
    ports: Vec<Vec<(SegId, P)>>,
    callers: Vec<Vec<(u8, C)>>,
    homes: &[u8],
    costs: &[u32],
) -> Result<Vec<Share<P, C>>, NoMemory>
    requires same { length ports.items ≡ length callers.items }
    requires few { length ports.items ≤ MOST_ROOTS }
    requires count { length costs.now ≡ length homes.now }
    requires fits { sum_by (λ n. n) costs.now ≤ MOST_CALLS }
    ensures ports { IfOk result (λ shares. map (λ share. share.ports) shares.items ≡ ports.items) }
    ensures callers { IfOk result (λ shares. map (λ share. share.callers) shares.items ≡ callers.items) }
    ensures limits { IfOk result (λ shares. map (λ share. share.limit) shares.items ≡ map (λ h. cost_of_home homes.now h costs.now) (range_with_len 0 (length ports.items))) }
{
    let mut callers = callers;
    let mut shares = Vec::with_capacity(alloc, ports.len())?;
    for ports in ports {
        let limit = cost_of_home(homes, shares.len() as u8, costs);
        let callers = callers.remove(0);
        shares.push_reserved(Share {
            ports,
            callers,
            limit,
        });
    }
    Ok(shares)
}

// A core of each share, each with room for its own limit.
pub fn opened<'b, P: Port, C: Caller>(
    alloc: Global,
    board: &'b Accepted,
    shares: Vec<Share<P, C>>,
) -> Result<Vec<Slot<'b, P, C>>, NoMemory>
    requires { All (λ share. MayOpen P.Port C.Caller board.now share.ports.items share.callers.items share.limit) shares.items }
    ensures { IfOk result (λ slots. AllZip (λ share slot. IsOpenedWith P.Port C.Caller board.now share slot.core) shares.items slots.items) }
{
    let mut slots = Vec::with_capacity(alloc, shares.len())?;
    for share in shares {
        let core = BusCore::open(alloc, board, share.ports, share.callers, share.limit)?;
        slots.push_reserved(Slot { core: Some(core) });
    }
    Ok(slots)
}

// What is left of the core of each slot, in a list that has room for it.
pub fn left<'b, P: Port, C: Caller>(
    slots: Vec<Slot<'b, P, C>>,
    room: Vec<ClosedCore<P, C>>,
) -> Vec<ClosedCore<P, C>>
    requires empty { room.items ≡ [] }
    requires room { length slots.items ≤ vec_capacity room }
    requires full { All (λ slot. IsSome slot.core) slots.items }
    ensures { AllZip (λ slot parts. AreLeftOf P.Port C.Caller slot.core parts) slots.entry.items result.items }
{
    let mut left = room;
    for slot in slots {
        if let Some(core) = slot.core {
            left.push_reserved(core.take_apart());
        }
    }
    left
}

// The ports, the seats and the journals apart.
#[derive(Drop)]
pub struct Lists<P, C> {
    pub ports: Vec<Vec<(SegId, P)>>,
    pub seats: Vec<Vec<Seat<C>>>,
    pub journals: Vec<Journal>,
}

// Takes the parts of all groups apart, in lists that have room for them.
pub fn apart<P: Drop, C: Drop>(parts: Vec<ClosedCore<P, C>>, room: Lists<P, C>) -> Lists<P, C>
    requires empty { (room.ports.items ≡ []) × (room.seats.items ≡ []) × (room.journals.items ≡ []) }
    requires room { (length parts.items ≤ vec_capacity room.ports) × (length parts.items ≤ vec_capacity room.seats) × (length parts.items ≤ vec_capacity room.journals) }
    ensures ports { result.ports.items ≡ map (λ x. x.ports) parts.items }
    ensures seats { result.seats.items ≡ map (λ x. x.seats) parts.items }
    ensures journals { result.journals.items ≡ map (λ x. x.journal) parts.items }
{
    let mut all = room;
    for part in parts {
        let ClosedCore {
            ports,
            seats,
            journal,
        } = part;
        all.ports.push_reserved(ports);
        all.seats.push_reserved(seats);
        all.journals.push_reserved(journal);
    }
    all
}
