//! The cores of groups, which run at once.
ghost use Rattle.std.specs.Prelude.{◌≡◌, ℕ, ◌<◌, length, slice_index_or, IsTrue, Some, None, IfSome};
ghost use Rattle.std.specs.Thread.{IsSend, IsSync};
ghost use Rattle.bus_core.specs.State.{AllThrough, CoreTold, roots_in};
ghost use Rattle.bus_groups.specs.Slots.{HasRun};

use bus_core::BusCore;
use bus_monitor::run_all;
use i2c_base::Caller;
use i2c_outside::Gate;
use ports::Port;
use std::sync::Wait;
use std::thread;
use std::thread::Threads;

/// The core of a group, which is taken out while it runs.
#[derive(Drop)]
pub struct Slot<'b, P: Port, C: Caller> {
    pub core: Option<BusCore<'b, P, C>>,
}

// Runs the core of a slot.
fn run_slot<'b, P: Port, C: Caller + Send, G: Gate + Sync, H: Threads + Wait + Sync>(
    rt: &H,
    slot: &mut Slot<'b, P, C>,
    gate: &G,
)
    ensures { HasRun C.asked P.tells slot.old.core slot.new.core }
{
    if let Some(core) = slot.core.take() {
        slot.core = Some(run_all(rt, core, gate));
    }
}

/// Runs the cores of all slots at once, each with a worker for each of its callers. It takes no memory.
pub fn run_slots<'b, P: Port, C: Caller + Send, G: Gate + Sync, H: Threads + Wait + Sync>(
    rt: &H,
    slots: &mut [Slot<'b, P, C>],
    gate: &G,
)
    ensures count { length slots.new ≡ length slots.old }
    ensures run { (i : ℕ) (d : _) → i < length slots.old → HasRun C.asked P.tells (slice_index_or slots.old i d).core (slice_index_or slots.new i d).core }
{
    thread::for_each_mut(rt, slots, 8, &|_, slot| run_slot(rt, slot, gate));
}
