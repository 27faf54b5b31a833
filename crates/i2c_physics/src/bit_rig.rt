//! The rig whose ports drive two wires, which takes every board.
ghost use Rattle.std.specs.Prelude.{◌≡◌, ◌≢◌, [], true, false, Some, None, Err, OnOk, OnErr, IfOk, All, length, map, is_some, unwrap_or};
ghost use Rattle.std.specs.List.{range_with_len};
ghost use Rattle.i2c_spec.specs.World.{AreWorldsOf, devices_of};
ghost use Rattle.ports.specs.Causes.{counted};
ghost use Rattle.i2c_physics.specs.BitRigs.{edges_of, opening_wired, wired};
ghost use Rattle.i2c_physics.specs.SimRigs.{no_board, none_of, unset, kept_states};

use crate::parted_port::PartsBuffer;
use crate::sim_rig::SimRig;
use crate::{RootLines, WirePort};
use i2c_base::{NoMemory, SegId};
use i2c_board::Accepted;
use i2c_outside::{Rig, RigFail};
use std::alloc::Global;
use std::marker::Model;
use std::snapshot::Snapshot;
use targets::DeviceState;

/// The rig of the same boards as `SimRig`, whose ports drive the two wires of each root, bit by bit. No call on one fails, so that
/// the count of each port that is given back is 0, by what is seen of the rig.
#[derive(Drop)]
pub struct BitRig<L: RootLines> {
    sim: SimRig,
    /// The room for the ports of the last plug, until the unplug that follows it.
    buffer: Option<PartsBuffer>,
    /// The ports that were last given back.
    given: Option<Snapshot<Vec<WirePort<L>>>>,
    edges: u64,
}

impl<L: RootLines> Model for BitRig<L> {
    ghost use Rattle.std.specs.Prelude.{◌≡◌, [], map};
    ghost use Rattle.std.specs.Option.{option_map_or};
    ghost use Rattle.i2c_physics.specs.BitRigs.{BitRigView};

    ghost Value = { BitRigView };

    ghost view = { λ r. record { sim = r.sim; logs = option_map_or (λ ports. map (λ p. p.log) ports.value.items) r.given []; edges = r.edges } };

    ghost invariant = { λ r. r.buffer ≡ r.sim.room };
}

impl<L: RootLines> BitRig<L> {
    /// A rig that was never plugged.
    pub fn new() -> Self
        ensures { result ≡ record { sim = record { faults = 0; plugs = 0; unplugs = 0; room = None; kept = None; given = 0 }; logs = []; edges = 0 } }
    {
        BitRig {
            sim: SimRig::new(),
            buffer: None,
            given: None,
            edges: 0,
        }
    }

    /// How often SCL rose on all roots, up to 2^64 - 1, as the last unplug found it; 0 before it.
    pub fn edges(&self) -> u64
        ensures { result ≡ self.now.edges }
    {
        self.edges
    }

    /// The devices as the last unplug found them, in file order; none before it.
    pub fn states(&self) -> &[DeviceState]
        ensures { result.now ≡ kept_states self.now.sim.kept }
    {
        self.sim.states()
    }

    /// How many faults were counted.
    pub fn faults(&self) -> u64
        ensures { result ≡ self.now.sim.faults }
    {
        self.sim.faults()
    }

    /// How many plugs were made, failed ones included.
    pub fn plugs(&self) -> u64
        ensures { result ≡ self.now.sim.plugs }
    {
        self.sim.plugs()
    }

    /// How many unplugs were made.
    pub fn unplugs(&self) -> u64
        ensures { result ≡ self.now.sim.unplugs }
    {
        self.sim.unplugs()
    }

    /// A plug begins: what an earlier one left is gone.
    fn begin(&mut self)
        ensures { self.new ≡ record self.old { sim = record self.old.sim { plugs = counted self.old.sim.plugs; room = None; kept = None }; edges = 0 } }
    {
        self.sim.begin();
        drop(self.buffer.take());
        self.edges = 0;
    }

    /// It takes the room of its unplug, and is done.
    fn hold(&mut self, alloc: Global, board: &Accepted) -> Result<(), NoMemory>
        requires { self.old.sim.room ≡ None }
        ensures ok { OnOk result (self.new ≡ record self.old { sim = record self.old.sim { room = Some board.now } }) }
        ensures err { OnErr result (self.new ≡ self.old) }
    {
        let buffer = PartsBuffer::open(alloc, board)?;
        self.sim.hold(alloc, board)?;
        drop(self.buffer.replace(buffer));
        Ok(())
    }
}

impl<L: RootLines + Send> Rig for BitRig<L> {
    type P = WirePort<L>;

    ghost tells = { true };

    ghost faults = { λ r. r.sim.faults };

    ghost plugs = { λ r. r.sim.plugs };

    ghost unplugs = { λ r. r.sim.unplugs };

    ghost plugged = { λ r. is_some r.sim.room };

    ghost board_of = { λ r. unwrap_or r.sim.room no_board };

    ghost states = { λ r. kept_states r.sim.kept };

    ghost logs = { λ r. r.logs };

    // A 0 for each port that was last given back, which is its count (`counts` of `unplug`).
    ghost port_faults = { λ r. none_of (length r.logs) };

    ghost setups = { λ r b. unset (length b.roots) };

    ghost returned = { λ r. unset (length r.logs) };

    /// It never fails, except when out of memory. Nothing was seen on the wires of a root yet.
    fn plug(&mut self, alloc: Global, board: &Accepted) -> Result<Vec<WirePort<L>>, RigFail>
        ensures ports { IfOk result (λ ports. map wired ports.items ≡ map (opening_wired board.now) (range_with_len 0 (length board.now.roots))) }
        ensures seen { IfOk result (λ ports. All (λ p. p.seen ≡ []) ports.items) }
        ensures board { OnOk result (self.new.sim.room ≡ Some board.now) }
        ensures unplugged { OnErr result (self.new.sim.room ≡ None) }
        ensures kept { self.new.sim.kept ≡ None }
        ensures edges { self.new.edges ≡ 0 }

        // It takes every board, and counts no fault.
        ensures never { result ≢ Err RigFail.Failed }
        ensures calm { self.new.sim.faults ≡ self.old.sim.faults }
        ensures plugs { self.new.sim.plugs ≡ counted self.old.sim.plugs }
        ensures unplugs { self.new.sim.unplugs ≡ self.old.sim.unplugs }
    {
        self.begin();
        match open_ports(alloc, board) {
            Ok(ports) => match self.hold(alloc, board) {
                Ok(()) => Ok(ports),
                Err(NoMemory) => Err(RigFail::Memory),
            },
            Err(NoMemory) => Err(RigFail::Memory),
        }
    }

    fn unplug(&mut self, ports: Vec<WirePort<L>>)
        requires { is_some self.old.sim.room ≡ true }
        ensures plugged { is_some self.new.sim.room ≡ false }
        ensures plugs { self.new.sim.plugs ≡ self.old.sim.plugs }
        ensures unplugs { self.new.sim.unplugs ≡ counted self.old.sim.unplugs }
        ensures counts { none_of (length self.new.logs) ≡ map (λ p. p.faults) ports.items }
        ensures returned { unset (length self.new.logs) ≡ map (λ p. []) ports.items }
        ensures states { AreWorldsOf (unwrap_or self.old.sim.room no_board) (map (λ p. p.world) ports.items)
            → kept_states self.new.sim.kept ≡ devices_of (unwrap_or self.old.sim.room no_board) (map (λ p. p.world) ports.items) }
        ensures logs { AreWorldsOf (unwrap_or self.old.sim.room no_board) (map (λ p. p.world) ports.items)
            → self.new.logs ≡ map (λ p. p.log) ports.items }

        // No call on a port has failed. It never counts a fault, and it tells how often SCL rose.
        ensures none { All (λ p. p.faults ≡ 0) ports.items }
        ensures calm { self.new.sim.faults ≡ self.old.sim.faults }
        ensures edges { self.new.edges ≡ edges_of ports.items }
    {
        self.given = Some(Snapshot::of(&ports));
        if let Some(buffer) = self.buffer.take() {
            let parted = buffer.fill(ports);
            self.edges = parted.edges;
            self.sim.take_devices(parted.ports);
        }
    }
}

/// The ports of the board's roots, in order.
fn open_ports<L: RootLines>(alloc: Global, board: &Accepted) -> Result<Vec<WirePort<L>>, NoMemory>
    ensures { IfOk result (λ ports. map wired ports.items ≡ map (opening_wired board.now) (range_with_len 0 (length board.now.roots))) }
{
    let count = board.board().roots().len() as u16;
    let mut ports = Vec::with_capacity(alloc, usize::from(count))?;
    for root in 0..count {
        ports.push_reserved(WirePort::open(alloc, board, SegId(root))?);
    }
    Ok(ports)
}
