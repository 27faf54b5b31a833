//! The rig of the simulated world, which takes every board.
ghost use Rattle.std.specs.Prelude.{◌≡◌, ◌≢◌, ◌↔◌, ℕ, ◌≤◌, [], true, false, List, Option, Some, None, Err, OnOk, OnErr, IfOk, IsTrue, All, length, map, replicate, is_some, unwrap_or, vec_len};
ghost use Rattle.std.specs.List.{range_with_len};
ghost use Rattle.i2c_base.specs.declared.port.Phase.{Phase};
ghost use Rattle.i2c_spec.specs.World.{AreWorldsOf, openings, devices_of};
ghost use Rattle.ports.specs.Causes.{Rose, counted};
ghost use Rattle.i2c_physics.specs.SimPorts.{opening_port};
ghost use Rattle.i2c_physics.specs.SimRigs.{no_board, none_of, unset, kept_states, kept_logs};

use crate::SimPort;
use crate::unplug::{Logged, Returned, UnplugBuffer, Unplugged};
use i2c_base::{PortCall, SegId};
use i2c_board::Accepted;
use i2c_outside::{Rig, RigFail};
use ports::Port;
use std::alloc::{AllocError, Global};
use targets::DeviceState;

/// The rig of the simulated world. It takes every board, and its ports never fail.
#[derive(Drop)]
pub struct SimRig {
    faults: u64,
    plugs: u64,
    unplugs: u64,
    /// The room of the last plug, until the unplug that follows it.
    room: Option<UnplugBuffer>,
    kept: Option<Unplugged>,
    /// How many ports were last given back.
    given: usize,
}

impl SimRig {
    /// A rig that was never plugged.
    pub fn new() -> Self
        ensures { result ≡ record { faults = 0; plugs = 0; unplugs = 0; room = None; kept = None; given = 0 } }
    {
        SimRig {
            faults: 0,
            plugs: 0,
            unplugs: 0,
            room: None,
            kept: None,
            given: 0,
        }
    }

    /// The devices as the last unplug found them, in file order; none before it.
    pub fn states(&self) -> &[DeviceState]
        ensures { result.now ≡ kept_states self.now.kept }
    {
        match &self.kept {
            Some(kept) => kept.states.as_slice(),
            None => &[],
        }
    }

    /// The calls on each port that the last unplug was given, in order; none before it.
    pub fn logs(&self) -> &[Vec<PortCall>]
        ensures { map (λ log. log.items) result.now ≡ kept_logs self.now.kept }
    {
        match &self.kept {
            Some(kept) => kept.logs.as_slice(),
            None => &[],
        }
    }

    /// How many faults were counted.
    pub fn faults(&self) -> u64
        ensures { result ≡ self.now.faults }
    {
        self.faults
    }

    /// How many plugs were made, failed ones included.
    pub fn plugs(&self) -> u64
        ensures { result ≡ self.now.plugs }
    {
        self.plugs
    }

    /// How many unplugs were made.
    pub fn unplugs(&self) -> u64
        ensures { result ≡ self.now.unplugs }
    {
        self.unplugs
    }

    /// A plug begins: it is counted, and what an earlier one left is gone.
    pub(crate) fn begin(&mut self)
        ensures { self.new ≡ record self.old { plugs = counted self.old.plugs; room = None; kept = None } }
    {
        self.plugs = self.plugs.saturating_add(1);
        drop(self.room.take());
        drop(self.kept.take());
    }

    /// It is refused, and a fault is counted.
    pub(crate) fn refuse(&mut self) -> RigFail
        ensures fail { result ≡ RigFail.Failed }
        ensures later { self.old.faults ≤ self.new.faults }
        ensures after { self.new ≡ record self.old { faults = counted self.old.faults } }
    {
        self.faults = self.faults.saturating_add(1);
        RigFail::Failed
    }

    /// It takes the room of its unplug, and is done.
    pub(crate) fn hold(&mut self, alloc: Global, board: &Accepted) -> Result<(), AllocError>
        ensures ok { OnOk result (self.new ≡ record self.old { room = Some board.now }) }
        ensures err { OnErr result (self.new ≡ self.old) }
    {
        let room = UnplugBuffer::open(alloc, board)?;
        drop(self.room.replace(room));
        Ok(())
    }

    /// Takes the ports back, and keeps the devices as they left them, and their logs.
    pub(crate) fn take_back<P: Logged>(&mut self, ports: Vec<P>)
        requires { is_some self.old.room ≡ true }
        ensures plugged { self.new.room ≡ None }
        ensures unplugs { self.new.unplugs ≡ counted self.old.unplugs }
        ensures plugs { self.new.plugs ≡ self.old.plugs }
        ensures faults { self.new.faults ≡ self.old.faults }
        ensures given { self.new.given ≡ self.old.given }
        ensures states { AreWorldsOf (unwrap_or self.old.room no_board) (map (λ p. (P.port p).world) ports.items)
            → kept_states self.new.kept ≡ devices_of (unwrap_or self.old.room no_board) (map (λ p. (P.port p).world) ports.items) }
        ensures logs { AreWorldsOf (unwrap_or self.old.room no_board) (map (λ p. (P.port p).world) ports.items)
            → kept_logs self.new.kept ≡ map (λ p. (P.port p).log) ports.items }
    {
        self.unplugs = self.unplugs.saturating_add(1);
        if let Some(room) = self.room.take() {
            drop(self.kept.replace(room.keep(ports)));
        }
    }

    /// Takes the ports back, and keeps the devices as they left them.
    pub(crate) fn take_devices<P: Returned>(&mut self, ports: Vec<P>)
        requires { is_some self.old.room ≡ true }
        ensures plugged { self.new.room ≡ None }
        ensures unplugs { self.new.unplugs ≡ counted self.old.unplugs }
        ensures plugs { self.new.plugs ≡ self.old.plugs }
        ensures faults { self.new.faults ≡ self.old.faults }
        ensures states { AreWorldsOf (unwrap_or self.old.room no_board) (map (λ p. (P.port p).world) ports.items)
            → kept_states self.new.kept ≡ devices_of (unwrap_or self.old.room no_board) (map (λ p. (P.port p).world) ports.items) }
    {
        self.unplugs = self.unplugs.saturating_add(1);
        if let Some(room) = self.room.take() {
            drop(self.kept.replace(room.keep_devices(ports)));
        }
    }
}

impl Rig for SimRig {
    type P = SimPort;

    ghost tells = { true };

    ghost faults = { λ r. r.faults };

    ghost plugs = { λ r. r.plugs };

    ghost unplugs = { λ r. r.unplugs };

    ghost plugged = { λ r. is_some r.room };

    ghost board_of = { λ r. unwrap_or r.room no_board };

    ghost states = { λ r. kept_states r.kept };

    ghost logs = { λ r. kept_logs r.kept };

    ghost port_faults = { λ r. none_of r.given };

    ghost setups = { λ r b. unset (length b.roots) };

    ghost returned = { λ r. unset r.given };

    /// It never fails, except when out of memory.
    fn plug(&mut self, alloc: Global, board: &Accepted) -> Result<Vec<SimPort>, RigFail>
        ensures later { self.old.faults ≤ self.new.faults }
        ensures cause { result ≡ Err RigFail.Failed → Rose self.old.faults self.new.faults }
        ensures plugs { self.new.plugs ≡ counted self.old.plugs }
        ensures unplugs { self.new.unplugs ≡ self.old.unplugs }
        ensures plugged { OnOk result (is_some self.new.room ≡ true) }
        ensures unplugged { OnErr result (is_some self.new.room ≡ false) }
        ensures count { IfOk result (λ ports. vec_len ports ≡ length board.now.roots) }
        ensures idle { IfOk result (λ ports. All (λ p. p.phase ≡ Phase.Idle) ports.items) }
        ensures fresh { IfOk result (λ ports. All (λ p. ⟦<SimPort as Port>⟧.faults p ≡ 0) ports.items) }
        ensures empty { IfOk result (λ ports. All (λ p. p.log ≡ []) ports.items) }
        ensures worlds { IfOk result (λ ports. map (λ p. p.world) ports.items ≡ openings board.now) }
        ensures board { OnOk result (unwrap_or self.new.room no_board ≡ board.now) }
        ensures setups { IfOk result (λ ports. map ⟦<SimPort as Port>⟧.setup ports.items ≡ unset (length board.now.roots)) }

        // It takes every board, and counts no fault.
        ensures never { result ≢ Err RigFail.Failed }
        ensures calm { self.new.faults ≡ self.old.faults }
        ensures kept { self.new.kept ≡ None }
    {
        self.begin();
        let ports = open_ports(alloc, board)?;
        self.hold(alloc, board)?;
        Ok(ports)
    }

    fn unplug(&mut self, ports: Vec<SimPort>)
        requires { is_some self.old.room ≡ true }
        ensures plugged { is_some self.new.room ≡ false }
        ensures plugs { self.new.plugs ≡ self.old.plugs }
        ensures unplugs { self.new.unplugs ≡ counted self.old.unplugs }
        ensures later { self.old.faults ≤ self.new.faults }
        ensures counts { none_of self.new.given ≡ map ⟦<SimPort as Port>⟧.faults ports.items }
        ensures returned { unset self.new.given ≡ map ⟦<SimPort as Port>⟧.setup ports.items }
        ensures states { AreWorldsOf (unwrap_or self.old.room no_board) (map (λ p. p.world) ports.items)
            → kept_states self.new.kept ≡ devices_of (unwrap_or self.old.room no_board) (map (λ p. p.world) ports.items) }
        ensures logs { AreWorldsOf (unwrap_or self.old.room no_board) (map (λ p. p.world) ports.items)
            → kept_logs self.new.kept ≡ map (λ p. p.log) ports.items }

        // It never counts a fault.
        ensures calm { self.new.faults ≡ self.old.faults }
    {
        self.given = ports.len();
        self.take_back(ports);
    }
}

/// The ports of the board's roots, in order.
fn open_ports(alloc: Global, board: &Accepted) -> Result<Vec<SimPort>, AllocError>
    ensures opened { IfOk result (λ ports. ports.items ≡ map (opening_port board.now) (range_with_len 0 (length board.now.roots))) }
    ensures count { IfOk result (λ ports. vec_len ports ≡ length board.now.roots) }
{
    let count = board.board().roots().len() as u16;
    let mut ports = Vec::with_capacity(alloc, usize::from(count))?;
    for root in 0..count {
        ports.push_reserved(SimPort::open(alloc, board, SegId(root))?);
    }
    Ok(ports)
}
