//! A rig whose ports of two roots wait for each other.
ghost use Rattle.std.specs.Prelude.{◌≡◌, ◌≢◌, ◌≤◌, [], true, false, None, Err, OnOk, OnErr, IfOk, All, length, map, is_some, unwrap_or, vec_len};
ghost use Rattle.std.specs.List.{range_with_len};
ghost use Rattle.i2c_base.specs.declared.port.Phase.{Phase};
ghost use Rattle.i2c_spec.specs.World.{AreWorldsOf, openings, devices_of};
ghost use Rattle.ports.specs.Causes.{Rose, counted};
ghost use Rattle.i2c_physics.specs.SimPorts.{opening_port};
ghost use Rattle.i2c_physics.specs.SimRigs.{no_board, none_of, unset, kept_states, kept_logs};

use crate::HoldPort;
use crate::sim_rig::SimRig;
use crate::words::Words;
use i2c_base::{PortCall, SegId};
use i2c_board::Accepted;
use i2c_outside::{Rig, RigFail};
use ports::Port;
use std::alloc::{AllocError, Global};
use std::sync::Arc;
use targets::DeviceState;

/// The rig of the same boards as `SimRig`, whose ports of two roots wait for each other, so that the callers on both run
/// at once. The port of the held root waits at its first start until that of the other root has made a stop, and the port
/// of the other root waits at its first start until that of the held root has come to its own. Each wait ends after
/// 1,000,000 looks.
#[derive(Drop)]
pub struct HoldRig {
    held: SegId,
    other: SegId,
    sim: SimRig,
    /// The words of the ports of the last plug that went through.
    words: Option<Arc<Words, Global>>,
    /// How many ports were last given back.
    given: usize,
}

impl HoldRig {
    /// A rig that was never plugged, whose ports of these two roots wait for each other.
    pub fn new(held: SegId, other: SegId) -> Self
        ensures { result ≡ record {
          held = held;
          other = other;
          words = None;
          given = 0;
          sim = record { faults = 0; plugs = 0; unplugs = 0; room = None; kept = None; given = 0 };
        } }
    {
        HoldRig {
            held,
            other,
            sim: SimRig::new(),
            words: None,
            given: 0,
        }
    }

    /// Whether a wait ran out of looks, at a port of the last plug that went through. Nothing is proved of it, since no
    /// clause can say what an atomic holds.
    pub fn gave_up(&self) -> bool {
        match &self.words {
            Some(words) => words.gave_up(),
            None => false,
        }
    }

    /// The devices as the last unplug found them, in file order; none before it.
    pub fn states(&self) -> &[DeviceState]
        ensures { result.now ≡ kept_states self.now.sim.kept }
    {
        self.sim.states()
    }

    /// The calls on each port that the last unplug was given, in order; none before it.
    pub fn logs(&self) -> &[Vec<PortCall>]
        ensures { map (λ log. log.items) result.now ≡ kept_logs self.now.sim.kept }
    {
        self.sim.logs()
    }

    /// How many faults were counted.
    pub fn faults(&self) -> u64
        ensures { result ≡ self.now.sim.faults }
    {
        self.sim.faults()
    }

    /// How many plugs were made, failed ones included.
    pub fn plugs(&self) -> u64
        ensures { result ≡ self.now.sim.plugs }
    {
        self.sim.plugs()
    }

    /// How many unplugs were made.
    pub fn unplugs(&self) -> u64
        ensures { result ≡ self.now.sim.unplugs }
    {
        self.sim.unplugs()
    }
}

impl Rig for HoldRig {
    type P = HoldPort;

    ghost tells = { true };

    ghost faults = { λ r. r.sim.faults };

    ghost plugs = { λ r. r.sim.plugs };

    ghost unplugs = { λ r. r.sim.unplugs };

    ghost plugged = { λ r. is_some r.sim.room };

    ghost board_of = { λ r. unwrap_or r.sim.room no_board };

    ghost states = { λ r. kept_states r.sim.kept };

    ghost logs = { λ r. kept_logs r.sim.kept };

    ghost port_faults = { λ r. none_of r.given };

    ghost setups = { λ r b. unset (length b.roots) };

    ghost returned = { λ r. unset r.given };

    /// It never fails, except when out of memory.
    fn plug(&mut self, alloc: Global, board: &Accepted) -> Result<Vec<HoldPort>, RigFail>
        ensures later { self.old.sim.faults ≤ self.new.sim.faults }
        ensures cause { result ≡ Err RigFail.Failed → Rose self.old.sim.faults self.new.sim.faults }
        ensures plugs { self.new.sim.plugs ≡ counted self.old.sim.plugs }
        ensures unplugs { self.new.sim.unplugs ≡ self.old.sim.unplugs }
        ensures plugged { OnOk result (is_some self.new.sim.room ≡ true) }
        ensures unplugged { OnErr result (is_some self.new.sim.room ≡ false) }
        ensures count { IfOk result (λ ports. vec_len ports ≡ length board.now.roots) }
        ensures idle { IfOk result (λ ports. All (λ p. p.phase ≡ Phase.Idle) ports.items) }
        ensures fresh { IfOk result (λ ports. All (λ p. ⟦<HoldPort as Port>⟧.faults p ≡ 0) ports.items) }
        ensures empty { IfOk result (λ ports. All (λ p. p.log ≡ []) ports.items) }
        ensures worlds { IfOk result (λ ports. map (λ p. p.world) ports.items ≡ openings board.now) }
        ensures board { OnOk result (unwrap_or self.new.sim.room no_board ≡ board.now) }
        ensures setups { IfOk result (λ ports. map ⟦<HoldPort as Port>⟧.setup ports.items ≡ unset (length board.now.roots)) }

        // It takes every board, and counts no fault.
        ensures never { result ≢ Err RigFail.Failed }
        ensures calm { self.new.sim.faults ≡ self.old.sim.faults }
        ensures kept { self.new.sim.kept ≡ None }
        ensures held { self.new.held ≡ self.old.held }
        ensures other { self.new.other ≡ self.old.other }
    {
        self.sim.begin();
        let words = Arc::new(alloc, Words::new(self.held, self.other))?;
        let ports = open_ports(alloc, board, &words)?;
        self.sim.hold(alloc, board)?;
        drop(self.words.replace(words));
        Ok(ports)
    }

    fn unplug(&mut self, ports: Vec<HoldPort>)
        requires { is_some self.old.sim.room ≡ true }
        ensures plugged { is_some self.new.sim.room ≡ false }
        ensures plugs { self.new.sim.plugs ≡ self.old.sim.plugs }
        ensures unplugs { self.new.sim.unplugs ≡ counted self.old.sim.unplugs }
        ensures later { self.old.sim.faults ≤ self.new.sim.faults }
        ensures counts { none_of self.new.given ≡ map ⟦<HoldPort as Port>⟧.faults ports.items }
        ensures returned { unset self.new.given ≡ map ⟦<HoldPort as Port>⟧.setup ports.items }
        ensures states { AreWorldsOf (unwrap_or self.old.sim.room no_board) (map (λ p. p.world) ports.items)
            → kept_states self.new.sim.kept ≡ devices_of (unwrap_or self.old.sim.room no_board) (map (λ p. p.world) ports.items) }
        ensures logs { AreWorldsOf (unwrap_or self.old.sim.room no_board) (map (λ p. p.world) ports.items)
            → kept_logs self.new.sim.kept ≡ map (λ p. p.log) ports.items }

        // It never counts a fault.
        ensures calm { self.new.sim.faults ≡ self.old.sim.faults }
        ensures held { self.new.held ≡ self.old.held }
        ensures other { self.new.other ≡ self.old.other }
    {
        self.given = ports.len();
        self.sim.take_back(ports);
    }
}

/// The ports of the board's roots, in order, each with a share of these words.
fn open_ports(
    alloc: Global,
    board: &Accepted,
    words: &Arc<Words, Global>,
) -> Result<Vec<HoldPort>, AllocError>
    ensures opened { IfOk result (λ ports. ports.items ≡ map (opening_port board.now) (range_with_len 0 (length board.now.roots))) }
    ensures count { IfOk result (λ ports. vec_len ports ≡ length board.now.roots) }
{
    let count = board.board().roots().len() as u16;
    let mut ports = Vec::with_capacity(alloc, usize::from(count))?;
    for root in 0..count {
        ports.push_reserved(HoldPort::open(alloc, board, SegId(root), words)?);
    }
    Ok(ports)
}
