//! A rig whose plugs, or calls on its ports, fail where it is told.
ghost use Rattle.std.specs.Prelude.{◌≡◌, ◌≢◌, ◌↔◌, ◌⊎◌, ℕ, ◌≤◌, true, Some, None, Err, OnErr, IfOk, length, map, is_some, unwrap_or};
ghost use Rattle.std.specs.List.{range_with_len};
ghost use Rattle.i2c_spec.specs.World.{AreWorldsOf, devices_of};
ghost use Rattle.ports.specs.Causes.{counted};
ghost use Rattle.i2c_physics.specs.FailPorts.{HaveFailedJustAt, counts_given, failed_calls_in, fails_given, fails_on, logs_given, opening_fails};
ghost use Rattle.i2c_physics.specs.SimRigs.{no_board, kept_states, kept_logs};

use crate::FailPort;
use crate::fail_port::GivenPorts;
use crate::sim_rig::SimRig;
use i2c_base::{PortCall, SegId};
use i2c_board::Accepted;
use i2c_outside::{Rig, RigFail};
use std::alloc::{AllocError, Global};
use targets::DeviceState;

/// The rig of the same boards as `SimRig`, whose plugs fail, or calls on its ports, where it is told.
#[derive(Drop)]
pub struct FailRig {
    plug_fails: bool,
    /// The calls that fail, by root and number, the first call on a port being 0.
    calls: Vec<(SegId, u32)>,
    sim: SimRig,
    /// The ports that were last given back.
    given: Option<GivenPorts>,
}

impl FailRig {
    /// A rig that was never plugged. Each plug fails, where `plug_fails`, and these calls on its ports.
    pub fn new(plug_fails: bool, calls: Vec<(SegId, u32)>) -> Self
        ensures { result ≡ record { plug_fails = plug_fails; calls = calls; sim = record { faults = 0; plugs = 0; unplugs = 0; room = None; kept = None; given = 0 }; given = None } }
    {
        FailRig {
            plug_fails,
            calls,
            sim: SimRig::new(),
            given: None,
        }
    }

    /// From the next plug on, these calls on its ports fail, and no others.
    pub fn arm(&mut self, calls: Vec<(SegId, u32)>)
        ensures { self.new ≡ record self.old { calls = calls } }
    {
        self.calls = calls;
    }

    /// On each port that was last given back, a call failed just where its number was listed for it.
    pub fn failed_where_told(&self)
        ensures { HaveFailedJustAt (fails_given self.now.given) (logs_given self.now.given) }
    {
        if let Some(given) = &self.given {
            given.fail_as_listed();
        }
    }

    /// The devices as the last unplug found them, in file order; none before it.
    pub fn states(&self) -> &[DeviceState]
        ensures { result.now ≡ kept_states self.now.sim.kept }
    {
        self.sim.states()
    }

    /// The calls on each port that the last unplug was given, in order; none before it.
    pub fn logs(&self) -> &[Vec<PortCall>]
        ensures { map (λ log. log.items) result.now ≡ kept_logs self.now.sim.kept }
    {
        self.sim.logs()
    }

    /// How many faults were counted.
    pub fn faults(&self) -> u64
        ensures { result ≡ self.now.sim.faults }
    {
        self.sim.faults()
    }

    /// How many plugs were made, failed ones included.
    pub fn plugs(&self) -> u64
        ensures { result ≡ self.now.sim.plugs }
    {
        self.sim.plugs()
    }

    /// How many unplugs were made.
    pub fn unplugs(&self) -> u64
        ensures { result ≡ self.now.sim.unplugs }
    {
        self.sim.unplugs()
    }
}

impl Rig for FailRig {
    type P = FailPort;

    ghost tells = { true };

    ghost faults = { λ r. r.sim.faults };

    ghost plugs = { λ r. r.sim.plugs };

    ghost unplugs = { λ r. r.sim.unplugs };

    ghost plugged = { λ r. is_some r.sim.room };

    ghost board_of = { λ r. unwrap_or r.sim.room no_board };

    ghost states = { λ r. kept_states r.sim.kept };

    ghost logs = { λ r. logs_given r.given };

    ghost port_faults = { λ r. counts_given r.given };

    ghost setups = { λ r b. map (fails_on r.calls.items) (range_with_len 0 (length b.roots)) };

    ghost returned = { λ r. fails_given r.given };

    /// It fails by a fault exactly where it is told to.
    fn plug(&mut self, alloc: Global, board: &Accepted) -> Result<Vec<FailPort>, RigFail>
        ensures exact { result ≡ Err RigFail.Failed ↔ (self.old.plug_fails ≡ true) }
        ensures ports { IfOk result (λ ports. ports.items ≡ map (opening_fails board.now self.old.calls.items) (range_with_len 0 (length board.now.roots))) }
        ensures board { IfOk result (λ _. self.new.sim.room ≡ Some board.now) }
        ensures unplugged { OnErr result (self.new.sim.room ≡ None) }
        ensures kept { self.new.sim.kept ≡ None }
        ensures calls { self.new.calls ≡ self.old.calls }

        // What is counted.
        ensures plugs { self.new.sim.plugs ≡ counted self.old.sim.plugs }
        ensures unplugs { self.new.sim.unplugs ≡ self.old.sim.unplugs }
        ensures later { self.old.sim.faults ≤ self.new.sim.faults }
        ensures fault { result ≡ Err RigFail.Failed → self.new.sim.faults ≡ counted self.old.sim.faults }
        ensures calm { result ≢ Err RigFail.Failed → self.new.sim.faults ≡ self.old.sim.faults }
    {
        self.sim.begin();
        if self.plug_fails {
            return Err(self.sim.refuse());
        }
        let ports = open_ports(alloc, board, &self.calls)?;
        self.sim.hold(alloc, board)?;
        Ok(ports)
    }

    fn unplug(&mut self, ports: Vec<FailPort>)
        requires { is_some self.old.sim.room ≡ true }
        ensures plugged { self.new.sim.room ≡ None }
        ensures plugs { self.new.sim.plugs ≡ self.old.sim.plugs }
        ensures unplugs { self.new.sim.unplugs ≡ counted self.old.sim.unplugs }
        ensures calm { self.new.sim.faults ≡ self.old.sim.faults }
        ensures given { self.new.given ≡ Some ports.items }
        ensures calls { self.new.calls ≡ self.old.calls }
        ensures states { AreWorldsOf (unwrap_or self.old.sim.room no_board) (map (λ p. p.port.world) ports.items)
            → kept_states self.new.sim.kept ≡ devices_of (unwrap_or self.old.sim.room no_board) (map (λ p. p.port.world) ports.items) }
        ensures logs { AreWorldsOf (unwrap_or self.old.sim.room no_board) (map (λ p. p.port.world) ports.items)
            → kept_logs self.new.sim.kept ≡ logs_given self.new.given }
    {
        self.given = Some(GivenPorts::of(&ports));
        self.sim.take_back(ports);
    }
}

/// The ports of the board's roots, in order, each with the calls of its root that fail.
fn open_ports(
    alloc: Global,
    board: &Accepted,
    calls: &[(SegId, u32)],
) -> Result<Vec<FailPort>, AllocError>
    ensures { IfOk result (λ ports. ports.items ≡ map (opening_fails board.now calls.now) (range_with_len 0 (length board.now.roots))) }
{
    let count = board.board().roots().len() as u16;
    let mut ports = Vec::with_capacity(alloc, usize::from(count))?;
    for root in 0..count {
        ports.push_reserved(FailPort::open(alloc, board, SegId(root), calls)?);
    }
    Ok(ports)
}
