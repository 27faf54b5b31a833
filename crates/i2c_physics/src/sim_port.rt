//! A port of the simulated world, which never fails.
ghost use Rattle.std.specs.Prelude.{◌≡◌, ◌<◌, ℕ, [], Bool, true, length, slice_get, IfOk, IsSome};
ghost use Rattle.i2c_base.specs.Limits.{MOST_CALLS};
ghost use Rattle.i2c_base.specs.Phases.{AnswersStart, phase_started, phase_put, phase_got};
ghost use Rattle.i2c_base.specs.declared.port.Phase.TheVariants.{Idle};
ghost use Rattle.i2c_base.specs.declared.port.PortCall.TheVariants as call;
ghost use Rattle.i2c_spec.specs.World.{answer, takes, gives};
ghost use Rattle.i2c_physics.specs.SimPorts.{opening_port, called};

use crate::phase;
use crate::sim_world::SimWorld;
use crate::unplug::{Logged, Returned};
use i2c_base::{Addr, Answer, MOST_CALLS, MuxId, Phase, PortCall, SegId};
use i2c_board::Accepted;
use ports::{Failed, Port};
use std::alloc::{AllocError, Global};
use std::marker::Model;
use targets::DeviceState;

/// The port of one root of a board, with its muxes. It never fails.
#[derive(Drop)]
pub struct SimPort {
    world: SimWorld,
    log: Vec<PortCall>,
    phase: Phase,
}

impl Model for SimPort {
    ghost use Rattle.std.specs.Prelude.{◌≤◌, vec_capacity};
    ghost use Rattle.i2c_base.specs.Limits.{MOST_CALLS};
    ghost use Rattle.i2c_physics.specs.SimPorts.{PortView};

    ghost Value = { PortView };

    ghost view = { λ p. record { world = p.world; log = p.log.items; phase = p.phase } };

    ghost invariant = { λ p. MOST_CALLS ≤ vec_capacity p.log };
}

// Each call of the log takes at most 8 bytes.
const _: () = prove!(size_of::<PortCall>() <= 8);

impl SimPort {
    /// The port of this root, in the root's opening world.
    pub fn open(alloc: Global, board: &Accepted, root: SegId) -> Result<Self, AllocError>
        ensures { IfOk result (λ p. p ≡ opening_port board.now root) }
    {
        let log = Vec::with_capacity(alloc, MOST_CALLS)?;
        let world = SimWorld::open(alloc, board, root)?;
        Ok(SimPort {
            world,
            log,
            phase: Phase::Idle,
        })
    }

    /// How many calls were made on it.
    pub fn calls(&self) -> usize
        ensures { result ≡ length self.now.log }
    {
        self.log.len()
    }

    /// A start goes out. What it is answered.
    pub fn call_start(&mut self, addr: Addr, reading: bool) -> Answer
        requires { length self.old.log < MOST_CALLS }
        ensures answer { result ≡ answer self.old.world addr reading }
        ensures kind { AnswersStart result }
        ensures after { self.new ≡ called self.old (call.Start addr reading) (phase_started reading (answer self.old.world addr reading)) }
    {
        let answer = self.world.start(addr, reading);
        self.log.push_reserved(PortCall::Start(addr, reading));
        self.phase = phase::started(reading, &answer);
        answer
    }

    /// A byte is put. Whether someone acknowledges it.
    pub fn call_put(&mut self, byte: u8) -> bool
        requires { length self.old.log < MOST_CALLS }
        ensures taken { result ≡ takes self.old.world byte }
        ensures after { self.new ≡ called self.old (call.Put byte) (phase_put (takes self.old.world byte)) }
    {
        let acked = self.world.put(byte);
        self.log.push_reserved(PortCall::Put(byte));
        self.phase = phase::put(acked);
        acked
    }

    /// A byte is read, and acknowledged or not.
    pub fn call_get(&mut self, ack: bool) -> u8
        requires { length self.old.log < MOST_CALLS }
        ensures given { result ≡ gives self.old.world }
        ensures after { self.new ≡ called self.old (call.Get ack) (phase_got ack) }
    {
        let byte = self.world.get(ack);
        self.log.push_reserved(PortCall::Get(ack));
        self.phase = phase::got(ack);
        byte
    }

    pub fn call_stop(&mut self)
        requires { length self.old.log < MOST_CALLS }
        ensures { self.new ≡ called self.old call.Stop Idle }
    {
        self.world.stop();
        self.log.push_reserved(PortCall::Stop);
        self.phase = Phase::Idle;
    }

    pub fn call_line(&mut self, mux: MuxId, level: u8)
        requires { length self.old.log < MOST_CALLS }
        ensures { self.new ≡ called self.old (call.Line mux level) Idle }
    {
        self.world.set_line(mux, level);
        self.log.push_reserved(PortCall::Line(mux, level));
        self.phase = Phase::Idle;
    }

    /// A call fails: it acts as a stop.
    pub fn call_fault(&mut self)
        requires { length self.old.log < MOST_CALLS }
        ensures { self.new ≡ called self.old call.Fault Idle }
    {
        self.world.stop();
        self.log.push_reserved(PortCall::Fault);
        self.phase = Phase::Idle;
    }
}

impl Returned for SimPort {
    ghost port = { λ p. p };

    fn take_device(&mut self, number: usize) -> Option<DeviceState> {
        self.world.take_device(number)
    }
}

impl Logged for SimPort {
    fn into_log(self) -> Vec<PortCall> {
        self.log
    }
}

impl Port for SimPort {
    ghost tells = { true };

    ghost world = { λ p. p.world };

    ghost log = { λ p. p.log };

    ghost phase = { λ p. p.phase };

    ghost faults = { λ p. 0 };

    ghost setup = { λ p. [] };

    fn start(&mut self, addr: Addr, reading: bool) -> Result<Answer, Failed> {
        Ok(self.call_start(addr, reading))
    }

    fn put(&mut self, byte: u8) -> Result<bool, Failed> {
        Ok(self.call_put(byte))
    }

    fn get(&mut self, ack: bool) -> Result<u8, Failed> {
        Ok(self.call_get(ack))
    }

    fn stop(&mut self) -> Result<(), Failed> {
        self.call_stop();
        Ok(())
    }

    fn line(&mut self, mux: MuxId, level: u8) -> Result<(), Failed> {
        self.call_line(mux, level);
        Ok(())
    }
}
