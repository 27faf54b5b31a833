//! A port of which the listed calls fail.
ghost use Rattle.std.specs.Prelude.{◌≡◌, ◌<◌, ℕ, true, false, All, get_or, length, IfOk, OnOk, OnErr, is_err};
ghost use Rattle.i2c_base.specs.Limits.{MOST_CALLS};
ghost use Rattle.i2c_base.specs.Phases.{MayStart, MayPut, MayGet, MayStop, MayLine, phase_started, phase_put, phase_got};
ghost use Rattle.i2c_base.specs.declared.port.Phase.TheVariants.{Idle};
ghost use Rattle.i2c_base.specs.declared.port.PortCall.TheVariants as call;
ghost use Rattle.i2c_spec.specs.World.{answer, takes, gives};
ghost use Rattle.ports.specs.LineCalls.{HasLine};
ghost use Rattle.i2c_physics.specs.SimPorts.{called};
ghost use Rattle.i2c_outside.specs.Sinks.{is_listed};
ghost use Rattle.i2c_physics.specs.FailPorts.{AreMarked, FailsJustAt, fails_next, said, after_next, failed_calls_in, fails_on, opening_fails};

use crate::SimPort;
use crate::unplug::{Logged, Returned};
use i2c_base::{Addr, Answer, MOST_CALLS, MuxId, PortCall, SegId};
use i2c_board::Accepted;
use ports::{Failed, Port};
use std::alloc::{AllocError, Global};
use std::marker::Model;
use std::snapshot::Snapshot;
use targets::DeviceState;

/// The port of one root of a board, of which some calls fail: those whose numbers are listed, the first being 0. Such a
/// call acts as a stop.
#[derive(Drop)]
pub struct FailPort {
    sim: SimPort,
    /// The numbers of the calls that fail ..
    fails: Snapshot<Vec<u32>>,
    /// .. are marked here, as far as a log has room for them.
    marks: Vec<bool>,
}

impl Model for FailPort {
    ghost use Rattle.i2c_physics.specs.FailPorts.{FailView, AreMarked, FailsJustAt};

    ghost Value = { FailView };

    ghost view = { λ p. record { port = p.sim; fails = p.fails.value.items } };

    ghost invariant = { λ p. AreMarked p.fails.value.items p.marks.items × FailsJustAt p.fails.value.items p.sim.log };
}

impl FailPort {
    /// The port of this root, in the root's opening world, with the calls of that root that are listed.
    pub(crate) fn open(
        alloc: Global,
        board: &Accepted,
        root: SegId,
        calls: &[(SegId, u32)],
    ) -> Result<Self, AllocError>
        ensures { IfOk result (λ p. p ≡ opening_fails board.now calls.now root) }
    {
        let fails = numbers_on(alloc, calls, root)?;
        let marks = marks_of(alloc, fails.as_slice())?;
        let sim = SimPort::open(alloc, board, root)?;
        Ok(FailPort {
            sim,
            fails: Snapshot::of(&fails),
            marks,
        })
    }

    /// A call has failed just where its number is listed.
    fn fails_as_listed(&self)
        ensures { FailsJustAt self.now.fails self.now.port.log }
    {
        let _ = &self.sim;
    }

    /// The next call fails, where its number is marked.
    fn fail_next(&mut self) -> Result<(), Failed>
        requires { length self.old.port.log < MOST_CALLS }
        ensures fails { is_err result ≡ fails_next self.old }
        ensures passed { OnOk result (self.new ≡ self.old) }
        ensures failed { OnErr result (self.new ≡ record self.old { port = called self.old.port call.Fault Idle }) }
    {
        if is_marked(self.marks.as_slice(), self.sim.calls()) {
            self.sim.call_fault();
            return Err(Failed);
        }
        Ok(())
    }
}

/// The numbers that are listed for this root.
fn numbers_on(alloc: Global, calls: &[(SegId, u32)], root: SegId) -> Result<Vec<u32>, AllocError>
    ensures { IfOk result (λ numbers. numbers.items ≡ fails_on calls.now root) }
{
    let mut numbers = Vec::new(alloc);
    for call in calls {
        if call.0 == root {
            numbers.push(call.1)?;
        }
    }
    Ok(numbers)
}

/// How many marks there are: up to the last of these numbers for which a log has room.
fn marks_for(numbers: &[u32]) -> usize
    ensures { (n : ℕ) → n < MOST_CALLS → is_listed numbers.now n ≡ true → n < result }
{
    let mut count = 0;
    for number in numbers {
        let number = *number as usize;
        if number < MOST_CALLS && count <= number {
            count = number + 1;
        }
    }
    count
}

/// A mark for each of these numbers.
fn marks_of(alloc: Global, numbers: &[u32]) -> Result<Vec<bool>, AllocError>
    ensures { IfOk result (λ marks. AreMarked numbers.now marks.items) }
{
    let count = marks_for(numbers);
    let mut marks = vec![in alloc; false; count]?;
    for number in numbers {
        let number = *number as usize;
        if number < count {
            marks[number] = true;
        }
    }
    Ok(marks)
}

/// This number has a mark.
#[inline(always)]
fn is_marked(marks: &[bool], number: usize) -> bool
    ensures { result ≡ get_or marks.now number false }
{
    number < marks.len() && marks[number]
}

/// Ports as they are given back. A contract sees them in their order.
#[derive(Drop)]
pub(crate) struct GivenPorts {
    ports: Snapshot<Vec<FailPort>>,
}

impl Model for GivenPorts {
    ghost use Rattle.std.specs.Prelude.{List, All};
    ghost use Rattle.i2c_physics.specs.FailPorts.{FailView, FailsJustAt};

    ghost Value = { List FailView };

    ghost view = { λ g. g.ports.value.items };

    ghost invariant = { λ g. All (λ p. FailsJustAt p.fails p.port.log) g.ports.value.items };
}

impl GivenPorts {
    pub(crate) fn of(ports: &Vec<FailPort>) -> Self
        ensures { result ≡ ports.now.items }
    {
        for port in ports.as_slice() {
            port.fails_as_listed();
        }
        GivenPorts {
            ports: Snapshot::of(ports),
        }
    }

    /// On each a call has failed just where its number is listed.
    pub(crate) fn fail_as_listed(&self)
        ensures { All (λ p. FailsJustAt p.fails p.port.log) self.now }
    {
        let _ = &self.ports;
    }
}

impl Returned for FailPort {
    ghost port = { λ p. p.port };

    fn take_device(&mut self, number: usize) -> Option<DeviceState> {
        self.sim.take_device(number)
    }
}

impl Logged for FailPort {
    fn into_log(self) -> Vec<PortCall> {
        self.sim.into_log()
    }
}

impl Port for FailPort {
    ghost tells = { true };

    ghost world = { λ p. p.port.world };

    ghost log = { λ p. p.port.log };

    ghost phase = { λ p. p.port.phase };

    ghost faults = { λ p. failed_calls_in p.port.log };

    ghost setup = { λ p. p.fails };

    fn start(&mut self, addr: Addr, reading: bool) -> Result<Answer, Failed>
        requires phase { MayStart self.old.port.phase }
        requires room { length self.old.port.log < MOST_CALLS }
        ensures answer { result ≡ said self.old (answer self.old.port.world addr reading) }
        ensures after { self.new ≡ after_next self.old (call.Start addr reading) (phase_started reading (answer self.old.port.world addr reading)) }
    {
        self.fail_next()?;
        Ok(self.sim.call_start(addr, reading))
    }

    fn put(&mut self, byte: u8) -> Result<bool, Failed>
        requires phase { MayPut self.old.port.phase }
        requires room { length self.old.port.log < MOST_CALLS }
        ensures answer { result ≡ said self.old (takes self.old.port.world byte) }
        ensures after { self.new ≡ after_next self.old (call.Put byte) (phase_put (takes self.old.port.world byte)) }
    {
        self.fail_next()?;
        Ok(self.sim.call_put(byte))
    }

    fn get(&mut self, ack: bool) -> Result<u8, Failed>
        requires phase { MayGet self.old.port.phase }
        requires room { length self.old.port.log < MOST_CALLS }
        ensures answer { result ≡ said self.old (gives self.old.port.world) }
        ensures after { self.new ≡ after_next self.old (call.Get ack) (phase_got ack) }
    {
        self.fail_next()?;
        Ok(self.sim.call_get(ack))
    }

    fn stop(&mut self) -> Result<(), Failed>
        requires phase { MayStop self.old.port.phase }
        requires room { length self.old.port.log < MOST_CALLS }
        ensures answer { result ≡ said self.old tt }
        ensures after { self.new ≡ after_next self.old call.Stop Idle }
    {
        self.fail_next()?;
        self.sim.call_stop();
        Ok(())
    }

    fn line(&mut self, mux: MuxId, level: u8) -> Result<(), Failed>
        requires phase { MayLine self.old.port.phase }
        requires has { HasLine self.old.port.world mux level }
        requires room { length self.old.port.log < MOST_CALLS }
        ensures answer { result ≡ said self.old tt }
        ensures after { self.new ≡ after_next self.old (call.Line mux level) Idle }
    {
        self.fail_next()?;
        self.sim.call_line(mux, level);
        Ok(())
    }
}
