//! Calls as they come, on a port over two wires.
ghost use Rattle.std.specs.Prelude.{◌<◌, ◌≤◌, ◌+◌, IsTrue, length};
ghost use Rattle.i2c_base.specs.Limits.{MOST_CALLS};

use i2c_base::{Addr, Answer, MOST_CALLS, Phase, PortCall};
use i2c_bits::{BitPort, ByteLines};
use ports::{Failed, Port};
use std::marker::Model;

/// A port on which calls are made as they come. It counts them, since a port may have no more of them than a whole run.
#[derive(Drop)]
pub struct Driver<L: ByteLines> {
    port: BitPort<L>,
    calls: usize,
}

impl<L: ByteLines> Model for Driver<L> {
    ghost use Rattle.std.specs.Prelude.{IsTrue, ◌≤◌, length};
    ghost use Rattle.i2c_bits.specs.PortViews.{BitPortView};

    ghost Value = { BitPortView };

    ghost view = { λ d. d.port };

    ghost invariant = { λ d. IsTrue L.tells → length d.port.log ≤ d.calls };
}

impl<L: ByteLines> Driver<L> {
    /// Drives a port on which no call was made.
    pub fn of(port: BitPort<L>) -> Self
        requires { length port.log ≤ 0 }
    {
        Driver { port, calls: 0 }
    }

    /// The port.
    pub fn into_port(self) -> BitPort<L> {
        self.port
    }
}

impl<L: ByteLines + Send> Driver<L> {
    /// Makes a call, and gives its answer. None where what the wires have come to doesn't allow it, where it fails, where it sets
    /// a line, and after as many calls as a run may have.
    pub fn make(&mut self, call: PortCall) -> Option<Answer> {
        if self.calls >= MOST_CALLS {
            return None;
        }
        self.calls += 1;
        make(&mut self.port, call)
    }
}

fn make<L: ByteLines + Send>(port: &mut BitPort<L>, call: PortCall) -> Option<Answer>
    requires { IsTrue L.tells → length port.old.log < MOST_CALLS }
    ensures { IsTrue L.tells → length port.new.log ≤ length port.old.log + 1 }
{
    match call {
        PortCall::Start(addr, reading) => start(port, addr, reading),
        PortCall::Put(byte) => put(port, byte),
        PortCall::Get(ack) => get(port, ack),
        PortCall::Stop => stop(port),
        PortCall::Fault => end(port),
        PortCall::Line(_, _) => None,
    }
}

fn start<L: ByteLines + Send>(port: &mut BitPort<L>, addr: Addr, reading: bool) -> Option<Answer>
    requires { IsTrue L.tells → length port.old.log < MOST_CALLS }
    ensures { IsTrue L.tells → length port.new.log ≤ length port.old.log + 1 }
{
    match port.phase() {
        Phase::Reading | Phase::Slow => None,
        Phase::Idle | Phase::Writing | Phase::PutRefused | Phase::LastRead | Phase::Unanswered =>
            match port.start(addr, reading) {
                Ok(answer) => Some(answer),
                Err(Failed) => None,
            },
    }
}

fn put<L: ByteLines + Send>(port: &mut BitPort<L>, byte: u8) -> Option<Answer>
    requires { IsTrue L.tells → length port.old.log < MOST_CALLS }
    ensures { IsTrue L.tells → length port.new.log ≤ length port.old.log + 1 }
{
    match port.phase() {
        Phase::Writing => match port.put(byte) {
            Ok(true) => Some(Answer::Ack),
            Ok(false) => Some(Answer::Nack),
            Err(Failed) => None,
        },
        _ => None,
    }
}

fn get<L: ByteLines + Send>(port: &mut BitPort<L>, ack: bool) -> Option<Answer>
    requires { IsTrue L.tells → length port.old.log < MOST_CALLS }
    ensures { IsTrue L.tells → length port.new.log ≤ length port.old.log + 1 }
{
    match port.phase() {
        Phase::Reading => match port.get(ack) {
            Ok(byte) => Some(Answer::Byte(byte)),
            Err(Failed) => None,
        },
        _ => None,
    }
}

fn stop<L: ByteLines + Send>(port: &mut BitPort<L>) -> Option<Answer>
    requires { IsTrue L.tells → length port.old.log < MOST_CALLS }
    ensures { IsTrue L.tells → length port.new.log ≤ length port.old.log + 1 }
{
    match port.phase() {
        Phase::Idle | Phase::Reading => None,
        Phase::Writing | Phase::PutRefused | Phase::LastRead | Phase::Unanswered | Phase::Slow =>
            match port.stop() {
                Ok(()) => Some(Answer::Nothing),
                Err(Failed) => None,
            },
    }
}

// A stop where a message is in progress.
fn end<L: ByteLines + Send>(port: &mut BitPort<L>) -> Option<Answer>
    requires { IsTrue L.tells → length port.old.log < MOST_CALLS }
    ensures { IsTrue L.tells → length port.new.log ≤ length port.old.log + 1 }
{
    match port.phase() {
        Phase::Idle => Some(Answer::Nothing),
        _ => stop(port),
    }
}
