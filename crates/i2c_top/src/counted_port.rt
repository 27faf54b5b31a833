//! A port that accounts for its faults: it counted each that stands in its log.
ghost use Rattle.std.specs.Prelude.{◌≡◌, [], IsTrue};
ghost use Rattle.i2c_top.specs.Faults.{AccountsForFaults};

use i2c_base::{Addr, Answer, MuxId};
use ports::{Failed, Port};
use std::marker::Model;

/// A port that counted each fault of its log. A contract sees the port.
#[derive(Drop)]
pub struct CountedPort<P: Port> {
    port: P,
}

impl<P: Port> Model for CountedPort<P> {
    ghost use Rattle.i2c_top.specs.Faults.{AccountsForFaults};

    ghost Value = { P };

    ghost view = { λ x. x.port };

    ghost invariant = { λ x. AccountsForFaults P.Port x.port };
}

impl<P: Port> CountedPort<P> {
    /// A port of which no call was made yet.
    pub fn new(port: P) -> Self
        requires { IsTrue P.tells → P.log port ≡ [] }
        ensures { result ≡ port }
    {
        CountedPort { port }
    }

    /// The port again.
    pub fn into_port(self) -> P
        ensures port { result ≡ self }
        ensures accounts { AccountsForFaults P.Port result }
    {
        self.port
    }
}

impl<P: Port> Port for CountedPort<P> {
    ghost tells = { P.tells };

    ghost world = { λ p. P.world p };

    ghost log = { λ p. P.log p };

    ghost phase = { λ p. P.phase p };

    ghost faults = { λ p. P.faults p };

    ghost setup = { λ p. P.setup p };

    #[inline(always)]
    fn start(&mut self, addr: Addr, reading: bool) -> Result<Answer, Failed> {
        self.port.start(addr, reading)
    }

    #[inline(always)]
    fn put(&mut self, byte: u8) -> Result<bool, Failed> {
        self.port.put(byte)
    }

    #[inline(always)]
    fn get(&mut self, ack: bool) -> Result<u8, Failed> {
        self.port.get(ack)
    }

    #[inline(always)]
    fn stop(&mut self) -> Result<(), Failed> {
        self.port.stop()
    }

    #[inline(always)]
    fn line(&mut self, mux: MuxId, level: u8) -> Result<(), Failed> {
        self.port.line(mux, level)
    }
}
