//! A port of one's own: a bus on which nobody answers. It tells no world.
ghost use Rattle.std.specs.Prelude.{◌≡◌, false, []};
ghost use Rattle.i2c_base.specs.declared.port.Phase.TheVariants as phase;
ghost use Rattle.i2c_spec.specs.World.{opening_world};

use i2c_base::{Addr, Answer, MuxId, Phase};
use ports::{Failed, Port};

/// A controller of a bus without targets. Its calls never fail.
#[derive(Clone, Copy)]
pub struct QuietPort {
    phase: Phase,
}

impl QuietPort {
    /// It is idle.
    pub fn new() -> Self
        ensures { result.phase ≡ phase.Idle }
    {
        QuietPort { phase: Phase::Idle }
    }
}

impl Port for QuietPort {
    ghost tells = { false };

    ghost world = { λ p. opening_world (record { version = 1; roots = []; muxes = []; devices = [] }) 0 };

    ghost log = { λ p. [] };

    ghost phase = { λ p. p.phase };

    ghost faults = { λ p. 0 };

    ghost setup = { λ p. [] };

    fn start(&mut self, _addr: Addr, _reading: bool) -> Result<Answer, Failed> {
        self.phase = Phase::Unanswered;
        Ok(Answer::Nack)
    }

    fn put(&mut self, _byte: u8) -> Result<bool, Failed> {
        self.phase = Phase::PutRefused;
        Ok(false)
    }

    fn get(&mut self, ack: bool) -> Result<u8, Failed> {
        self.phase = if ack { Phase::Reading } else { Phase::LastRead };
        Ok(0xff)
    }

    fn stop(&mut self) -> Result<(), Failed> {
        self.phase = Phase::Idle;
        Ok(())
    }

    fn line(&mut self, _mux: MuxId, _level: u8) -> Result<(), Failed> {
        self.phase = Phase::Idle;
        Ok(())
    }
}
