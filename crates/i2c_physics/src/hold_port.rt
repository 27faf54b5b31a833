//! A port that waits for another root.
ghost use Rattle.std.specs.Prelude.{◌≡◌, [], true, IfOk};
ghost use Rattle.i2c_physics.specs.SimPorts.{opening_port};

use crate::SimPort;
use crate::unplug::{Logged, Returned};
use crate::words::Words;
use i2c_base::{Addr, Answer, MuxId, PortCall, SegId};
use i2c_board::Accepted;
use ports::{Failed, Port};
use std::alloc::{AllocError, Global};
use std::marker::Model;
use std::sync::Arc;
use targets::DeviceState;

/// The port of one root of a board, which waits at its first start where the root is one of two that wait for each other.
/// It never fails.
#[derive(Drop)]
pub struct HoldPort {
    sim: SimPort,
    root: SegId,
    /// It has come to its first start.
    came: bool,
    words: Arc<Words, Global>,
}

impl Model for HoldPort {
    ghost use Rattle.i2c_physics.specs.SimPorts.{PortView};

    ghost Value = { PortView };

    ghost view = { λ p. p.sim };
}

impl HoldPort {
    /// The port of this root, in the root's opening world, with a share of these words.
    pub(crate) fn open(
        alloc: Global,
        board: &Accepted,
        root: SegId,
        words: &Arc<Words, Global>,
    ) -> Result<Self, AllocError>
        ensures { IfOk result (λ p. p ≡ opening_port board.now root) }
    {
        let words = Arc::try_clone(words)?;
        let sim = SimPort::open(alloc, board, root)?;
        Ok(HoldPort {
            sim,
            root,
            came: false,
            words,
        })
    }

    /// It comes to a start, and waits where that is its first.
    fn come(&mut self)
        ensures { self.new ≡ self.old }
    {
        if !self.came {
            self.came = true;
            self.words.come(self.root);
        }
    }
}

impl Returned for HoldPort {
    ghost port = { λ p. p };

    fn take_device(&mut self, number: usize) -> Option<DeviceState> {
        self.sim.take_device(number)
    }
}

impl Logged for HoldPort {
    fn into_log(self) -> Vec<PortCall> {
        self.sim.into_log()
    }
}

impl Port for HoldPort {
    ghost tells = { true };

    ghost world = { λ p. p.world };

    ghost log = { λ p. p.log };

    ghost phase = { λ p. p.phase };

    ghost faults = { λ p. 0 };

    ghost setup = { λ p. [] };

    fn start(&mut self, addr: Addr, reading: bool) -> Result<Answer, Failed> {
        self.come();
        Ok(self.sim.call_start(addr, reading))
    }

    fn put(&mut self, byte: u8) -> Result<bool, Failed> {
        Ok(self.sim.call_put(byte))
    }

    fn get(&mut self, ack: bool) -> Result<u8, Failed> {
        Ok(self.sim.call_get(ack))
    }

    fn stop(&mut self) -> Result<(), Failed> {
        self.sim.call_stop();
        self.words.stop(self.root);
        Ok(())
    }

    fn line(&mut self, mux: MuxId, level: u8) -> Result<(), Failed> {
        self.sim.call_line(mux, level);
        Ok(())
    }
}
