//! The trait of a port, the controller of one root bus.
ghost use Rattle.std.specs.Prelude.{◌≡◌, ℕ, ◌<◌, ◌≤◌, ◌++◌, [], ◌∷◌, Bool, List, OnOk, OnErr, IfOk, IsTrue, length};
ghost use Rattle.i2c_base.specs.Limits.{MOST_CALLS};
ghost use Rattle.i2c_base.specs.Phases.{MayStart, MayPut, MayGet, MayStop, MayLine, AnswersStart, phase_started, phase_put, phase_got};
ghost use Rattle.i2c_spec.specs.World.{World, after, answer, takes, gives};
ghost use Rattle.ports.specs.Causes.{HasCause};
ghost use Rattle.ports.specs.LineCalls.{HasLine};
ghost use Rattle.i2c_base.specs.declared.port.Phase.{Phase};
ghost use Rattle.i2c_base.specs.declared.port.PortCall.{PortCall};
ghost use Rattle.i2c_base.specs.declared.port.PortCall.TheVariants as call;

use crate::Failed;
use i2c_base::{Addr, Answer, MuxId};

/// The controller of one root bus, a byte at a time (UM10204 section 3.1).
///
/// A port that tells holds the world of its root and a log of its calls, with room for `MOST_CALLS` of them. A failed
/// call acts in the world as a stop, and stands in the log as a fault; it ends the message.
pub trait Port: Send + Drop {
    /// It tells its world and its log.
    ghost tells: { Bool };

    ghost world: { Self → World };

    ghost log: { Self → List PortCall };

    /// What its wires have come to since the last stop.
    ghost phase: { Self → Phase };

    ghost faults: { Self → ℕ };

    /// How it was set up, which no call changes.
    ghost setup: { Self → List ℕ };

    /// A start, or a repeated start: Ack, Nack, or Slow where a target holds the clock too long.
    fn start(&mut self, addr: Addr, reading: bool) -> Result<Answer, Failed>
        requires phase { MayStart (phase self.old) }
        requires room { IsTrue tells → length (log self.old) < MOST_CALLS }
        ensures cause { HasCause (faults self.old) (faults self.new) result }
        ensures later { faults self.old ≤ faults self.new }
        ensures setup { setup self.new ≡ setup self.old }
        ensures answers { IfOk result AnswersStart }
        ensures phase { IfOk result (λ a. phase self.new ≡ phase_started reading a) }
        ensures failed { OnErr result (phase self.new ≡ Phase.Idle) }
        ensures answer { IsTrue tells → IfOk result (λ a. a ≡ answer (world self.old) addr reading) }
        ensures world { IsTrue tells → OnOk result (world self.new ≡ after (world self.old) (call.Start addr reading)) }
        ensures log { IsTrue tells → OnOk result (log self.new ≡ log self.old ++ call.Start addr reading ∷ []) }
        ensures world_failed { IsTrue tells → OnErr result (world self.new ≡ after (world self.old) call.Fault) }
        ensures log_failed { IsTrue tells → OnErr result (log self.new ≡ log self.old ++ call.Fault ∷ []) };

    /// Sends a byte, and tells whether it was acknowledged.
    fn put(&mut self, byte: u8) -> Result<bool, Failed>
        requires phase { MayPut (phase self.old) }
        requires room { IsTrue tells → length (log self.old) < MOST_CALLS }
        ensures cause { HasCause (faults self.old) (faults self.new) result }
        ensures later { faults self.old ≤ faults self.new }
        ensures setup { setup self.new ≡ setup self.old }
        ensures phase { IfOk result (λ acked. phase self.new ≡ phase_put acked) }
        ensures failed { OnErr result (phase self.new ≡ Phase.Idle) }
        ensures answer { IsTrue tells → IfOk result (λ acked. acked ≡ takes (world self.old) byte) }
        ensures world { IsTrue tells → OnOk result (world self.new ≡ after (world self.old) (call.Put byte)) }
        ensures log { IsTrue tells → OnOk result (log self.new ≡ log self.old ++ call.Put byte ∷ []) }
        ensures world_failed { IsTrue tells → OnErr result (world self.new ≡ after (world self.old) call.Fault) }
        ensures log_failed { IsTrue tells → OnErr result (log self.new ≡ log self.old ++ call.Fault ∷ []) };

    /// Reads a byte, and acknowledges it or not: the last byte of a message is not acknowledged.
    fn get(&mut self, ack: bool) -> Result<u8, Failed>
        requires phase { MayGet (phase self.old) }
        requires room { IsTrue tells → length (log self.old) < MOST_CALLS }
        ensures cause { HasCause (faults self.old) (faults self.new) result }
        ensures later { faults self.old ≤ faults self.new }
        ensures setup { setup self.new ≡ setup self.old }
        ensures phase { OnOk result (phase self.new ≡ phase_got ack) }
        ensures failed { OnErr result (phase self.new ≡ Phase.Idle) }
        ensures answer { IsTrue tells → IfOk result (λ byte. byte ≡ gives (world self.old)) }
        ensures world { IsTrue tells → OnOk result (world self.new ≡ after (world self.old) (call.Get ack)) }
        ensures log { IsTrue tells → OnOk result (log self.new ≡ log self.old ++ call.Get ack ∷ []) }
        ensures world_failed { IsTrue tells → OnErr result (world self.new ≡ after (world self.old) call.Fault) }
        ensures log_failed { IsTrue tells → OnErr result (log self.new ≡ log self.old ++ call.Fault ∷ []) };

    fn stop(&mut self) -> Result<(), Failed>
        requires phase { MayStop (phase self.old) }
        requires room { IsTrue tells → length (log self.old) < MOST_CALLS }
        ensures cause { HasCause (faults self.old) (faults self.new) result }
        ensures later { faults self.old ≤ faults self.new }
        ensures setup { setup self.new ≡ setup self.old }
        ensures phase { phase self.new ≡ Phase.Idle }
        ensures world { IsTrue tells → OnOk result (world self.new ≡ after (world self.old) call.Stop) }
        ensures log { IsTrue tells → OnOk result (log self.new ≡ log self.old ++ call.Stop ∷ []) }
        ensures world_failed { IsTrue tells → OnErr result (world self.new ≡ after (world self.old) call.Fault) }
        ensures log_failed { IsTrue tells → OnErr result (log self.new ≡ log self.old ++ call.Fault ∷ []) };

    /// Sets the line of a gpio mux of this root: level 0 closes it, level k opens channel k - 1. A failure leaves
    /// the level as it was.
    fn line(&mut self, mux: MuxId, level: u8) -> Result<(), Failed>
        requires phase { MayLine (phase self.old) }
        requires has { IsTrue tells → HasLine (world self.old) mux level }
        requires room { IsTrue tells → length (log self.old) < MOST_CALLS }
        ensures cause { HasCause (faults self.old) (faults self.new) result }
        ensures later { faults self.old ≤ faults self.new }
        ensures setup { setup self.new ≡ setup self.old }
        ensures phase { phase self.new ≡ Phase.Idle }
        ensures world { IsTrue tells → OnOk result (world self.new ≡ after (world self.old) (call.Line mux level)) }
        ensures log { IsTrue tells → OnOk result (log self.new ≡ log self.old ++ call.Line mux level ∷ []) }
        ensures world_failed { IsTrue tells → OnErr result (world self.new ≡ after (world self.old) call.Fault) }
        ensures log_failed { IsTrue tells → OnErr result (log self.new ≡ log self.old ++ call.Fault ∷ []) };
}
