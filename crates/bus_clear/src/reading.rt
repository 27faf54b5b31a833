//! A ReceiveByte on the port of a root.
ghost use Rattle.std.specs.Prelude.{◌≡◌, ◌≤◌, ◌<◌, ◌+◌, ℕ, IsTrue, false, length, Ok, Err};
ghost use Rattle.i2c_base.specs.Limits.{MOST_CALLS};
ghost use Rattle.i2c_base.specs.Phases.{MayStop};
ghost use Rattle.i2c_base.specs.declared.port.Phase.{Phase};
ghost use Rattle.i2c_base.specs.declared.port.PortCall.TheVariants as call;
ghost use Rattle.i2c_spec.specs.World.{after, gives};
ghost use Rattle.bus_clear.specs.Receives.{received, reply_of};

use i2c_base::{Addr, Answer, Errno};
use i2c_bits::{BitPort, ByteLines};
use ports::{Failed, Port};

/// The message ends early, with this error.
fn end_with<L: ByteLines + Send>(port: &mut BitPort<L>, errno: Errno) -> Result<u8, Errno>
    requires phase { MayStop port.old.phase }
    requires room { IsTrue L.tells → length port.old.log < MOST_CALLS }
    ensures reply { IsTrue L.tells → result ≡ Err errno }
    ensures world { IsTrue L.tells → port.new.world ≡ after port.old.world call.Stop }
{
    match port.stop() {
        Ok(()) => Err(errno),
        Err(Failed) => Err(Errno::Eremoteio),
    }
}

/// The byte, which is the last, and the stop.
fn end_read<L: ByteLines + Send>(port: &mut BitPort<L>) -> Result<u8, Errno>
    requires phase { port.old.phase ≡ Phase.Reading }
    requires room { IsTrue L.tells → length port.old.log + 2 ≤ MOST_CALLS }
    ensures reply { IsTrue L.tells → result ≡ Ok (gives port.old.world) }
    ensures world { IsTrue L.tells → port.new.world ≡ after (after port.old.world (call.Get false)) call.Stop }
{
    match port.get(false) {
        Ok(byte) => match port.stop() {
            Ok(()) => Ok(byte),
            Err(Failed) => Err(Errno::Eremoteio),
        },
        Err(Failed) => Err(Errno::Eremoteio),
    }
}

/// Reads one byte (SMBus 3.2 section 6.5.3), as a transfer of its own.
pub fn receive<L: ByteLines + Send>(port: &mut BitPort<L>, addr: Addr) -> Result<u8, Errno>
    requires idle { port.old.phase ≡ Phase.Idle }
    requires room { IsTrue L.tells → length port.old.log + 3 ≤ MOST_CALLS }
    ensures reply { IsTrue L.tells → (limit : ℕ) → result ≡ reply_of (received limit port.old.world addr) }
    ensures world { IsTrue L.tells → (limit : ℕ) → port.new.world ≡ (received limit port.old.world addr).now }
{
    match port.start(addr, true) {
        Ok(Answer::Ack) => end_read(port),
        Ok(Answer::Slow) => end_with(port, Errno::Etimedout),
        Ok(Answer::Nack) => end_with(port, Errno::Enxio),
        Ok(Answer::Byte(_)) => end_with(port, Errno::Enxio),
        Ok(Answer::Nothing) => end_with(port, Errno::Enxio),
        Err(Failed) => Err(Errno::Eremoteio),
    }
}
