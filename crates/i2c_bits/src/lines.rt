//! The two lines of a root, as a controller drives them.
ghost use Rattle.std.specs.Prelude.{◌≡◌, Bool, IsTrue, false};
ghost use Rattle.ports.specs.LineCalls.{HasLine};
ghost use Rattle.wire_spec.specs.Bus.{Bus, pulled, looked, scl_level, sda_level, bit_steps};
ghost use Rattle.wire_spec.specs.Sites.{NodeState};
ghost use Rattle.wire_spec.specs.declared.mode.Mode.TheVariants.{In, Give};
ghost use Rattle.wire_spec.specs.Wires.{bits};
ghost use Rattle.wire_spec.specs.Calls.{sent_byte, read_byte, stop_pulls};
ghost use Rattle.i2c_bits.specs.Wiring.{Rooted, Wire, AreLetGo, wire_pulled, wire_looked, the_table, mask_at, lined, came_acked, CameRead, CameAnswer, CameBegin, came_stop, LooksTell, StartLooksTell, StopLooksTell};
ghost use Rattle.i2c_bits.specs.Stands.{world_at, StandsIn, IsCalled, MayBegin, CalledTold, MayEnd};

use crate::bytes::{read_byte, write_byte};
use crate::messages::{address, start_or_restart, stop};
use i2c_base::{Answer, MuxId};

/// SCL stayed low for too many looks.
#[derive(Clone, Copy)]
pub struct SclTimeout;

/// The lines of a root, SCL and SDA (UM10204 section 3.1.1). A contract sees the board and its root, which never change, and
/// what the pulls and looks have come to; of lines that tell also their targets, bit by bit.
pub trait Lines: Drop {
    /// It tells its targets.
    ghost tells: { Bool };

    ghost wire: { Self → Wire };

    ghost board: { Self → Rooted };

    ghost bus: { Self → Bus NodeState };

    /// Pulls each line low, where that is true, or lets it go.
    fn pull(&mut self, scl: bool, sda: bool)
        ensures wire { wire self.new ≡ wire_pulled (wire self.old) scl sda }
        ensures board { board self.new ≡ board self.old }
        ensures bus { IsTrue tells → bus self.new ≡ pulled the_table (mask_at (board self.old)) (bus self.old) scl sda };

    /// The levels of SCL and SDA: true is high. A target that holds SCL low has a look less to go.
    fn look(&mut self) -> (bool, bool)
        ensures wire { wire self.new ≡ wire_looked (wire self.old) result.0 result.1 }
        ensures board { board self.new ≡ board self.old }
        ensures clock { IsTrue tells → result.0 ≡ scl_level (bus self.old) }
        ensures level { IsTrue tells → result.1 ≡ sda_level the_table (bus self.old) }
        ensures bus { IsTrue tells → bus self.new ≡ looked the_table (bus self.old) };

    /// Sets the level of a mux that is switched by its line, while both lines are let go: level 0 closes it, level k opens
    /// channel k - 1.
    fn line(&mut self, mux: MuxId, level: u8)
        requires free { AreLetGo (wire self.old) }
        requires has { IsTrue tells → HasLine (world_at (board self.old) false (bus self.old)) mux level }
        ensures wire { wire self.new ≡ wire self.old }
        ensures board { board self.new ≡ board self.old }
        ensures bus { IsTrue tells → bus self.new ≡ lined (mask_at (board self.old)) mux level (bus self.old) };
}

/// Lines that take whole bytes too. Each call comes to what its nine clocks come to, as if by pulls and looks: over lines that
/// someone watches it makes them, and it may be shorter where nobody does.
pub trait ByteLines: Lines {
    /// A start, or a repeated one within a message: all that is joined takes in an address (UM10204 section 3.1.4).
    fn start(&mut self, busy: bool) -> Result<(), SclTimeout>
        requires stands { IsTrue Self.tells → MayBegin busy (Self.board self.old) (Self.bus self.old) }
        ensures board { Self.board self.new ≡ Self.board self.old }
        ensures looks { LooksTell result (Self.wire self.old) (Self.wire self.new) }
        ensures bus { IsTrue Self.tells → CameBegin busy result (Self.board self.old) (Self.bus self.old) (Self.bus self.new) }
        ensures told { IsTrue Self.tells → CalledTold busy result (Self.bus self.old) (Self.bus self.new) }
    {
        start_or_restart(self, busy)
    }

    /// A stop within a message (UM10204 section 3.1.4).
    fn stop(&mut self) -> Result<(), SclTimeout>
        requires stands { IsTrue Self.tells → MayEnd false (Self.board self.old) (Self.bus self.old) }
        ensures board { Self.board self.new ≡ Self.board self.old }
        ensures bus { IsTrue Self.tells
            → came_stop result (Self.bus self.new) ≡ stop_pulls the_table (mask_at (Self.board self.old)) (Self.bus self.old) }
        ensures looks { StopLooksTell result (Self.wire self.old) (Self.wire self.new) }
    {
        stop(self)
    }

    /// Sends a byte, and tells whether it is acknowledged (UM10204 sections 3.1.5 and 3.1.6).
    fn send_byte(&mut self, byte: u8) -> Result<bool, SclTimeout>
        requires stands { IsTrue Self.tells → StandsIn (Self.board self.old) (In false 8 0) (Self.bus self.old) }
        ensures board { Self.board self.new ≡ Self.board self.old }
        ensures bus { IsTrue Self.tells → came_acked result (Self.bus self.new) ≡ sent_byte the_table (mask_at (Self.board self.old)) byte (Self.bus self.old) }
        ensures looks { LooksTell result (Self.wire self.old) (Self.wire self.new) }
    {
        write_byte(self, byte)
    }

    /// Reads a byte, and answers it in the ninth clock: low for more (UM10204 sections 3.1.5 and 3.1.6).
    fn receive_byte(&mut self, ack: bool) -> Result<u8, SclTimeout>
        requires stands { IsTrue Self.tells → StandsIn (Self.board self.old) (Give 8) (Self.bus self.old) }
        ensures board { Self.board self.new ≡ Self.board self.old }
        ensures bus { IsTrue Self.tells → CameRead result (Self.bus self.new) (read_byte the_table (mask_at (Self.board self.old)) ack (Self.bus self.old)) }
        ensures looks { LooksTell result (Self.wire self.old) (Self.wire self.new) }
    {
        read_byte(self, ack)
    }

    /// Sends an address byte after a start, and gives its answer: a clock that is held for too long in the ninth clock is Slow
    /// (UM10204 sections 3.1.9 and 3.1.10).
    fn address_byte(&mut self, byte: u8) -> Result<Answer, SclTimeout>
        requires stands { IsTrue Self.tells → IsCalled (Self.bus self.old) }
        ensures board { Self.board self.new ≡ Self.board self.old }
        ensures bus { IsTrue Self.tells
            → CameAnswer result (Self.bus self.new) (bit_steps the_table (mask_at (Self.board self.old)) 0 (bits 8 byte) (Self.bus self.old))
            (sent_byte the_table (mask_at (Self.board self.old)) byte (Self.bus self.old)) }
        ensures looks { StartLooksTell result (Self.wire self.old) (Self.wire self.new) }
    {
        address(self, byte)
    }
}
