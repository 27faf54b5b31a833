//! The two wires of a root, as a rig opens them and takes them back.
ghost use Rattle.std.specs.Prelude.{◌≡◌, [], false, IfOk, IsTrue};
ghost use Rattle.i2c_spec.specs.World.{opening_world};
ghost use Rattle.i2c_bits.specs.Stands.{IsFree, world_at};
ghost use Rattle.i2c_bits.specs.Wiring.{AreLetGo};

use bus_lines::BusLines;
use i2c_base::{NoMemory, SegId};
use i2c_bits::{ByteLines, Lines};
use i2c_board::Accepted;
use std::alloc::Global;

/// The two wires of a root with its targets on them, which tell them.
pub trait RootLines: ByteLines {
    /// They tell their targets.
    fn tell()
        ensures { IsTrue Self.tells };

    /// The lines of this root as the board is opened: both are free, nobody is in a message, and nothing was seen on them.
    fn open(alloc: Global, board: &Accepted, root: SegId) -> Result<Self, NoMemory>
        ensures rooted { IfOk result (λ lines. Self.board lines ≡ record { board = board.now; root = root }) }
        ensures let_go { IfOk result (λ lines. AreLetGo (Self.wire lines)) }
        ensures free { IfOk result (λ lines. IsFree (Self.board lines) (Self.bus lines)) }
        ensures world { IfOk result (λ lines. world_at (Self.board lines) false (Self.bus lines) ≡ opening_world board.now root) }
        ensures seen { IfOk result (λ lines. (Self.bus lines).seen ≡ []) };

    /// The lines alone.
    fn into_lines(self) -> BusLines
        ensures board { result.rooted ≡ Self.board self }
        ensures bus { result.bus ≡ Self.bus self };
}

impl RootLines for BusLines {
    fn tell() {}

    fn open(alloc: Global, board: &Accepted, root: SegId) -> Result<Self, NoMemory> {
        BusLines::open(alloc, board, root)
    }

    fn into_lines(self) -> BusLines {
        self
    }
}
