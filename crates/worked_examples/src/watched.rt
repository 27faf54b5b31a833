//! Two wires of a board with somebody who watches them, so that each byte goes over them bit by bit.
ghost use Rattle.std.specs.Prelude.{◌≡◌, IfOk, false};
ghost use Rattle.i2c_bits.specs.Stands.{IsFree};
ghost use Rattle.i2c_bits.specs.Wiring.{AreLetGo};

use bus_lines::BusLines;
use case_parts::same_device;
use i2c_base::{MuxId, NoMemory, SegId};
use i2c_bits::{BitPort, ByteLines, ClosedPort, Lines};
use i2c_board::Accepted;
use std::alloc::Global;
use std::marker::Model;

/// The lines of a root, and how often SCL was seen to rise. They take no byte at once.
#[derive(Drop)]
pub struct Watched {
    lines: BusLines,
    /// SCL was pulled low since it was last seen high.
    was_low: bool,
    rises: u64,
}

impl Model for Watched {
    ghost use Rattle.bus_lines.specs.LinesViews.{LinesView};

    ghost Value = { LinesView };

    ghost view = { λ w. w.lines };
}

impl Watched {
    /// The lines of this root as the board is opened.
    pub fn open(alloc: Global, board: &Accepted, root: SegId) -> Result<Self, NoMemory>
        ensures let_go { IfOk result (λ watched. AreLetGo watched.wire) }
        ensures free { IfOk result (λ watched. IsFree watched.rooted watched.bus) }
    {
        Ok(Watched {
            lines: BusLines::open(alloc, board, root)?,
            was_low: false,
            rises: 0,
        })
    }
}

impl Lines for Watched {
    ghost use Rattle.std.specs.Prelude.{true};

    ghost tells = { true };

    ghost wire = { λ w. w.wire };

    ghost board = { λ w. w.rooted };

    ghost bus = { λ w. w.bus };

    fn pull(&mut self, scl: bool, sda: bool) {
        self.was_low = self.was_low || scl;
        self.lines.pull(scl, sda);
    }

    fn look(&mut self) -> (bool, bool) {
        let levels = self.lines.look();
        if levels.0 && self.was_low {
            self.rises = self.rises.saturating_add(1);
            self.was_low = false;
        }
        levels
    }

    fn line(&mut self, mux: MuxId, level: u8) {
        self.lines.line(mux, level);
    }
}

impl ByteLines for Watched {}

/// A port that sends whole bytes and one whose wires are watched have come to the same: SCL rose as often on both, and was
/// seen to rise as often, SDA changed as often while it was high, and each of so many devices of the board is in the same state.
pub fn same_ends(
    alloc: Global,
    port: BitPort<BusLines>,
    watched: BitPort<Watched>,
    devices: usize,
) -> bool {
    let ClosedPort { lines: short, .. } = port.into_parts();
    let ClosedPort { lines: long, .. } = watched.into_parts();
    let edges = short.edges();
    let flips = short.flips();
    edges == long.lines.edges()
        && edges == long.rises
        && flips == long.lines.flips()
        && same_targets(alloc, short, long.lines, devices)
}

// Each of so many devices is in the same state on both, or on neither.
fn same_targets(alloc: Global, lines: BusLines, others: BusLines, devices: usize) -> bool {
    let mut one = lines.apart();
    let mut other = others.apart();
    for number in 0..devices {
        let same = match (one.take_device(number), other.take_device(number)) {
            (Some(one), Some(other)) => same_device(alloc, &one, &other),
            (None, None) => true,
            _ => false,
        };
        if !same {
            return false;
        }
    }
    true
}
