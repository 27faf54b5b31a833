//! Lines whose levels are recorded.
ghost use Rattle.std.specs.Prelude.{◌≡◌, true, IfSome};
ghost use Rattle.bus_waves.specs.Recordings.{AreSteps};

use crate::record::Record;
use bus_lines::BusLines;
use i2c_base::{MuxId, NoMemory, SegId};
use i2c_bits::{ByteLines, Lines};
use i2c_board::Accepted;
use i2c_physics::RootLines;
use std::alloc::Global;
use std::marker::Model;

/// The lines of a root with the levels behind each step of their controller. No byte goes over them at once. A contract sees the lines;
/// by their type what is kept, where it is whole, is of all that was done on them.
#[derive(Drop)]
pub struct Recorded {
    lines: BusLines,
    kept: Record,
}

impl Model for Recorded {
    ghost use Rattle.std.specs.Prelude.{◌≡◌, true};
    ghost use Rattle.bus_lines.specs.LinesViews.{LinesView};
    ghost use Rattle.bus_waves.specs.Recordings.{IsRecording};

    ghost Value = { LinesView };

    ghost view = { λ r. r.lines };

    ghost invariant = { λ r. r.kept.whole ≡ true → IsRecording r.lines.rooted r.lines.bus r.kept.scl r.kept.sda r.kept.free r.kept.steps.items };
}

impl Recorded {
    /// The levels behind each step, a byte a step: 1 where SCL is high, and 2 where SDA is. None where there was no memory for them all.
    pub fn steps(&self) -> Option<&[u8]>
        ensures { IfSome result (λ steps. AreSteps self.now.rooted self.now.bus steps.now) }
    {
        if self.kept.whole {
            Some(self.kept.steps.as_slice())
        } else {
            None
        }
    }
}

impl Lines for Recorded {
    ghost tells = { true };

    ghost wire = { λ r. r.wire };

    ghost board = { λ r. r.rooted };

    ghost bus = { λ r. r.bus };

    fn pull(&mut self, scl: bool, sda: bool) {
        self.lines.pull(scl, sda);
        let (clock, data) = self.lines.levels();
        self.kept.keep(clock, data);
    }

    fn look(&mut self) -> (bool, bool) {
        let seen = self.lines.look();
        let (clock, data) = self.lines.levels();
        self.kept.keep(clock, data);
        seen
    }

    fn line(&mut self, mux: MuxId, level: u8) {
        self.kept.rests();
        self.lines.line(mux, level);
        let (clock, data) = self.lines.levels();
        self.kept.keep(clock, data);
    }
}

impl ByteLines for Recorded {}

impl RootLines for Recorded {
    fn tell() {}

    fn open(alloc: Global, board: &Accepted, root: SegId) -> Result<Self, NoMemory> {
        Ok(Recorded {
            lines: BusLines::open(alloc, board, root)?,
            kept: Record::open(alloc),
        })
    }

    fn into_lines(self) -> BusLines {
        self.lines
    }
}
