//! A root as its board is opened: a read is cut off, the bus cleared, and the address read anew.
ghost use Rattle.std.specs.Prelude.{◌≡◌, ◌≤◌, ℕ, IfOk};
ghost use Rattle.bus_clear.specs.Cuts.{RISES};
ghost use Rattle.bus_clear.specs.Receives.{RootClears};
ghost use Rattle.bus_clear.specs.declared.cleared.Cleared.TheVariants as cleared;

use crate::cleared::Cleared;
use crate::cut::{CutRead, clear_cut};
use crate::laws::an_opening_world_is_quiet;
use crate::reading::receive;
use bus_lines::BusLines;
use i2c_base::{Addr, Errno, NoMemory, SegId};
use i2c_bits::BitPort;
use i2c_board::Accepted;
use std::alloc::Global;

/// What came of it: whether SDA was high after the cut, the pulses that freed it, and the reply to the read.
#[derive(Clone, Copy, Debug)]
pub struct RootCleared {
    pub high: bool,
    pub pulses: u8,
    pub read: Result<u8, Errno>,
}

/// The pulses that were made.
fn pulses_made(answer: Cleared) -> u8
    ensures { (n : ℕ) → answer ≡ cleared.Free n → result ≡ n }
{
    match answer {
        Cleared::Free { pulses } => pulses,
        Cleared::SclHeld { pulse } => pulse,
        Cleared::SdaHeld => 0,
    }
}

/// Opens a root of the board, cuts a read of this address off, clears the bus, and reads the address.
pub fn clear_root(
    alloc: Global,
    board: &Accepted,
    root: SegId,
    addr: Addr,
    cut: u8,
) -> Result<RootCleared, NoMemory>
    requires { (1 ≤ cut) × (cut ≤ RISES) }
    ensures { IfOk result (λ c. RootClears board.now root addr cut c.high c.pulses c.read) }
{
    an_opening_world_is_quiet();
    let mut lines = BusLines::open(alloc, board, root)?;
    let CutRead { high, cleared } = clear_cut(&mut lines, addr, cut);
    let mut port = BitPort::open(lines);
    Ok(RootCleared {
        high,
        pulses: pulses_made(cleared),
        read: receive(&mut port, addr),
    })
}
