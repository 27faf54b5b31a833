//! Bus clear.
ghost use Rattle.std.specs.Prelude.{◌≡◌, IfOk, IsTrue};
ghost use Rattle.bus_clear.specs.Clears.{ClearLooksTell};
ghost use Rattle.bus_clear.specs.Cuts.{MOST_PULSES};
ghost use Rattle.bus_clear.specs.Pulls as wire;
ghost use Rattle.bus_clear.specs.Pulls.{clearing, clear_from, clear_pulls};
ghost use Rattle.i2c_bits.specs.Wiring.{the_table, mask_at, came, AreLetGo, LooksMade};
ghost use Rattle.ports.specs.Causes.{counted};
ghost use Rattle.wire_spec.specs.Calls.{STOP_LOOKS};

use crate::cleared::Cleared;
use i2c_bits::{Lines, STOP_LOOKS, SclTimeout, release};

/// A controller makes so many pulses at most (UM10204 section 3.1.16).
const MOST_PULSES: u8 = 9;

/// A pulse: SCL is pulled, let go, and looked at until it is high. The level of SDA then.
fn pulse<L: Lines>(lines: &mut L) -> Result<bool, SclTimeout>
    requires { AreLetGo (L.wire lines.old) }
    ensures board { L.board lines.new ≡ L.board lines.old }
    ensures bus { IsTrue L.tells → came 0 result (L.bus lines.new) ≡ wire.pulse the_table (mask_at (L.board lines.old)) (L.bus lines.old) }
    ensures looks { LooksMade STOP_LOOKS result (L.wire lines.old) (L.wire lines.new) }
    ensures let_go { AreLetGo (L.wire lines.new) }
    ensures seen { IfOk result (λ level. (L.wire lines.new).sda_high ≡ level) }
    ensures pulses { (L.wire lines.new).pulses ≡ counted (L.wire lines.old).pulses }
{
    lines.pull(true, false);
    release(lines, false, STOP_LOOKS)
}

/// A start and a stop.
fn start_and_stop<L: Lines>(lines: &mut L)
    requires { AreLetGo (L.wire lines.old) }
    ensures board { L.board lines.new ≡ L.board lines.old }
    ensures bus { IsTrue L.tells → L.bus lines.new ≡ wire.start_stop the_table (mask_at (L.board lines.old)) (L.bus lines.old) }
    ensures wire { L.wire lines.new ≡ record (L.wire lines.old) { low = 0 } }
{
    lines.pull(false, true);
    lines.pull(false, false);
}

/// Makes pulses until SDA is high, so many at most, and then a start and a stop. SCL is high, and SDA looked so.
fn make_pulses<L: Lines>(lines: &mut L, level: bool) -> Cleared
    requires let_go { AreLetGo (L.wire lines.old) }
    requires seen { (L.wire lines.old).sda_high ≡ level }
    ensures board { L.board lines.new ≡ L.board lines.old }
    ensures bus { IsTrue L.tells → clearing result (L.bus lines.new) ≡ clear_from the_table (mask_at (L.board lines.old)) level MOST_PULSES 0 (L.bus lines.old) }
    ensures looks { ClearLooksTell result (L.wire lines.old) (L.wire lines.new) }
{
    let mut high = level;
    let mut pulses: u8 = 0;
    while !high {
        if pulses == MOST_PULSES {
            return Cleared::SdaHeld;
        }
        match pulse(lines) {
            Ok(level) => high = level,
            Err(_) => return Cleared::SclHeld { pulse: pulses },
        }
        pulses += 1;
    }
    start_and_stop(lines);
    Cleared::Free { pulses }
}

/// Clears the bus (UM10204 section 3.1.16): lets both lines go, makes clock pulses until SDA looks high, nine at most, and then a
/// start and a stop. Where SCL looks low 255 times in a row after it was let go, it is held.
pub fn clear_bus<L: Lines>(lines: &mut L) -> Cleared
    ensures board { L.board lines.new ≡ L.board lines.old }
    ensures bus { IsTrue L.tells → clearing result (L.bus lines.new) ≡ clear_pulls the_table (mask_at (L.board lines.old)) (L.bus lines.old) }
    ensures looks { ClearLooksTell result (L.wire lines.old) (L.wire lines.new) }
{
    match release(lines, false, STOP_LOOKS) {
        Ok(level) => make_pulses(lines, level),
        Err(_) => Cleared::SclHeld { pulse: 0 },
    }
}
