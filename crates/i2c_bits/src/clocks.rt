//! One bit on the lines, and eight of them.
ghost use Rattle.std.specs.Prelude.{◌≡◌, ℕ, IfOk, IsTrue, false};
ghost use Rattle.wire_spec.specs.Wires.{bits};
ghost use Rattle.wire_spec.specs.Bus.{pulled, await, bit_step, bit_steps};
ghost use Rattle.i2c_bits.specs.Wiring.{the_table, mask_at, came, came_byte, LooksMade, LooksTell};

use crate::lines::{Lines, SclTimeout};
use i2c_base::MOST_LOOKS;

/// How often SCL is looked at within a message (UM10204 section 3.1.9; the number is this project's).
pub const LOOKS: u8 = MOST_LOOKS + 1;

/// Looks until SCL is high, so many times at most, and gives the level of SDA then (UM10204 section 3.1.9).
#[inline(always)]
fn wait<L: Lines>(lines: &mut L, looks: u8) -> Result<bool, SclTimeout>
    requires { (L.wire lines.old).low ≡ 0 }
    ensures board { L.board lines.new ≡ L.board lines.old }
    ensures bus { IsTrue L.tells → (v : ℕ) → came v result (L.bus lines.new) ≡ await the_table v looks (L.bus lines.old) }
    ensures looks { LooksMade looks result (L.wire lines.old) (L.wire lines.new) }
    ensures scl { (L.wire lines.new).scl ≡ (L.wire lines.old).scl }
    ensures sda { (L.wire lines.new).sda ≡ (L.wire lines.old).sda }
    ensures seen { IfOk result (λ level. (L.wire lines.new).sda_high ≡ level) }
    ensures pulses { (L.wire lines.new).pulses ≡ (L.wire lines.old).pulses }
{
    let mut left = looks;
    while left > 0 {
        let (scl, data) = lines.look();
        if scl {
            return Ok(data);
        }
        left -= 1;
    }
    Err(SclTimeout)
}

/// Lets SCL go, with SDA pulled or let go, and looks until SCL is high, so many times at most.
#[inline(always)]
pub fn release<L: Lines>(lines: &mut L, data_low: bool, looks: u8) -> Result<bool, SclTimeout>
    ensures board { L.board lines.new ≡ L.board lines.old }
    ensures bus { IsTrue L.tells → (v : ℕ)
        → came v result (L.bus lines.new)
        ≡ await the_table v looks (pulled the_table (mask_at (L.board lines.old)) (L.bus lines.old) false data_low) }
    ensures looks { LooksMade looks result (L.wire lines.old) (L.wire lines.new) }
    ensures scl { (L.wire lines.new).scl ≡ false }
    ensures sda { (L.wire lines.new).sda ≡ data_low }
    ensures seen { IfOk result (λ level. (L.wire lines.new).sda_high ≡ level) }
    ensures pulses { (L.wire lines.new).pulses ≡ (L.wire lines.old).pulses }
{
    lines.pull(false, data_low);
    wait(lines, looks)
}

/// One bit of a byte: SDA is set while SCL is low, and gives its level while SCL is high (UM10204 section 3.1.3). Where SCL
/// stays low, both lines are let go.
#[inline(always)]
pub fn clock_bit<L: Lines>(lines: &mut L, high: bool) -> Result<bool, SclTimeout>
    ensures board { L.board lines.new ≡ L.board lines.old }
    ensures bus { IsTrue L.tells → (v : ℕ)
        → came v result (L.bus lines.new) ≡ bit_step the_table (mask_at (L.board lines.old)) v high (L.bus lines.old) }
    ensures looks { LooksTell result (L.wire lines.old) (L.wire lines.new) }
{
    lines.pull(true, !high);
    match release(lines, !high, LOOKS) {
        Ok(level) => {
            lines.pull(true, !high);
            Ok(level)
        }
        Err(low) => {
            lines.pull(false, false);
            Err(low)
        }
    }
}

/// Eight bits, the most significant one first, and the number that SDA had (UM10204 section 3.1.5).
pub fn clock_byte<L: Lines>(lines: &mut L, byte: u8) -> Result<u8, SclTimeout>
    ensures board { L.board lines.new ≡ L.board lines.old }
    ensures bus { IsTrue L.tells
        → came_byte result (L.bus lines.new) ≡ bit_steps the_table (mask_at (L.board lines.old)) 0 (bits 8 byte) (L.bus lines.old) }
    ensures looks { LooksTell result (L.wire lines.old) (L.wire lines.new) }
{
    let mut read: u8 = 0;
    let mut left: u8 = 8;
    while left > 0 {
        left -= 1;
        let high = (byte >> left) & 1 == 1;
        match clock_bit(lines, high) {
            Ok(level) => {
                read = 2 * read + u8::from(level);
            }
            Err(low) => {
                return Err(low);
            }
        }
    }
    Ok(read)
}
