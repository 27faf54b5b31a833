//! A byte with its acknowledge clock.
ghost use Rattle.std.specs.Prelude.{◌≡◌, IsTrue, true, false};
ghost use Rattle.wire_spec.specs.declared.mode.Mode.TheVariants.{In, Give};
ghost use Rattle.wire_spec.specs.Calls.{sent_byte, read_byte};
ghost use Rattle.i2c_bits.specs.Wiring.{the_table, mask_at, came_acked, CameRead, LooksTell};
ghost use Rattle.i2c_bits.specs.Stands.{BytesAreInWorld, StandsIn, PutTold, GetTold};

use crate::clocks::{clock_bit, clock_byte};
use crate::lines::{ByteLines, Lines, SclTimeout};
use i2c_spec::devices_hold_bytes;
use wire_spec::{
    a_get_on_the_sites_is_one_in_the_world, a_get_on_the_wires_is_one_in_the_world,
    a_put_on_the_sites_is_one_in_the_world, a_put_on_the_wires_is_one_in_the_world,
    chips_stand_before_devices,
};

/// Sends a byte, and tells whether it is acknowledged: in the ninth clock SDA is let go, and low where someone acknowledges it
/// (UM10204 sections 3.1.5 and 3.1.6).
pub fn write_byte<L: Lines>(lines: &mut L, byte: u8) -> Result<bool, SclTimeout>
    ensures board { L.board lines.new ≡ L.board lines.old }
    ensures bus { IsTrue L.tells
        → came_acked result (L.bus lines.new) ≡ sent_byte the_table (mask_at (L.board lines.old)) byte (L.bus lines.old) }
    ensures looks { LooksTell result (L.wire lines.old) (L.wire lines.new) }
{
    match clock_byte(lines, byte) {
        Ok(_) => match clock_bit(lines, true) {
            Ok(level) => Ok(!level),
            Err(low) => Err(low),
        },
        Err(low) => Err(low),
    }
}

/// Reads a byte, and answers it in the ninth clock: low for more (UM10204 sections 3.1.5 and 3.1.6).
pub fn read_byte<L: Lines>(lines: &mut L, ack: bool) -> Result<u8, SclTimeout>
    ensures board { L.board lines.new ≡ L.board lines.old }
    ensures bus { IsTrue L.tells
        → CameRead result (L.bus lines.new) (read_byte the_table (mask_at (L.board lines.old)) ack (L.bus lines.old)) }
    ensures looks { LooksTell result (L.wire lines.old) (L.wire lines.new) }
{
    match clock_byte(lines, 0xff) {
        Ok(byte) => match clock_bit(lines, !ack) {
            Ok(_) => Ok(byte),
            Err(low) => Err(low),
        },
        Err(low) => Err(low),
    }
}

// A byte on the wires, put or read, is one in the world.
fn a_byte_is_one_in_the_world()
    ensures { BytesAreInWorld }
{
    a_put_on_the_wires_is_one_in_the_world();
    a_get_on_the_wires_is_one_in_the_world();
    a_put_on_the_sites_is_one_in_the_world();
    a_get_on_the_sites_is_one_in_the_world();
    chips_stand_before_devices();
    devices_hold_bytes();
}

/// A byte to the targets that have heard, and whether some one acknowledges it.
pub fn put_byte<L: ByteLines>(lines: &mut L, byte: u8) -> Result<bool, SclTimeout>
    requires stands { IsTrue L.tells → StandsIn (L.board lines.old) (In false 8 0) (L.bus lines.old) }
    ensures board { L.board lines.new ≡ L.board lines.old }
    ensures looks { LooksTell result (L.wire lines.old) (L.wire lines.new) }
    ensures told { IsTrue L.tells → PutTold (L.board lines.old) result byte (L.bus lines.old) (L.bus lines.new) }
{
    a_byte_is_one_in_the_world();
    lines.send_byte(byte)
}

/// A byte from the targets that have heard, and the controller's answer to it.
#[inline(always)]
pub fn get_byte<L: ByteLines>(lines: &mut L, ack: bool) -> Result<u8, SclTimeout>
    requires stands { IsTrue L.tells → StandsIn (L.board lines.old) (Give 8) (L.bus lines.old) }
    ensures board { L.board lines.new ≡ L.board lines.old }
    ensures looks { LooksTell result (L.wire lines.old) (L.wire lines.new) }
    ensures told { IsTrue L.tells → GetTold (L.board lines.old) result ack (L.bus lines.old) (L.bus lines.new) }
{
    a_byte_is_one_in_the_world();
    lines.receive_byte(ack)
}
