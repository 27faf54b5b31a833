//! A start with its address byte, a stop, and the line of a mux.
ghost use Rattle.std.specs.Prelude.{◌≡◌, IsTrue, false};
ghost use Rattle.wire_spec.specs.Wires.{bits};
ghost use Rattle.wire_spec.specs.Bus.{bit_steps};
ghost use Rattle.wire_spec.specs.Calls.{start_pulls, let_both, repeated_start, stop_pulls, slow_stop, sent_byte};
ghost use Rattle.ports.specs.LineCalls.{HasLine};
ghost use Rattle.i2c_bits.specs.Wiring.{the_table, mask_at, came, CameAnswer, CameStart, CameBegin, came_stop, AreLetGo, LooksTell, StartLooksTell, StopLooksTell};
ghost use Rattle.i2c_bits.specs.Stands.{world_at, IsFree, MayBegin, CalledTold, StartTold, MayEnd, StopTold, LineIs};

use crate::clocks::{LOOKS, clock_bit, clock_byte, release};
use crate::lines::{ByteLines, Lines, SclTimeout};
use i2c_base::{Answer, MuxId};
use i2c_spec::devices_hold_bytes;
use wire_spec::{
    a_line_on_the_sites_is_one_in_the_world, a_message_that_nobody_hears_is_out,
    a_repeated_start_calls_all_that_is_joined, a_start_calls_all_that_is_joined,
    a_start_on_the_sites_is_one_in_the_world, a_start_on_the_wires_is_one_in_the_world,
    a_stop_after_a_slow_start_is_one_in_the_world, a_stop_on_the_sites_is_one_in_the_world,
    a_stop_on_the_wires_is_one_in_the_world, chips_stand_before_devices,
};

/// How often SCL is looked at in a stop, by when a target that was too slow has let it go.
pub const STOP_LOOKS: u8 = 255;

/// A start: SDA is pulled while SCL is high, and then SCL (UM10204 section 3.1.4).
fn start_condition<L: Lines>(lines: &mut L)
    ensures board { L.board lines.new ≡ L.board lines.old }
    ensures bus { IsTrue L.tells → L.bus lines.new ≡ start_pulls the_table (mask_at (L.board lines.old)) (L.bus lines.old) }
    ensures looks { (L.wire lines.new).slow ≡ (L.wire lines.old).slow }
{
    lines.pull(false, true);
    lines.pull(true, true);
}

/// Lets both lines go within a message, SDA before SCL.
fn release_scl<L: Lines>(lines: &mut L) -> Result<bool, SclTimeout>
    ensures board { L.board lines.new ≡ L.board lines.old }
    ensures bus { IsTrue L.tells
        → came 0 result (L.bus lines.new) ≡ let_both the_table (mask_at (L.board lines.old)) (L.bus lines.old) }
    ensures looks { LooksTell result (L.wire lines.old) (L.wire lines.new) }
{
    lines.pull(true, false);
    release(lines, false, LOOKS)
}

/// A repeated start (UM10204 section 3.1.4).
fn repeated_start<L: Lines>(lines: &mut L) -> Result<(), SclTimeout>
    ensures board { L.board lines.new ≡ L.board lines.old }
    ensures bus { IsTrue L.tells
        → CameStart result (L.bus lines.new) (repeated_start the_table (mask_at (L.board lines.old)) (L.bus lines.old)) }
    ensures looks { LooksTell result (L.wire lines.old) (L.wire lines.new) }
{
    match release_scl(lines) {
        Ok(_) => {
            start_condition(lines);
            Ok(())
        }
        Err(low) => Err(low),
    }
}

/// A start, or a repeated one within a message: all that is joined takes in an address.
pub fn start_or_restart<L: Lines>(lines: &mut L, busy: bool) -> Result<(), SclTimeout>
    requires stands { IsTrue L.tells → MayBegin busy (L.board lines.old) (L.bus lines.old) }
    ensures board { L.board lines.new ≡ L.board lines.old }
    ensures looks { LooksTell result (L.wire lines.old) (L.wire lines.new) }
    ensures bus { IsTrue L.tells → CameBegin busy result (L.board lines.old) (L.bus lines.old) (L.bus lines.new) }
    ensures told { IsTrue L.tells → CalledTold busy result (L.bus lines.old) (L.bus lines.new) }
{
    a_start_calls_all_that_is_joined();
    a_repeated_start_calls_all_that_is_joined();
    if busy {
        repeated_start(lines)
    } else {
        start_condition(lines);
        Ok(())
    }
}

/// An address byte, and its answer: a clock that is held for too long in the ninth clock is Slow (UM10204 sections 3.1.9 and
/// 3.1.10).
pub fn address<L: Lines>(lines: &mut L, byte: u8) -> Result<Answer, SclTimeout>
    ensures board { L.board lines.new ≡ L.board lines.old }
    ensures bus { IsTrue L.tells
        → CameAnswer result (L.bus lines.new) (bit_steps the_table (mask_at (L.board lines.old)) 0 (bits 8 byte) (L.bus lines.old))
        (sent_byte the_table (mask_at (L.board lines.old)) byte (L.bus lines.old)) }
    ensures looks { StartLooksTell result (L.wire lines.old) (L.wire lines.new) }
{
    match clock_byte(lines, byte) {
        Ok(_) => match clock_bit(lines, true) {
            Ok(true) => Ok(Answer::Nack),
            Ok(false) => Ok(Answer::Ack),
            Err(_) => Ok(Answer::Slow),
        },
        Err(low) => Err(low),
    }
}

/// A start with this address byte, to all that is joined. Where SCL stays low, both lines are let go.
pub fn start_message<L: ByteLines>(
    lines: &mut L,
    busy: bool,
    byte: u8,
) -> Result<Answer, SclTimeout>
    requires stands { IsTrue L.tells → MayBegin busy (L.board lines.old) (L.bus lines.old) }
    ensures board { L.board lines.new ≡ L.board lines.old }
    ensures looks { StartLooksTell result (L.wire lines.old) (L.wire lines.new) }
    ensures told { IsTrue L.tells → StartTold (L.board lines.old) busy result byte (L.bus lines.old) (L.bus lines.new) }
{
    a_start_on_the_wires_is_one_in_the_world();
    a_start_on_the_sites_is_one_in_the_world();
    a_message_that_nobody_hears_is_out();
    chips_stand_before_devices();
    devices_hold_bytes();
    match lines.start(busy) {
        Ok(()) => lines.address_byte(byte),
        Err(low) => Err(low),
    }
}

/// SCL is let go with SDA low, and looked at until it is high; then SDA is let go (UM10204 section 3.1.4).
fn stop_condition<L: Lines>(lines: &mut L) -> Result<(), SclTimeout>
    ensures board { L.board lines.new ≡ L.board lines.old }
    ensures bus { IsTrue L.tells
        → came_stop result (L.bus lines.new) ≡ slow_stop the_table (mask_at (L.board lines.old)) (L.bus lines.old) }
    ensures looks { StopLooksTell result (L.wire lines.old) (L.wire lines.new) }
{
    match release(lines, true, STOP_LOOKS) {
        Ok(_) => {
            lines.pull(false, false);
            Ok(())
        }
        Err(low) => {
            lines.pull(false, false);
            Err(low)
        }
    }
}

/// A stop within a message.
pub fn stop<L: Lines>(lines: &mut L) -> Result<(), SclTimeout>
    ensures board { L.board lines.new ≡ L.board lines.old }
    ensures bus { IsTrue L.tells
        → came_stop result (L.bus lines.new) ≡ stop_pulls the_table (mask_at (L.board lines.old)) (L.bus lines.old) }
    ensures looks { StopLooksTell result (L.wire lines.old) (L.wire lines.new) }
{
    lines.pull(true, true);
    stop_condition(lines)
}

/// A stop, within a message or after a start that was too slow. In each case both lines are let go.
#[inline(always)]
pub fn stop_message<L: ByteLines>(lines: &mut L, late: bool) -> Result<(), SclTimeout>
    requires stands { IsTrue L.tells → MayEnd late (L.board lines.old) (L.bus lines.old) }
    ensures board { L.board lines.new ≡ L.board lines.old }
    ensures looks { StopLooksTell result (L.wire lines.old) (L.wire lines.new) }
    ensures told { IsTrue L.tells → StopTold (L.board lines.old) late result (L.bus lines.old) (L.bus lines.new) }
{
    a_start_on_the_sites_is_one_in_the_world();
    a_stop_on_the_wires_is_one_in_the_world();
    a_stop_after_a_slow_start_is_one_in_the_world();
    a_stop_on_the_sites_is_one_in_the_world();
    chips_stand_before_devices();
    devices_hold_bytes();
    if late {
        stop_condition(lines)
    } else {
        lines.stop()
    }
}

/// Sets the line of a mux while no message is in progress.
pub fn set_line<L: Lines>(lines: &mut L, mux: MuxId, level: u8)
    requires free { AreLetGo (L.wire lines.old) }
    requires has { IsTrue L.tells → HasLine (world_at (L.board lines.old) false (L.bus lines.old)) mux level }
    requires stands { IsTrue L.tells → IsFree (L.board lines.old) (L.bus lines.old) }
    ensures board { L.board lines.new ≡ L.board lines.old }
    ensures wire { L.wire lines.new ≡ L.wire lines.old }
    ensures told { IsTrue L.tells → LineIs (L.board lines.old) mux level (L.bus lines.old) (L.bus lines.new) }
{
    a_line_on_the_sites_is_one_in_the_world();
    chips_stand_before_devices();
    lines.line(mux, level);
}
