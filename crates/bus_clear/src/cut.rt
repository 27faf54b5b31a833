//! A read that is cut off, and the bus cleared after it.
ghost use Rattle.std.specs.Prelude.{◌≡◌, ◌≤◌, ◌+◌, ◌*◌, IsTrue, false};
ghost use Rattle.bus_clear.specs.Clears.{ClearIs};
ghost use Rattle.bus_clear.specs.Cuts.{RISES, IsQuietWorld, level_at};
ghost use Rattle.bus_clear.specs.Pulls as wire;
ghost use Rattle.bus_clear.specs.Pulls.{cut_level, cut_pulls};
ghost use Rattle.i2c_bits.specs.Wiring.{the_table, mask_at, AreLetGo};
ghost use Rattle.i2c_bits.specs.Stands.{IsFree, world_at};

use crate::clear::clear_bus;
use crate::cleared::Cleared;
use i2c_base::Addr;
use i2c_bits::{Lines, STOP_LOOKS, release};
use i2c_spec::{chips_are_fair, devices_hold_bytes, states_are_fair};
use wire_spec::{
    a_get_on_the_sites_is_one_in_the_world, a_start_on_the_sites_is_one_in_the_world,
    a_stop_on_the_sites_is_one_in_the_world, chips_stand_before_devices,
};

/// The controller lets SDA go for this rise, or gives a bit of the address byte that is 1.
fn is_high(byte: u8, rise: u8) -> bool
    requires { 1 ≤ rise }
    ensures { result ≡ cut_level byte rise }
{
    rise > 8 || (byte >> (8 - rise)) & 1 == 1
}

/// SDA is set while SCL is low, and SCL let go, and looked at until it is high, 255 times at most: no target holds it for longer.
fn rise<L: Lines>(lines: &mut L, high: bool)
    ensures board { L.board lines.new ≡ L.board lines.old }
    ensures bus { IsTrue L.tells → L.bus lines.new ≡ wire.cut_rise the_table (mask_at (L.board lines.old)) high (L.bus lines.old) }
{
    lines.pull(true, !high);
    let _ = release(lines, !high, STOP_LOOKS);
}

/// One clock.
fn clock<L: Lines>(lines: &mut L, high: bool)
    ensures board { L.board lines.new ≡ L.board lines.old }
    ensures bus { IsTrue L.tells → L.bus lines.new ≡ wire.cut_clock the_table (mask_at (L.board lines.old)) high (L.bus lines.old) }
{
    rise(lines, high);
    lines.pull(true, !high);
}

/// Begins a read of one byte, and lets both lines go directly after the rise of SCL of this number: 1 to 8 are the address byte's, 9
/// its acknowledge, 10 to 17 the data's, and 18 the controller's answer, with SDA let go. It goes on with the same clocks where
/// nobody acknowledged.
pub fn cut_read<L: Lines>(lines: &mut L, addr: Addr, cut: u8)
    requires cut { (1 ≤ cut) × (cut ≤ RISES) }
    ensures board { L.board lines.new ≡ L.board lines.old }
    ensures bus { IsTrue L.tells → L.bus lines.new ≡ cut_pulls the_table (mask_at (L.board lines.old)) (2 * addr + 1) cut (L.bus lines.old) }
    ensures let_go { AreLetGo (L.wire lines.new) }
{
    let byte = 2 * addr.get() + 1;
    lines.pull(false, true);
    lines.pull(true, true);
    let mut number: u8 = 1;
    while number < cut {
        clock(lines, is_high(byte, number));
        number += 1;
    }
    rise(lines, is_high(byte, cut));
    lines.pull(false, false);
}

/// What a read that was cut off has come to: whether SDA was high after the cut, and what bus clear made of it.
#[derive(Clone, Copy, Debug, PartialEq, Eq)]
pub struct CutRead {
    pub high: bool,
    pub cleared: Cleared,
}

/// A read that is cut off at this rise, and bus clear after it: on free lines of a root whose targets are quiet SDA always comes
/// free.
pub fn clear_cut<L: Lines>(lines: &mut L, addr: Addr, cut: u8) -> CutRead
    requires cut { (1 ≤ cut) × (cut ≤ RISES) }
    requires free { IsTrue L.tells → IsFree (L.board lines.old) (L.bus lines.old) }
    requires quiet { IsTrue L.tells → IsQuietWorld (world_at (L.board lines.old) false (L.bus lines.old)) }
    ensures board { L.board lines.new ≡ L.board lines.old }
    ensures let_go { AreLetGo (L.wire lines.new) }
    ensures level { IsTrue L.tells → result.high ≡ level_at (world_at (L.board lines.old) false (L.bus lines.old)) addr cut }
    ensures told { IsTrue L.tells → ClearIs (L.board lines.old) addr cut result.cleared (L.bus lines.old) (L.bus lines.new) }
{
    chips_stand_before_devices();
    devices_hold_bytes();
    chips_are_fair();
    states_are_fair();
    a_start_on_the_sites_is_one_in_the_world();
    a_get_on_the_sites_is_one_in_the_world();
    a_stop_on_the_sites_is_one_in_the_world();
    addr.get();
    cut_read(lines, addr, cut);
    let (_, high) = lines.look();
    CutRead {
        high,
        cleared: clear_bus(lines),
    }
}
