//! The generated board.
ghost use Rattle.std.specs.Prelude.{◌≡◌, ◌≤◌, ◌+◌, ◌++◌, false, [], IfOk, length, vec_capacity};
ghost use Rattle.i2c_base.specs.Addr.{IsTargetAddress};
ghost use Rattle.i2c_base.specs.Limits.{MOST_ROOTS};
ghost use Rattle.i2c_gen.specs.Boards.{switch_of, devices_on, made_board};

use i2c_base::{
    Addr, DeviceKind, DeviceSpec, Idle, LockMode, MuxKind, MuxSpec, NoMemory, RootSpec, SegId, Size,
};
use i2c_board::{Accepted, Board};
use std::alloc::Global;

/// How many channels a switch has.
const CHANNELS: u8 = 8;

/// How many devices stand on a channel.
const ON_CHANNEL: usize = 2;

// The address of this number.
fn address_of(value: u8) -> Addr
    requires { IsTargetAddress value }
    ensures { result ≡ value }
{
    Addr::new(value).unwrap()
}

// Even roots have a parent-locked switch, odd ones a mux-locked one.
fn lock_of(root: u8) -> LockMode
    ensures { result ≡ (switch_of root).lock }
{
    if root % 2 == 0 {
        LockMode::Parent
    } else {
        LockMode::Mux
    }
}

// The switch behind a root.
fn switch_of(root: u8) -> MuxSpec
    ensures { result ≡ switch_of root }
{
    MuxSpec {
        bus: SegId(u16::from(root)),
        kind: MuxKind::Pca9548,
        addr: Some(address_of(0x70)),
        channels: CHANNELS,
        lock: lock_of(root),
        absent: false,
        foreign: 0,
        idle: Idle::Disconnect,
    }
}

// A device that no driver is bound to, and that nothing is written to beforehand.
fn device(alloc: Global, bus: u16, value: u8, kind: DeviceKind) -> DeviceSpec
    requires { IsTargetAddress value }
    ensures bus { result.bus ≡ bus }
    ensures addr { result.addr ≡ value }
    ensures bound { result.bound ≡ false }
    ensures kind { result.kind ≡ kind }
    ensures set { result.set ≡ [] }
{
    DeviceSpec {
        bus: SegId(bus),
        addr: address_of(value),
        bound: false,
        kind,
        set: Vec::new(alloc),
    }
}

// The devices of a channel: an EEPROM that is filled with the channel's number, and a temperature sensor.
fn push_devices(alloc: Global, devices: &mut Vec<DeviceSpec>, bus: u16, channel: u8)
    requires room { length devices.old.items + 2 ≤ vec_capacity devices.old }
    ensures items { devices.new.items ≡ devices.old.items ++ devices_on bus channel }
    ensures capacity { vec_capacity devices.new ≡ vec_capacity devices.old }
{
    let eeprom = DeviceKind::Eeprom {
        size: Size::C02,
        fill: channel,
        busy: 0,
        wp: false,
    };
    devices.push_reserved(device(alloc, bus, 0x50, eeprom));
    devices.push_reserved(device(alloc, bus, 0x48, DeviceKind::Lm75 { raw: 0x1900 }));
}

// The roots, all alike.
fn made_roots(alloc: Global, roots: u8) -> Result<Vec<RootSpec>, NoMemory>
    ensures { IfOk result (λ all. all.items ≡ (made_board roots).roots) }
{
    let mut all = Vec::with_capacity(alloc, usize::from(roots))?;
    for _ in 0..roots {
        all.push_reserved(RootSpec { smbus_only: false });
    }
    Ok(all)
}

// The switches, one behind each root.
fn made_muxes(alloc: Global, roots: u8) -> Result<Vec<MuxSpec>, NoMemory>
    ensures { IfOk result (λ all. all.items ≡ (made_board roots).muxes) }
{
    let mut all = Vec::with_capacity(alloc, usize::from(roots))?;
    for root in 0..roots {
        let switch = switch_of(root);
        // The checker finds the type of the address only where it is named.
        let _chip: Option<Addr> = switch.addr;
        all.push_reserved(switch);
    }
    Ok(all)
}

// The devices, in the order of the channels.
fn made_devices(alloc: Global, roots: u8) -> Result<Vec<DeviceSpec>, NoMemory>
    requires most { roots ≤ MOST_ROOTS }
    ensures { IfOk result (λ all. all.items ≡ (made_board roots).devices) }
{
    let channels = CHANNELS * roots;
    let mut all = Vec::with_capacity(alloc, ON_CHANNEL * usize::from(channels))?;
    for k in 0..channels {
        push_devices(
            alloc,
            &mut all,
            u16::from(roots) + u16::from(k),
            k % CHANNELS,
        );
    }
    Ok(all)
}

/// The generated board of so many roots, which meets the topology rules.
pub fn made_board(alloc: Global, roots: u8) -> Result<Accepted, NoMemory>
    requires some { 1 ≤ roots }
    requires most { roots ≤ MOST_ROOTS }
    ensures { IfOk result (λ b. b ≡ made_board roots) }
{
    let all_roots = made_roots(alloc, roots)?;
    let muxes = made_muxes(alloc, roots)?;
    let devices = made_devices(alloc, roots)?;
    Ok(Accepted::seal(Board::new(alloc, 1, all_roots, muxes, devices)?))
}
