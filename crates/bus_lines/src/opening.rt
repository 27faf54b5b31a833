//! The targets of a board and their places, as it is opened.
ghost use Rattle.std.specs.Prelude.{◌≡◌, ◌++◌, IfOk, OnOk, map};
ghost use Rattle.i2c_spec.specs.Plain.{IsPlainBoard, IsPlainDevice};
ghost use Rattle.i2c_board.specs.Layouts.{board_of};
ghost use Rattle.bus_lines.specs.Joins.{places_of};
ghost use Rattle.std.specs.Prelude.{cond};
ghost use Rattle.i2c_spec.specs.Targets.{Silent, opening_state};
ghost use Rattle.wire_spec.specs.Sites.{Device};
ghost use Rattle.bus_lines.specs.Away.{device_at, kept_device};
ghost use Rattle.bus_lines.specs.Opens.{chip_bit};

use crate::WireTarget;
use crate::place::WirePlace;
use i2c_base::{DeviceSpec, MuxSpec, NoMemory, SegId};
use i2c_board::Layout;
use std::alloc::Global;
use targets::{Chip, DeviceState};
use tgt_bits::BitTarget;

/// No address byte names this address: it has more than seven bits.
const NO_ADDRESS: u8 = 128;

/// The chip of a mux, which isn't joined yet.
fn open_chip(mux: &MuxSpec) -> BitTarget<WireTarget>
    ensures { result ≡ chip_bit mux.now }
{
    let addr = match mux.addr {
        Some(addr) => addr.get(),
        None => NO_ADDRESS,
    };
    BitTarget::released(addr, false, WireTarget::of_chip(Chip::open(mux)))
}

/// A device, which isn't joined yet. Nothing is kept of one that isn't of the root, not even its address.
fn open_device(
    alloc: Global,
    device: &DeviceSpec,
    here: bool,
) -> Result<BitTarget<WireTarget>, NoMemory>
    requires { IsPlainDevice device.now }
    ensures { IfOk result (λ target. target ≡ device_at here device.now) }
{
    let addr = if here { device.addr.get() } else { NO_ADDRESS };
    let node = open_node(alloc, device, here)?;
    Ok(BitTarget::released(addr, false, node))
}

/// Its state.
fn open_node(alloc: Global, device: &DeviceSpec, here: bool) -> Result<WireTarget, NoMemory>
    requires { IsPlainDevice device.now }
    ensures { IfOk result (λ node. node ≡ Device (cond here (opening_state device.now) Silent)) }
{
    if here {
        let state = DeviceState::open(alloc, device)?;
        Ok(WireTarget::of_device(Box::new(alloc, state)?))
    } else {
        Ok(WireTarget::away())
    }
}

/// The chips of all muxes, after these targets.
pub fn add_chips(layout: Layout<'_>, bits: &mut Vec<BitTarget<WireTarget>>) -> Result<(), NoMemory>
    ensures { OnOk result (bits.new.items ≡ bits.old.items ++ map chip_bit layout.entry.muxes.now) }
{
    for mux in layout.muxes {
        bits.push(open_chip(mux))?;
    }
    Ok(())
}

/// The devices, after these targets.
pub fn add_devices(
    alloc: Global,
    layout: Layout<'_>,
    root: SegId,
    bits: &mut Vec<BitTarget<WireTarget>>,
) -> Result<(), NoMemory>
    requires { IsPlainBoard (board_of layout) }
    ensures { OnOk result (bits.new.items ≡ bits.old.items ++ map (kept_device (board_of layout.entry) root) (board_of layout.entry).devices) }
{
    for device in layout.devices {
        let here = layout.root(device.bus) == root;
        bits.push(open_device(alloc, device, here)?)?;
    }
    Ok(())
}

/// The places of the chips of all muxes, and then of the devices.
pub fn all_places(
    alloc: Global,
    layout: Layout<'_>,
    root: SegId,
) -> Result<Vec<WirePlace>, NoMemory>
    requires { IsPlainBoard (board_of layout) }
    ensures { IfOk result (λ places. places.items ≡ places_of (board_of layout.entry) root) }
{
    let mut places = Vec::new(alloc);
    for mux in layout.muxes {
        let there = !mux.absent && mux.addr.is_some();
        places.push(WirePlace::open(alloc, layout, root, mux.bus, there)?)?;
    }
    for device in layout.devices {
        places.push(WirePlace::open(alloc, layout, root, device.bus, true)?)?;
    }
    Ok(places)
}
