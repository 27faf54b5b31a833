//! The places of the targets of one kind, by number and by address.
ghost use Rattle.std.specs.Prelude.{◌≡◌, ◌+◌, ◌<◌, ◌≤◌, [], length, map, IfOk, OnOk};
ghost use Rattle.std.specs.List.{range_with_len};
ghost use Rattle.i2c_base.specs.Limits.{MOST_DEVICES};
ghost use Rattle.i2c_board.specs.Layouts.{board_of};
ghost use Rattle.i2c_spec.specs.Plain.{IsPlainBoard};
ghost use Rattle.i2c_physics.specs.Places.{device_place, mux_place};
ghost use Rattle.i2c_physics.specs.Reach.{has_at, wired_at};
ghost use Rattle.i2c_physics.specs.Sites.{numbers_at, numbers_below};

use crate::place::TargetPlace;
use i2c_base::{Addr, SegId};
use i2c_board::Layout;
use std::alloc::{AllocError, Global};
use std::marker::Model;

/// How many 7-bit addresses there are.
const ADDRESSES: u8 = 128;

/// Where the targets of one kind stand, by number, and who is at an address. A contract sees the list of the places.
#[derive(Drop)]
pub struct Sites {
    places: Vec<TargetPlace>,
    /// By address, the numbers of those that have it, rising: a start looks at no others.
    at: Vec<Vec<u16>>,
}

impl Model for Sites {
    ghost use Rattle.std.specs.Prelude.{List, map};
    ghost use Rattle.i2c_physics.specs.Places.{PlaceView};
    ghost use Rattle.i2c_physics.specs.Sites.{IsIndex};

    ghost Value = { List PlaceView };

    ghost view = { λ s. s.places.items };

    ghost invariant = { λ s. IsIndex s.places.items (map (λ numbers. numbers.items) s.at.items) };
}

impl Sites {
    /// These places, by number and by address.
    fn of(alloc: Global, places: Vec<TargetPlace>) -> Result<Self, AllocError>
        requires { length places.items ≤ MOST_DEVICES }
        ensures { IfOk result (λ sites. sites ≡ places.items) }
    {
        let at = by_address(alloc, &places)?;
        Ok(Sites { places, at })
    }

    /// The places of the muxes.
    pub fn of_muxes(alloc: Global, layout: Layout<'_>, root: SegId) -> Result<Self, AllocError>
        requires { IsPlainBoard (board_of layout) }
        ensures { IfOk result (λ sites. sites ≡ map (mux_place (board_of layout.entry) root) layout.entry.muxes.now) }
    {
        let mut places = Vec::with_capacity(alloc, layout.muxes.len())?;
        for mux in layout.muxes {
            let there = !mux.absent && mux.addr.is_some();
            places.push_reserved(TargetPlace::open(alloc, layout, root, mux.bus, mux.addr, there)?);
        }
        Sites::of(alloc, places)
    }

    /// The places of the devices.
    pub fn of_devices(alloc: Global, layout: Layout<'_>, root: SegId) -> Result<Self, AllocError>
        requires { IsPlainBoard (board_of layout) }
        ensures { IfOk result (λ sites. sites ≡ map (device_place (board_of layout.entry) root) layout.entry.devices.now) }
    {
        let mut places = Vec::with_capacity(alloc, layout.devices.len())?;
        for device in layout.devices {
            let addr = Some(device.addr);
            places.push_reserved(TargetPlace::open(alloc, layout, root, device.bus, addr, true)?);
        }
        Sites::of(alloc, places)
    }

    /// The places, by number.
    pub fn as_slice(&self) -> &[TargetPlace]
        ensures { result.now ≡ self.now }
    {
        self.places.as_slice()
    }

    /// The numbers of the targets at this address, rising.
    pub fn at(&self, addr: Addr) -> &[u16]
        ensures value { result.now ≡ numbers_at self.now addr }
        ensures few { length result.now ≤ MOST_DEVICES }
    {
        self.at[usize::from(addr.get())].as_slice()
    }
}

/// For each address the numbers of those at it.
fn by_address(alloc: Global, places: &[TargetPlace]) -> Result<Vec<Vec<u16>>, AllocError>
    requires { length places.now ≤ MOST_DEVICES }
    ensures { IfOk result (λ at. map (λ numbers. numbers.items) at.items ≡ map (numbers_at places.now) (range_with_len 0 128)) }
{
    let mut at = of_nobody(alloc)?;
    for number in 0..places.len() as u16 {
        list_number(&mut at, places, number)?;
    }
    Ok(at)
}

/// For each address that nobody is at it.
fn of_nobody(alloc: Global) -> Result<Vec<Vec<u16>>, AllocError>
    ensures { IfOk result (λ at. map (λ numbers. numbers.items) at.items ≡ map (numbers_at []) (range_with_len 0 128)) }
{
    let mut at = Vec::with_capacity(alloc, usize::from(ADDRESSES))?;
    for address in 0..ADDRESSES {
        at.push_reserved(Vec::new(alloc));
    }
    Ok(at)
}

/// Puts the number of the next target after the others at its address, where it has one.
fn list_number(
    at: &mut Vec<Vec<u16>>,
    places: &[TargetPlace],
    number: u16,
) -> Result<(), AllocError>
    requires there { number < length places.now }
    requires listed { map (λ numbers. numbers.items) at.old.items ≡ map (numbers_below places.now number) (range_with_len 0 128) }
    ensures { OnOk result (map (λ numbers. numbers.items) at.new.items ≡ map (numbers_below places.now (number + 1)) (range_with_len 0 128)) }
{
    if let Some(addr) = places[usize::from(number)].addr() {
        at[usize::from(addr.get())].push(number)?;
    }
    Ok(())
}

/// The target of this number is there, on a bus of the root.
pub fn is_wired(places: &[TargetPlace], number: usize) -> bool
    ensures { result ≡ wired_at places.now number }
{
    match places.get(number) {
        Some(place) => place.is_wired(),
        None => false,
    }
}

/// The target of this number has this address.
pub fn is_at(places: &[TargetPlace], number: u16, address: u8) -> bool
    ensures { result ≡ has_at address places.now number }
{
    match places.get(usize::from(number)) {
        Some(place) => place.is_at(address),
        None => false,
    }
}
