//! To whom an address on a bus leads.
ghost use Rattle.std.specs.Prelude.{◌≡◌, ◌||◌};
ghost use Rattle.i2c_spec.specs.Grant as spec;
ghost use Rattle.i2c_board.specs.Passes as passes;

use crate::Layout;
use i2c_base::{Addr, DevId, DeviceSpec, Grant, SegId};

impl Layout<'_> {
    ghost use Rattle.i2c_board.specs.Layouts.{board_of};
    ghost use Rattle.i2c_spec.specs.Plain.{IsPlainBoard};
    ghost use Rattle.i2c_spec.specs.Tree.{is_on_path};
    ghost use Rattle.i2c_spec.specs.Grant.{grant_of, some_chip};
    ghost use Rattle.i2c_board.specs.Passes.{is_beside, device_grant, grant_by};

    /// To whom an address on a bus leads. It is busy where a mux chip on the path has it, or a chip or device below the bus, or
    /// one behind a mux beside the path that stays as it is, or, unless forced, a bound device on the path.
    pub fn grant(&self, seg: SegId, addr: Addr, force: bool) -> Grant
        requires { IsPlainBoard (board_of self.now) }
        ensures { result ≡ grant_of (board_of self.now) seg addr force }
    {
        if self.meets_chip(seg, addr) {
            return Grant::Busy;
        }
        self.device_grant(seg, addr, force)
    }

    // Whether what is on one bus can be heard on another beside it: below it, or aside.
    fn is_beside(&self, seg: SegId, other: SegId) -> bool
        requires { IsPlainBoard (board_of self.now) }
        ensures { result ≡ is_beside (board_of self.now) seg other }
    {
        self.is_below(other, seg) || self.is_aside(seg, other)
    }

    // A chip on the path, below the bus or aside of it has the address.
    fn meets_chip(&self, seg: SegId, addr: Addr) -> bool
        requires { IsPlainBoard (board_of self.now) }
        ensures { result ≡ some_chip (board_of self.now) addr (λ u. is_on_path (board_of self.now) seg u || is_beside (board_of self.now) seg u) }
    {
        self.muxes.iter().any(|mux| has_address(addr, mux.addr)
            && (self.is_on_path(seg, mux.bus) || self.is_beside(seg, mux.bus)))
    }

    // What a device alone says of its address.
    fn grant_by(&self, place: DevId, device: &DeviceSpec, seg: SegId, force: bool) -> Grant
        requires { IsPlainBoard (board_of self.now) }
        ensures { result ≡ grant_by (board_of self.now) place device.now seg device.now.addr force }
    {
        if self.is_beside(seg, device.bus) {
            Grant::Busy
        } else if !self.is_on_path(seg, device.bus) {
            Grant::Nobody
        } else if device.bound && !force {
            Grant::Busy
        } else {
            Grant::Named(place)
        }
    }

    // Joins what a device says of its address to what was found. Few devices are asked, so this stands apart from the search.
    #[inline(never)]
    fn join_device(
        &self,
        found: &mut Grant,
        place: DevId,
        device: &DeviceSpec,
        seg: SegId,
        force: bool,
    )
        requires { IsPlainBoard (board_of self.now) }
        ensures { found.new ≡ passes.joined found.old (grant_by (board_of self.now) place device.now seg device.now.addr force) }
    {
        *found = joined(*found, self.grant_by(place, device, seg, force));
    }

    // What the devices say of an address: one search.
    fn device_grant(&self, seg: SegId, addr: Addr, force: bool) -> Grant
        requires { IsPlainBoard (board_of self.now) }
        ensures { result ≡ device_grant (board_of self.now) self.now.devices.now seg addr force }
    {
        let mut found = Grant::Nobody;
        for (place, device) in self.devices.iter().enumerate() {
            if device.addr == addr {
                self.join_device(&mut found, DevId(place as u16), device, seg, force);
            }
        }
        found
    }
}

// What two searches say together: the first of two devices.
fn joined(one: Grant, other: Grant) -> Grant
    ensures { result ≡ passes.joined one other }
{
    match (one, other) {
        (Grant::Busy, _) | (_, Grant::Busy) => Grant::Busy,
        (Grant::Nobody, found) => found,
        (found, _) => found,
    }
}

/// Whether an item with this address, or none, has `addr`.
fn has_address(addr: Addr, of: Option<Addr>) -> bool
    ensures { result ≡ spec.has_address addr of }
{
    match of {
        Some(own) => own == addr,
        None => false,
    }
}
