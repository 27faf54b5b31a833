//! Where a target stands, and whether it is joined to the wires.
ghost use Rattle.std.specs.Prelude.{◌≡◌, IfOk};
ghost use Rattle.std.specs.List.{list_all};
ghost use Rattle.i2c_spec.specs.Grant.{has_address};
ghost use Rattle.i2c_board.specs.Layouts.{board_of};
ghost use Rattle.i2c_spec.specs.Plain.{IsPlainBoard};
ghost use Rattle.i2c_spec.specs.World.{opens_hop};
ghost use Rattle.i2c_physics.specs.Places.{place_on, joins};

use i2c_base::{Addr, SegId};
use i2c_board::{Hop, Layout};
use std::alloc::{AllocError, Global};
use std::marker::Model;
use targets::Chip;

/// Where a target stands, as the port of one root has it. A contract sees the record of these parts.
#[derive(Drop)]
pub struct TargetPlace {
    addr: Option<Addr>,
    /// It is there, on a bus of that root.
    wired: bool,
    /// The muxes over its bus, nearest first.
    above: Vec<Hop>,
}

impl Model for TargetPlace {
    ghost use Rattle.i2c_physics.specs.Places.{PlaceView};

    ghost Value = { PlaceView };

    ghost view = { λ p. record { addr = p.addr; wired = p.wired; above = p.above.items } };
}

impl TargetPlace {
    /// The place on this bus, of a target that is there or isn't.
    pub fn open(
        alloc: Global,
        layout: Layout<'_>,
        root: SegId,
        bus: SegId,
        addr: Option<Addr>,
        there: bool,
    ) -> Result<Self, AllocError>
        requires { IsPlainBoard (board_of layout) }
        ensures { IfOk result (λ p. p ≡ place_on (board_of layout.entry) root bus addr there) }
    {
        Ok(TargetPlace {
            addr,
            wired: there && layout.root(bus) == root,
            above: layout.hops(bus).as_slice().to_vec(alloc)?,
        })
    }

    /// It is there, on a bus of the root.
    pub fn is_wired(&self) -> bool
        ensures { result ≡ self.now.wired }
    {
        self.wired
    }

    /// It is joined to the wires: every mux over its bus has the channel open that leads there.
    pub fn joins(&self, chips: &[Chip]) -> bool
        ensures { result ≡ joins chips.now self.now }
    {
        self.wired && opens_all(chips, self.above.as_slice())
    }

    /// The address of the target, where it has one.
    pub fn addr(&self) -> Option<Addr>
        ensures { result ≡ self.now.addr }
    {
        self.addr
    }

    /// The target has this address.
    pub fn is_at(&self, address: u8) -> bool
        ensures { result ≡ has_address address self.now.addr }
    {
        match self.addr {
            Some(own) => own.get() == address,
            None => false,
        }
    }
}

/// Each of these hops is open.
fn opens_all(chips: &[Chip], hops: &[Hop]) -> bool
    ensures { result ≡ list_all (opens_hop chips.now) hops.now }
{
    hops.iter().all(|hop| opens(chips, hop))
}

/// The mux of this hop has the hop's channel open.
fn opens(chips: &[Chip], hop: &Hop) -> bool
    ensures { result ≡ opens_hop chips.now hop.now }
{
    match chips.get(usize::from(hop.mux.0)) {
        Some(chip) => chip.opens(hop.channel),
        None => false,
    }
}
