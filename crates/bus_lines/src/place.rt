//! Where a target stands, and whether it is joined to the wires.
ghost use Rattle.std.specs.Prelude.{◌≡◌, IfOk};
ghost use Rattle.std.specs.List.{list_all};
ghost use Rattle.i2c_board.specs.Layouts.{board_of};
ghost use Rattle.i2c_spec.specs.Plain.{IsPlainBoard};
ghost use Rattle.bus_lines.specs.Away.{is_wired};
ghost use Rattle.bus_lines.specs.Joins.{place_on, joins, opens_at, states_on};

use crate::WireTarget;
use i2c_base::SegId;
use i2c_board::{Hop, Layout};
use std::alloc::{AllocError, Global};
use std::marker::Model;
use tgt_bits::BitTarget;

/// Where a target stands, as one root has it. A contract sees whether it is there, on a bus of that root, and the muxes over it.
#[derive(Drop)]
pub struct WirePlace {
    /// The muxes over its bus, nearest first, where it is there.
    above: Option<Vec<Hop>>,
}

impl Model for WirePlace {
    ghost use Rattle.std.specs.Prelude.{[], is_some};
    ghost use Rattle.std.specs.Option.{option_map_or};
    ghost use Rattle.bus_lines.specs.Joins.{PlaceView};

    ghost Value = { PlaceView };

    ghost view = { λ p. record { wired = is_some p.above; above = option_map_or (λ hops. hops.items) p.above [] } };
}

impl WirePlace {
    /// The place on this bus, of a target that is there or isn't.
    pub fn open(
        alloc: Global,
        layout: Layout<'_>,
        root: SegId,
        bus: SegId,
        there: bool,
    ) -> Result<Self, AllocError>
        requires { IsPlainBoard (board_of layout) }
        ensures { IfOk result (λ p. p ≡ place_on (board_of layout.entry) root bus there) }
    {
        let above = if there && layout.root(bus) == root {
            Some(layout.hops(bus).as_slice().to_vec(alloc)?)
        } else {
            None
        };
        Ok(WirePlace { above })
    }

    /// It is there, on a bus of the root.
    pub fn is_wired(&self) -> bool
        ensures { result ≡ self.now.wired }
    {
        self.above.is_some()
    }

    /// It is joined to the wires: every mux over its bus has the channel open that leads there.
    pub fn joins(&self, targets: &[BitTarget<WireTarget>]) -> bool
        ensures { result ≡ joins (states_on targets.now) self.now }
    {
        match &self.above {
            Some(above) => opens_all(targets, above.as_slice()),
            None => false,
        }
    }
}

/// The target of this number is there, on a bus of the root.
pub fn is_wired(places: &[WirePlace], number: usize) -> bool
    ensures { result ≡ is_wired places.now number }
{
    match places.get(number) {
        Some(place) => place.is_wired(),
        None => false,
    }
}

/// Each of these hops is open.
fn opens_all(targets: &[BitTarget<WireTarget>], hops: &[Hop]) -> bool
    ensures { result ≡ list_all (opens_at (states_on targets.now)) hops.now }
{
    hops.iter().all(|hop| opens(targets, hop))
}

/// The mux of this hop has the hop's channel open.
fn opens(targets: &[BitTarget<WireTarget>], hop: &Hop) -> bool
    ensures { result ≡ opens_at (states_on targets.now) hop.now }
{
    match targets.get(usize::from(hop.mux.0)) {
        Some(target) => target.target.opens(hop.channel),
        None => false,
    }
}
