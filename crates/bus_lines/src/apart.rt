//! The targets of a root once they are off its lines.
ghost use Rattle.std.specs.Prelude.{◌≡◌, Bool, false, true, map, IsSome};
ghost use Rattle.std.specs.List.{count_by};
ghost use Rattle.bus_lines.specs.Aparts.{apart_of, world_apart};
ghost use Rattle.bus_lines.specs.Away.{whole_on};
ghost use Rattle.bus_lines.specs.Joins.{is_chip, kinds_of, places_of, states_on};
ghost use Rattle.bus_lines.specs.Owned.{is_own, own_device, owns, without};

use crate::WireTarget;
use crate::place::{WirePlace, is_wired};
use i2c_base::SegId;
use i2c_board::Accepted;
use std::marker::Model;
use std::snapshot::Snapshot;
use targets::DeviceState;
use tgt_bits::BitTarget;
use wire_spec::chips_stand_before_devices;

/// The targets of a root that were taken off its lines. A contract sees the board and the root, and what the world sees of
/// each.
#[derive(Drop)]
pub struct Apart {
    board: Snapshot<Accepted>,
    root: SegId,
    muxes: usize,
    places: Vec<WirePlace>,
    bits: Vec<BitTarget<WireTarget>>,
}

impl Model for Apart {
    ghost use Rattle.bus_lines.specs.Aparts.{ApartView, AreApart, apart_of};
    ghost use Rattle.bus_lines.specs.Away.{whole_on};

    ghost Value = { ApartView };

    ghost view = { λ a. apart_of (record { board = a.board.value; root = a.root }) (whole_on a.board.value a.places.items a.bits.items) };

    ghost invariant = { λ a. AreApart (record { board = a.board.value; root = a.root }) a.muxes a.places.items a.bits.items };
}

impl Apart {
    /// These targets: the chips of muxes, and then the devices, with the places of each.
    pub(crate) fn of(
        board: Snapshot<Accepted>,
        root: SegId,
        places: Vec<WirePlace>,
        bits: Vec<BitTarget<WireTarget>>,
    ) -> Self
        requires places { places.items ≡ places_of board.value root }
        requires kinds { map is_chip (states_on bits.items) ≡ kinds_of board.value }
        ensures { result ≡ apart_of (record { board = board.value; root = root }) (whole_on board.value places.items bits.items) }
    {
        Apart {
            board,
            root,
            muxes: chips_among(bits.as_slice()),
            places,
            bits,
        }
    }

    /// The device of this number is of the root.
    fn is_own(&self, number: usize) -> bool
        ensures { result ≡ is_own self.now.rooted.board self.now.rooted.root number }
    {
        is_wired(&self.places[self.muxes..], number)
    }

    /// Takes out the device of this number, where it is of the root.
    pub fn take_device(&mut self, number: usize) -> Option<DeviceState>
        ensures value { result ≡ own_device (world_apart false self.old) number }
        ensures has { owns (world_apart false self.old) number ≡ true → IsSome result }
        ensures after { (busy : Bool) → world_apart busy self.new ≡ without (world_apart busy self.old) number }
    {
        chips_stand_before_devices();
        if !self.is_own(number) {
            return None;
        }
        self.bits[self.muxes + number].target.take_device()
    }
}

/// So many of these are chips of muxes.
fn chips_among(targets: &[BitTarget<WireTarget>]) -> usize
    ensures { result ≡ count_by (λ b. is_chip b.site.state) targets.now }
{
    let mut count = 0;
    for target in targets {
        if target.target.is_chip() {
            count += 1;
        }
    }
    count
}
