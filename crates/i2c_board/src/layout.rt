//! The parts of a board, borrowed, over which the calls of its tree are made.
ghost use Rattle.std.specs.Prelude.{◌≡◌, ◌<◌, ◌≤◌, ◌^◌, [], ◌∷◌, None, IfSome, length, reverse};
ghost use Rattle.i2c_board.specs.Passes as passes;
ghost use Rattle.i2c_spec.specs.Tree as spec;

use crate::Hop;
use crate::by_bus::hop_at;
use arrayvec::ArrayVec;
use i2c_base::{DeviceSpec, MOST_MUXES, MuxId, MuxSpec, RootSpec, SegId};

/// The parts of a board, borrowed: what the tree, the grant of an address and the topology rules read of it.
#[derive(Clone, Copy)]
pub struct Layout<'a> {
    pub version: u8,
    pub roots: &'a [RootSpec],
    pub muxes: &'a [MuxSpec],
    pub devices: &'a [DeviceSpec],
    /// The hop over each bus behind the roots, by the numbers of the buses.
    pub by_bus: &'a [Hop],
    /// Some mux keeps its last channel when idle.
    pub stays: bool,
    pub ghost by_number: { by_bus.now ≡ passes.hops_by_bus (length roots.now) (reverse muxes.now) },
    pub ghost staying: { stays ≡ spec.stays_in muxes.now },
}

impl Layout<'_> {
    ghost use Rattle.i2c_board.specs.Layouts.{board_of};
    ghost use Rattle.i2c_spec.specs.Plain.{IsPlainBoard};
    ghost use Rattle.i2c_spec.specs.Tree.{buses, hops, over};

    /// How many buses there are: the roots, and each mux's channels.
    pub fn buses(&self) -> u16
        requires { buses (board_of self.now) < 2 ^ 16 }
        ensures { result ≡ buses (board_of self.now) }
    {
        self.roots.len() as u16 + self.by_bus.len() as u16
    }

    /// The mux over a bus, none for a root.
    pub fn over(&self, seg: SegId) -> Option<Hop>
        requires { IsPlainBoard (board_of self.now) }
        ensures { result ≡ over (board_of self.now) seg }
    {
        let place = usize::from(seg.0).checked_sub(self.roots.len())?;
        if place < self.by_bus.len() {
            Some(self.by_bus[place])
        } else {
            self.over_none(seg)
        }
    }

    // A bus that isn't there hangs as though it were one more channel of the last mux.
    fn over_none(&self, seg: SegId) -> Option<Hop>
        requires plain { IsPlainBoard (board_of self.now) }
        requires behind { buses (board_of self.now) ≤ seg }
        ensures { result ≡ over (board_of self.now) seg }
    {
        let mux = self.muxes.last()?;
        let first = self.buses() - u16::from(mux.channels);
        Some(hop_at(seg, MuxId(self.muxes.len() as u16 - 1), seg.0 - first, mux))
    }

    /// The hop over a bus: the others are over the bus that its mux stands on, which has a smaller number.
    #[inline(always)]
    pub(crate) fn up(&self, seg: SegId) -> Option<Hop>
        requires { IsPlainBoard (board_of self.now) }
        ensures first { IfSome result (λ h. hops (board_of self.now) seg ≡ h ∷ hops (board_of self.now) h.on) }
        ensures falls { IfSome result (λ h. h.on < seg) }
        ensures root { result ≡ None → hops (board_of self.now) seg ≡ [] }
    {
        self.over(seg)
    }

    /// The muxes over a bus, nearest first.
    pub fn hops(&self, seg: SegId) -> ArrayVec<Hop, MOST_MUXES>
        requires { IsPlainBoard (board_of self.now) }
        ensures { result.items ≡ hops (board_of self.now) seg }
    {
        let mut found = ArrayVec::new();
        self.find_hops(seg, &mut found);
        found
    }

    /// Puts the muxes over a bus, nearest first, in the place of what the list had.
    #[inline(always)]
    pub fn find_hops(&self, seg: SegId, found: &mut ArrayVec<Hop, MOST_MUXES>)
        requires { IsPlainBoard (board_of self.now) }
        ensures { found.new.items ≡ hops (board_of self.now) seg }
    {
        found.clear();
        let mut at = seg;
        while let Some(hop) = self.up(at) {
            found.push(hop);
            at = hop.on;
        }
    }
}
