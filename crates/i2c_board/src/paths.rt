//! The tree of buses: paths, roots, and what is below or aside of a bus.
ghost use Rattle.std.specs.Prelude.{◌≡◌, slice_get, option_copied};
ghost use Rattle.i2c_spec.specs.Tree.{end_of};

use crate::{Hop, Layout};
use arrayvec::ArrayVec;
use i2c_base::{MOST_ON_PATH, MuxId, MuxSpec, POLLS, SegId, Way};

/// An arbitrator that is found with its other controller as often as it is asked stays there.
const FOREIGN_FOR_GOOD: u8 = POLLS;

/// The bus at the end of these hops from a bus, nearest first.
#[tactic(auto, using(i2c_spec::proofs::HopLemmas::end_of_last))]
pub fn end_of(seg: SegId, hops: &[Hop]) -> SegId
    ensures { result ≡ end_of seg hops.now }
{
    match hops.last() {
        Some(hop) => hop.on,
        None => seg,
    }
}

impl Layout<'_> {
    ghost use Rattle.std.specs.List.{list_any};
    ghost use Rattle.i2c_board.specs.Layouts.{board_of};
    ghost use Rattle.i2c_spec.specs.Plain.{IsPlainBoard};
    ghost use Rattle.i2c_spec.specs.Tree.{hops, crosses_mux, is_kept_hop, is_aside, path, depth, root_of, is_below, is_on_path, is_along, is_absent, is_held};
    ghost use Rattle.i2c_spec.specs.Grant.{way_of};

    /// The buses from the root to a bus, the bus included.
    pub fn path(&self, seg: SegId) -> ArrayVec<SegId, MOST_ON_PATH>
        requires { IsPlainBoard (board_of self.now) }
        ensures { result.items ≡ path (board_of self.now) seg }
    {
        let mut path = ArrayVec::new();
        path.push(seg);
        for hop in self.hops(seg).iter() {
            path.push(hop.on);
        }
        path.reverse();
        path
    }

    /// How many muxes are over a bus.
    pub fn depth(&self, seg: SegId) -> usize
        requires { IsPlainBoard (board_of self.now) }
        ensures { result ≡ depth (board_of self.now) seg }
    {
        let mut depth = 0;
        let mut at = seg;
        while let Some(hop) = self.up(at) {
            depth += 1;
            at = hop.on;
        }
        depth
    }

    /// The root that a bus hangs from.
    pub fn root(&self, seg: SegId) -> SegId
        requires { IsPlainBoard (board_of self.now) }
        ensures { result ≡ root_of (board_of self.now) seg }
    {
        let mut at = seg;
        while let Some(hop) = self.up(at) {
            at = hop.on;
        }
        at
    }

    /// Whether `high` is strictly over `low`. A bus that is has a smaller number, so the search ends there.
    pub fn is_below(&self, low: SegId, high: SegId) -> bool
        requires { IsPlainBoard (board_of self.now) }
        ensures { result ≡ is_below (board_of self.now) low high }
    {
        let mut at = low;
        while high.0 < at.0 {
            let Some(hop) = self.up(at) else {
                return false;
            };
            if hop.on == high {
                return true;
            }
            at = hop.on;
        }
        false
    }

    /// Whether `high` is on the path of `low`.
    pub fn is_on_path(&self, low: SegId, high: SegId) -> bool
        requires { IsPlainBoard (board_of self.now) }
        ensures { result ≡ is_on_path (board_of self.now) low high }
    {
        high == low || self.is_below(low, high)
    }

    /// Whether one of the two is on the path of the other.
    pub fn is_along(&self, one: SegId, other: SegId) -> bool
        requires { IsPlainBoard (board_of self.now) }
        ensures { result ≡ is_along (board_of self.now) one other }
    {
        self.is_on_path(one, other) || self.is_on_path(other, one)
    }

    /// Whether a mux is crossed on the way from a bus.
    pub(crate) fn crosses(&self, seg: SegId, mux: MuxId) -> bool
        requires { IsPlainBoard (board_of self.now) }
        ensures { result ≡ crosses_mux mux (hops (board_of self.now) seg) }
    {
        let mut at = seg;
        while let Some(hop) = self.up(at) {
            if hop.mux == mux {
                return true;
            }
            at = hop.on;
        }
        false
    }

    // Whether a mux stays as it is, and isn't over the path of a bus.
    fn is_kept(&self, seg: SegId, hop: &Hop) -> bool
        requires { IsPlainBoard (board_of self.now) }
        ensures { result ≡ is_kept_hop (board_of self.now) seg hop.now }
    {
        hop.stays && !self.crosses(seg, hop.mux)
    }

    // Whether such a mux is over another bus.
    fn is_below_kept(&self, seg: SegId, other: SegId) -> bool
        requires { IsPlainBoard (board_of self.now) }
        ensures { result ≡ list_any (is_kept_hop (board_of self.now) seg) (hops (board_of self.now) other) }
    {
        let mut at = other;
        while let Some(hop) = self.up(at) {
            if self.is_kept(seg, &hop) {
                return true;
            }
            at = hop.on;
        }
        false
    }

    /// Whether `other` is aside of a bus: on the same root, below a mux that stays as it is and isn't over the path.
    pub fn is_aside(&self, seg: SegId, other: SegId) -> bool
        requires { IsPlainBoard (board_of self.now) }
        ensures { result ≡ is_aside (board_of self.now) seg other }
    {
        // Few boards have a mux that stays as it is.
        if !self.stays {
            return false;
        }
        self.hangs_aside(seg, other)
    }

    #[tactic(auto, using(crate::proofs::AsideLemmas::unkept_aside))]
    fn hangs_aside(&self, seg: SegId, other: SegId) -> bool
        requires { IsPlainBoard (board_of self.now) }
        ensures { result ≡ is_aside (board_of self.now) seg other }
    {
        if !self.is_below_kept(seg, other) {
            return false;
        }
        self.root(other) == self.root(seg)
    }

    /// Whether a mux's chip is absent, or there is no such mux.
    fn is_absent(&self, mux: MuxId) -> bool
        ensures { result ≡ is_absent (board_of self.now) mux }
    {
        self.mux(mux).is_none_or(|spec| spec.absent)
    }

    /// Whether a mux is an arbitrator that stays with its other controller.
    fn is_held(&self, mux: MuxId) -> bool
        ensures { result ≡ is_held (board_of self.now) mux }
    {
        self.mux(mux)
            .is_some_and(|spec| spec.foreign == FOREIGN_FOR_GOOD)
    }

    pub(crate) fn mux(&self, mux: MuxId) -> Option<&MuxSpec>
        ensures { option_copied result ≡ slice_get self.now.muxes.now mux }
    {
        self.muxes.get(usize::from(mux.0))
    }

    /// Whether the muxes over a bus let a message through, looked at from the root: not past a mux whose chip
    /// is absent, nor past an arbitrator that stays with its other controller.
    #[tactic(auto, using(i2c_spec::proofs::HopLemmas::reverse_back))]
    pub fn way(&self, seg: SegId) -> Way
        requires { IsPlainBoard (board_of self.now) }
        ensures { result ≡ way_of (board_of self.now) seg }
    {
        let hops = self.hops(seg);
        let mut left = hops.len();
        while left > 0 {
            left -= 1;
            let hop = &hops[left];
            let mux = hop.mux;
            if self.is_absent(mux) {
                return Way::NoAck(mux);
            }
            if self.is_held(mux) {
                return Way::Held(mux);
            }
        }
        Way::Clear
    }
}
