//! Rule 5: which muxes may stay as they are when idle.
ghost use Rattle.std.specs.Prelude.{◌≡◌, ◌<◌, true, IfNone, IfSome, length};

use crate::Layout;
use crate::by_bus::is_staying;
use crate::topology::is_same_address;
use i2c_base::MuxId;

impl Layout<'_> {
    ghost use Rattle.i2c_board.specs.Layouts.{board_of};
    ghost use Rattle.i2c_spec.specs.Plain.{IsPlainBoard};
    ghost use Rattle.i2c_spec.specs.Tree.{is_left_open};
    ghost use Rattle.i2c_spec.specs.Rules.{NoneOf, IsFirstOne, SecondOf, items, is_shared, stands_outside, may_stay, breaks_idle};

    // An item is below a mux, and another item of the same root, which isn't, has its address.
    fn is_shared(&self, mux: MuxId, one: usize, other: usize) -> bool
        requires { IsPlainBoard (board_of self.now) }
        ensures { result ≡ is_shared (board_of self.now) mux one other }
    {
        let below = self.home(one);
        let outside = self.home(other);
        is_same_address(self.addr(one), self.addr(other))
            && self.root(below) == self.root(outside)
            && self.crosses(below, mux)
            && !self.crosses(outside, mux)
    }

    fn stands_outside(&self, mux: MuxId, one: usize) -> bool
        requires { IsPlainBoard (board_of self.now) }
        ensures { result ≡ stands_outside (board_of self.now) mux one }
    {
        for other in 0..self.items() {
            if self.is_shared(mux, one, other) {
                return true;
            }
        }
        false
    }

    // The first item below a mux whose address stands outside.
    fn first_outside(&self, mux: MuxId) -> Option<usize>
        requires { IsPlainBoard (board_of self.now) }
        ensures none { IfNone result (NoneOf (stands_outside (board_of self.now) mux) (items (board_of self.now))) }
        ensures some { IfSome result (λ place. IsFirstOne (stands_outside (board_of self.now) mux) (items (board_of self.now)) place) }
    {
        for one in 0..self.items() {
            if self.stands_outside(mux, one) {
                return Some(one);
            }
        }
        None
    }

    // The kind of a mux may keep its last channel when idle.
    fn may_stay(&self, mux: MuxId) -> bool
        ensures { result ≡ may_stay (board_of self.now) mux }
    {
        self.mux(mux)
            .map_or(true, |spec| spec.kind.facts().may_stay)
    }

    fn is_left_open(&self, mux: MuxId) -> bool
        ensures { result ≡ is_left_open (board_of self.now) mux }
    {
        self.mux(mux).is_some_and(|spec| is_staying(spec.idle))
    }

    /// A mux stays as it is, though its kind may not, or though an address below it stands outside.
    pub(crate) fn breaks_idle(&self, mux: MuxId) -> bool
        requires { IsPlainBoard (board_of self.now) }
        ensures { result ≡ breaks_idle (board_of self.now) mux }
    {
        if !self.is_left_open(mux) {
            return false;
        }
        !self.may_stay(mux) || self.first_outside(mux).is_some()
    }

    /// What is named beside a mux that breaks the rule, by its place among the items.
    pub(crate) fn second_of(&self, mux: MuxId) -> usize
        requires plain { IsPlainBoard (board_of self.now) }
        requires there { mux < length self.now.muxes.now }
        requires broken { breaks_idle (board_of self.now) mux ≡ true }
        ensures second { SecondOf (board_of self.now) mux result }
        ensures there { result < items (board_of self.now) }
    {
        if self.may_stay(mux) {
            self.first_outside(mux).unwrap()
        } else {
            usize::from(mux.0)
        }
    }
}
