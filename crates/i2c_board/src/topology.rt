//! The topology rules, and the first that a board breaks.
ghost use Rattle.std.specs.Prelude.{◌≡◌, ◌+◌, ◌<◌, Some, IfNone, IfSome, length};
ghost use Rattle.i2c_spec.specs.Rules as spec;

use crate::Layout;
use crate::by_bus::is_parent;
use i2c_base::{Addr, DevId, Item, MOST_DEPTH, MuxId, RuleBroken, SegId};

/// The topology rules over single muxes.
#[derive(Clone, Copy)]
enum MuxRule {
    /// Rule 2: no bus has too many muxes over it.
    Depth,
    /// Rule 3: no parent-locked mux stands below a mux-locked one.
    Lock,
    /// Rule 4: gpio muxes and arbitrators are parent-locked.
    Parent,
    /// Rule 5: a mux that stays as it is is a switch, and no address below it stands outside it.
    Idle,
}

impl Layout<'_> {
    ghost use Rattle.i2c_board.specs.Layouts.{board_of};
    ghost use Rattle.i2c_spec.specs.Plain.{IsPlainBoard};
    ghost use Rattle.i2c_spec.specs.Rules.{MeetsRules, TellsBroken, NoPair, NoneOf, IsFirstPair, IsFirstOne, items, item_at, home_at, addr_at, clashes, locked_over, last_mux};
    ghost use Rattle.i2c_board.specs.Searches.{breaks, is_at, NoneAfter, IsFirstAfter};

    /// The first topology rule that the board breaks, with the two items at fault; none where it is accepted.
    #[tactic(auto, using(crate::proofs::RuleLemmas::is_some_last_mux))]
    pub fn first_broken(&self) -> Option<RuleBroken>
        requires { IsPlainBoard (board_of self.now) }
        ensures accepted { IfNone result (MeetsRules (board_of self.now)) }
        ensures broken { IfSome result (λ r. TellsBroken (board_of self.now) r) }
    {
        if let Some((first, second)) = self.first_clash() {
            return Some(RuleBroken {
                rule: 1,
                first: self.item(first),
                second: self.item(second),
            });
        }
        if let Some(mux) = self.first_mux(MuxRule::Depth) {
            return Some(twice(2, mux));
        }
        if let Some(mux) = self.first_mux(MuxRule::Lock) {
            let over = self.mux_locked_over(mux).unwrap();
            return Some(RuleBroken {
                rule: 3,
                first: Item::Mux(over),
                second: Item::Mux(mux),
            });
        }
        if let Some(mux) = self.first_mux(MuxRule::Parent) {
            return Some(twice(4, mux));
        }
        let mux = self.first_mux(MuxRule::Idle)?;
        let second = self.second_of(mux);
        Some(RuleBroken {
            rule: 5,
            first: Item::Mux(mux),
            second: self.item(second),
        })
    }

    /// The first two items, muxes before devices, that have one address although one's bus is on the path of
    /// the other's.
    fn first_clash(&self) -> Option<(usize, usize)>
        requires { IsPlainBoard (board_of self.now) }
        ensures none { IfNone result (NoPair (clashes (board_of self.now)) (items (board_of self.now))) }
        ensures some { IfSome result (λ pair. IsFirstPair (clashes (board_of self.now)) (items (board_of self.now)) pair.0 pair.1) }
    {
        for one in 0..self.items() {
            if let Some(other) = self.first_clash_with(one) {
                return Some((one, other));
            }
        }
        None
    }

    // The muxes behind an item come first, and then the devices.
    fn first_clash_with(&self, one: usize) -> Option<usize>
        requires plain { IsPlainBoard (board_of self.now) }
        requires there { one < items (board_of self.now) }
        ensures none { IfNone result (NoneAfter (clashes (board_of self.now) one) one (items (board_of self.now))) }
        ensures some { IfSome result (λ other. IsFirstAfter (clashes (board_of self.now) one) one (items (board_of self.now)) other) }
    {
        let addr = self.addr(one)?;
        let home = self.home(one);
        match self.first_mux_at(one, addr, home) {
            Some(mux) => Some(mux),
            None => self.first_device_at(one, addr, home),
        }
    }

    // The first mux behind an item that has an address, where one of its bus and this one is on the path of the other.
    fn first_mux_at(&self, one: usize, addr: Addr, home: SegId) -> Option<usize>
        requires plain { IsPlainBoard (board_of self.now) }
        requires there { one < items (board_of self.now) }
        ensures none { IfNone result (NoneAfter (is_at (board_of self.now) (Some addr) home) one (length self.now.muxes.now)) }
        ensures some { IfSome result (λ mux. IsFirstAfter (is_at (board_of self.now) (Some addr) home) one (length self.now.muxes.now) mux) }
    {
        for mux in one + 1..self.muxes.len() {
            if self.is_mux_at(mux, addr, home) {
                return Some(mux);
            }
        }
        None
    }

    // .. and the first device, by its number among the items, where no mux does. Its loop is run for each pair of devices,
    // so it stands by itself.
    #[inline(never)]
    fn first_device_at(&self, one: usize, addr: Addr, home: SegId) -> Option<usize>
        requires plain { IsPlainBoard (board_of self.now) }
        requires there { one < items (board_of self.now) }
        requires no_mux { NoneAfter (is_at (board_of self.now) (Some addr) home) one (length self.now.muxes.now) }
        ensures none { IfNone result (NoneAfter (is_at (board_of self.now) (Some addr) home) one (items (board_of self.now))) }
        ensures some { IfSome result (λ item. IsFirstAfter (is_at (board_of self.now) (Some addr) home) one (items (board_of self.now)) item) }
    {
        let muxes = self.muxes.len();
        for device in (one + 1).saturating_sub(muxes)..self.devices.len() {
            if self.is_device_at(device, addr, home) {
                return Some(muxes + device);
            }
        }
        None
    }

    #[inline(always)]
    fn is_mux_at(&self, mux: usize, addr: Addr, home: SegId) -> bool
        requires plain { IsPlainBoard (board_of self.now) }
        requires there { mux < length self.now.muxes.now }
        ensures { result ≡ is_at (board_of self.now) (Some addr) home mux }
    {
        let spec = &self.muxes[mux];
        is_same_address(Some(addr), spec.addr) && self.is_along(home, spec.bus)
    }

    #[inline(always)]
    fn is_device_at(&self, device: usize, addr: Addr, home: SegId) -> bool
        requires plain { IsPlainBoard (board_of self.now) }
        requires there { device < length self.now.devices.now }
        ensures { result ≡ is_at (board_of self.now) (Some addr) home (length self.now.muxes.now + device) }
    {
        let spec = &self.devices[device];
        addr == spec.addr && self.is_along(home, spec.bus)
    }

    pub(crate) fn items(&self) -> usize
        requires { IsPlainBoard (board_of self.now) }
        ensures { result ≡ items (board_of self.now) }
    {
        self.muxes.len() + self.devices.len()
    }

    fn item(&self, place: usize) -> Item
        requires plain { IsPlainBoard (board_of self.now) }
        requires there { place < items (board_of self.now) }
        ensures { result ≡ item_at (board_of self.now) place }
    {
        if place < self.muxes.len() {
            Item::Mux(MuxId(place as u16))
        } else {
            Item::Device(DevId((place - self.muxes.len()) as u16))
        }
    }

    pub(crate) fn home(&self, place: usize) -> SegId
        ensures { result ≡ home_at (board_of self.now) place }
    {
        if place < self.muxes.len() {
            self.muxes.get(place).map_or(SegId(0), |mux| mux.bus)
        } else {
            self.devices
                .get(place - self.muxes.len())
                .map_or(SegId(0), |device| device.bus)
        }
    }

    pub(crate) fn addr(&self, place: usize) -> Option<Addr>
        ensures { result ≡ addr_at (board_of self.now) place }
    {
        if place < self.muxes.len() {
            self.muxes.get(place)?.addr
        } else {
            Some(self.devices.get(place - self.muxes.len())?.addr)
        }
    }

    fn first_mux(&self, rule: MuxRule) -> Option<MuxId>
        requires { IsPlainBoard (board_of self.now) }
        ensures none { IfNone result (NoneOf (breaks rule (board_of self.now)) (length self.now.muxes.now)) }
        ensures some { IfSome result (λ mux. IsFirstOne (breaks rule (board_of self.now)) (length self.now.muxes.now) mux) }
    {
        for place in 0..self.muxes.len() as u16 {
            if self.breaks(rule, MuxId(place)) {
                return Some(MuxId(place));
            }
        }
        None
    }

    #[tactic(auto, using(crate::proofs::RuleLemmas::is_some_last_mux))]
    fn breaks(&self, rule: MuxRule, mux: MuxId) -> bool
        requires { IsPlainBoard (board_of self.now) }
        ensures { result ≡ breaks rule (board_of self.now) mux }
    {
        match rule {
            MuxRule::Depth => self.is_too_deep(mux),
            MuxRule::Lock => self.mux_locked_over(mux).is_some(),
            MuxRule::Parent => self.mux(mux).is_some_and(|spec| spec.kind.facts().wants_parent
                && !is_parent(spec.lock)),
            MuxRule::Idle => self.breaks_idle(mux),
        }
    }

    fn is_too_deep(&self, mux: MuxId) -> bool
        requires { IsPlainBoard (board_of self.now) }
        ensures { result ≡ spec.is_too_deep (board_of self.now) mux }
    {
        let home = self.mux(mux).map_or(SegId(0), |spec| spec.bus);
        self.depth(home) >= MOST_DEPTH
    }

    /// The mux-locked mux nearest the root over a parent-locked one.
    #[tactic(auto, using(crate::proofs::RuleLemmas::last_mux_more_yes, crate::proofs::RuleLemmas::last_mux_more_no))]
    fn mux_locked_over(&self, mux: MuxId) -> Option<MuxId>
        requires { IsPlainBoard (board_of self.now) }
        ensures { result ≡ last_mux (locked_over (board_of self.now) mux) }
    {
        let spec = self.mux(mux)?;
        if !is_parent(spec.lock) {
            return None;
        }
        let mut nearest_root = None;
        for hop in self.hops(spec.bus).iter() {
            if !hop.parent {
                nearest_root = Some(hop.mux);
            }
        }
        nearest_root
    }
}

/// The rule's one mux at fault, named twice.
fn twice(rule: u8, mux: MuxId) -> RuleBroken
    ensures { result ≡ record { rule = rule; first = Item.Mux mux; second = Item.Mux mux } }
{
    RuleBroken {
        rule,
        first: Item::Mux(mux),
        second: Item::Mux(mux),
    }
}

pub(crate) fn is_same_address(one: Option<Addr>, other: Option<Addr>) -> bool
    ensures { result ≡ spec.is_same_address one other }
{
    match (one, other) {
        (Some(one), Some(other)) => one == other,
        _ => false,
    }
}
