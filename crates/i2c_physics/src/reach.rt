//! Which targets a message has reached, and whom a call goes to.
ghost use Rattle.std.specs.Prelude.{◌≡◌, ◌<◌, ◌≤◌, ◌+◌, ◌++◌, ◌&&◌, ◌||◌, [], ◌∷◌, not, length, if◌then◌else◌};
ghost use Rattle.std.specs.List.{filter, list_all};
ghost use Rattle.i2c_base.specs.Limits.{MOST_DEVICES};
ghost use Rattle.i2c_physics.specs.Reach.{is_among, AreRising, joins_at, addressed, others, union_of};

use crate::numbers::KindNumbers;
use crate::place::TargetPlace;
use crate::sites::{Sites, is_at};
use i2c_base::{Addr, MOST_DEVICES};
use targets::Chip;

/// Which targets of one kind a message has reached, by number, rising. Its lists are made once, and written over by each call.
#[derive(Drop)]
pub struct Reach {
    /// Those that were started since their last stop.
    pub started: KindNumbers,
    /// Those of them that have heard the start of the message in progress.
    pub hearing: KindNumbers,
    /// Those that the call in progress goes to.
    pub addressed: KindNumbers,
    /// The others: those that a start is an `Other` for, or those that a stop doesn't reach.
    pub rest: KindNumbers,
    /// For numbers that nobody asks for any more.
    pub room: KindNumbers,
}

impl Reach {
    /// No message has reached any target.
    pub fn none() -> Self
        ensures started { result.started ≡ [] }
        ensures hearing { result.hearing ≡ [] }
    {
        Reach {
            started: KindNumbers::new(),
            hearing: KindNumbers::new(),
            addressed: KindNumbers::new(),
            rest: KindNumbers::new(),
            room: KindNumbers::new(),
        }
    }

    /// Finds whom a start at this address is told to: those that it calls, and the started ones that it is an `Other` for.
    /// A target that wasn't started is quiet.
    #[inline(always)]
    pub fn call(&mut self, chips: &[Chip], sites: &Sites, addr: Addr)
        ensures told { self.new.addressed ≡ addressed chips.now sites.now addr }
        ensures rest { self.new.rest ≡ others chips.now sites.now addr self.old.started }
        ensures started { self.new.started ≡ self.old.started }
    {
        let places = sites.as_slice();
        joined(chips, places, sites.at(addr), &mut self.addressed);
        let started = self.started.as_slice();
        others(chips, places, addr, started, &mut self.rest);
    }

    /// Finds which of the started ones a stop reaches, and which it doesn't.
    #[inline(always)]
    pub fn part(&mut self, chips: &[Chip], sites: &Sites)
        ensures told { self.new.addressed ≡ filter (joins_at chips.now sites.now) self.old.started }
        ensures rest { self.new.rest ≡ filter (λ k. not (joins_at chips.now sites.now k)) self.old.started }
    {
        let started = self.started.as_slice();
        parted(
            chips,
            sites.as_slice(),
            started,
            &mut self.addressed,
            &mut self.rest,
        );
    }

    /// Those that a start calls were started, of so many targets.
    #[inline(always)]
    pub fn add_told(&mut self, count: usize)
        requires few { count ≤ MOST_DEVICES }
        requires started { AreRising 0 count self.old.started }
        requires told { AreRising 0 count self.old.addressed }
        ensures started { self.new.started ≡ union_of count self.old.started self.old.addressed }
        ensures hearing { self.new.hearing ≡ self.old.hearing }
    {
        add_all(
            &mut self.started,
            count,
            self.addressed.as_slice(),
            &mut self.room,
        );
    }

    /// A stop is over: nobody hears any more, and those are left that it didn't reach.
    pub fn leave_rest(&mut self)
        ensures started { self.new.started ≡ self.old.rest }
        ensures hearing { self.new.hearing ≡ [] }
    {
        self.hearing.clear();
        self.started.write_over(self.rest.as_slice());
    }
}

/// Puts a number behind the others, where the condition holds.
fn push_if(numbers: &mut KindNumbers, condition: bool, number: u16)
    requires { length numbers.old < MOST_DEVICES }
    ensures items { numbers.new ≡ numbers.old ++ (if condition then number ∷ [] else []) }
    ensures few { length numbers.new ≤ length numbers.old + 1 }
{
    if condition {
        numbers.push(number);
    }
}

fn is_among(numbers: &[u16], number: u16) -> bool
    ensures { result ≡ is_among numbers.now number }
{
    numbers.iter().any(|other| *other == number)
}

/// The target of this number is joined to the wires.
fn joins_at(chips: &[Chip], places: &[TargetPlace], number: u16) -> bool
    ensures { result ≡ joins_at chips.now places.now number }
{
    match places.get(usize::from(number)) {
        Some(place) => place.joins(chips),
        None => false,
    }
}

/// Those of these numbers that are joined.
#[inline(always)]
fn joined(chips: &[Chip], places: &[TargetPlace], numbers: &[u16], joined: &mut KindNumbers)
    requires { length numbers.now ≤ MOST_DEVICES }
    ensures { joined.new ≡ filter (joins_at chips.now places.now) numbers.now }
{
    joined.clear();
    for number in numbers {
        if joins_at(chips, places, *number) {
            joined.push(*number);
        }
    }
}

/// Those of these numbers that are joined and have another address.
#[inline(always)]
fn others(
    chips: &[Chip],
    places: &[TargetPlace],
    addr: Addr,
    numbers: &[u16],
    rest: &mut KindNumbers,
)
    requires { length numbers.now ≤ MOST_DEVICES }
    ensures { rest.new ≡ others chips.now places.now addr numbers.now }
{
    rest.clear();
    for number in numbers {
        if !is_at(places, *number, addr.get()) && joins_at(chips, places, *number) {
            rest.push(*number);
        }
    }
}

/// Those of these numbers that are joined, and those that aren't.
#[inline(always)]
fn parted(
    chips: &[Chip],
    places: &[TargetPlace],
    numbers: &[u16],
    joined: &mut KindNumbers,
    apart: &mut KindNumbers,
)
    requires { length numbers.now ≤ MOST_DEVICES }
    ensures joined { joined.new ≡ filter (joins_at chips.now places.now) numbers.now }
    ensures apart { apart.new ≡ filter (λ k. not (joins_at chips.now places.now k)) numbers.now }
{
    joined.clear();
    apart.clear();
    for number in numbers {
        if joins_at(chips, places, *number) {
            joined.push(*number);
        } else {
            apart.push(*number);
        }
    }
}

/// These numbers are all among the others.
fn has_all(numbers: &[u16], others: &[u16]) -> bool
    ensures { result ≡ list_all (is_among numbers.now) others.now }
{
    others.iter().all(|number| is_among(numbers, *number))
}

/// Adds these numbers, of so many. Only where there are some of both is more to be looked at than the two lists.
#[inline(always)]
#[tactic(auto, using(crate::proofs::NumberLemmas::either_none, crate::proofs::NumberLemmas::either_has))]
fn add_all(numbers: &mut KindNumbers, count: usize, added: &[u16], room: &mut KindNumbers)
    requires few { count ≤ MOST_DEVICES }
    requires numbers { AreRising 0 count numbers.old }
    requires added { AreRising 0 count added.now }
    ensures { numbers.new ≡ union_of count numbers.old added.now }
{
    if numbers.as_slice().is_empty() {
        numbers.write_over(added);
    } else if !has_all(numbers.as_slice(), added) {
        union_of(count, numbers.as_slice(), added, room);
        numbers.write_over(room.as_slice());
    }
}

fn is_in_either(first: &[u16], second: &[u16], number: u16) -> bool
    ensures { result ≡ (is_among first.now number || is_among second.now number) }
{
    is_among(first, number) || is_among(second, number)
}

/// Those of either list, rising, of so many.
#[tactic(auto, using(crate::proofs::NumberLemmas::filter_more))]
fn union_of(count: usize, first: &[u16], second: &[u16], numbers: &mut KindNumbers)
    requires { count ≤ MOST_DEVICES }
    ensures { numbers.new ≡ union_of count first.now second.now }
{
    numbers.clear();
    for number in 0..count as u16 {
        let found = is_in_either(first, second, number);
        push_if(numbers, found, number);
    }
}
