//! Who is joined to the wires.
ghost use Rattle.std.specs.Prelude.{◌≡◌, [], length};
ghost use Rattle.wire_spec.specs.Roots.{some_one};
ghost use Rattle.wire_spec.specs.Bus.{holds_line, rejoin_from};
ghost use Rattle.bus_lines.specs.Joins.{at_node_level, joins_by, read_anew, states_on};
ghost use Rattle.bus_lines.specs.Known.{known, known_of, known_on, ListsJoined};
ghost use Rattle.bus_lines.specs.Numbers.{AreNumbers};
ghost use Rattle.bus_lines.specs.Units.{by_number};
ghost use Rattle.i2c_bits.specs.Wiring.{levelled_bits};

use crate::WireTarget;
use crate::edges::holds_with;
use crate::numbers::TargetNumbers;
use crate::place::WirePlace;
use i2c_base::MuxId;
use tgt_bits::BitTarget;

/// The target of this number is joined.
fn joins_by(places: &[WirePlace], targets: &[BitTarget<WireTarget>], number: usize) -> bool
    ensures { result ≡ joins_by places.now (states_on targets.now) number }
{
    match places.get(number) {
        Some(place) => place.joins(targets),
        None => false,
    }
}

/// The target is joined, or isn't.
fn set_known(target: &mut BitTarget<WireTarget>, joined: bool)
    ensures { target.new ≡ known joined target.old }
{
    target.joined = joined;
}

/// Of the targets that have these numbers it is read anew whether they are joined. Lists those that are.
#[inline(always)]
pub fn list_joined(
    bits: &mut Vec<BitTarget<WireTarget>>,
    places: &[WirePlace],
    numbers: &[u16],
    list: &mut TargetNumbers,
)
    requires numbers { AreNumbers (length bits.old.items) numbers.now }
    requires room { list.old.room ≡ length bits.old.items }
    ensures room { list.new.room ≡ list.old.room }
    ensures bits { bits.new.items ≡ by_number (known_of numbers.now (joins_by places.now (states_on bits.old.items))) 0 bits.old.items }
    ensures listed { ListsJoined numbers.now list.new.items bits.new.items }
{
    list.clear();
    list_those(bits, places, numbers, list);
}

/// The same of a slice, into a list that was empty.
#[inline(always)]
fn list_those(
    targets: &mut [BitTarget<WireTarget>],
    places: &[WirePlace],
    numbers: &[u16],
    list: &mut TargetNumbers,
)
    requires numbers { AreNumbers (length targets.old) numbers.now }
    requires room { list.old.room ≡ length targets.old }
    requires none { list.old.items ≡ [] }
    ensures room { list.new.room ≡ list.old.room }
    ensures targets { targets.new ≡ by_number (known_of numbers.now (joins_by places.now (states_on targets.old))) 0 targets.old }
    ensures listed { ListsJoined numbers.now list.new.items targets.new }
{
    for number in numbers {
        let place = usize::from(*number);
        let is_there = place < targets.len();
        prove!(is_there);
        let joined = joins_by(places, targets, place);
        set_known(&mut targets[place], joined);
        list.add_if(joined, *number);
    }
}

/// Of all targets it is read anew whether they are joined.
pub fn refresh_all(targets: &mut Vec<BitTarget<WireTarget>>, places: &[WirePlace])
    ensures { targets.new.items ≡ known_on places.now targets.old.items }
{
    refresh_each(targets, places)
}

/// The same of a slice. It goes from the last one back.
fn refresh_each(targets: &mut [BitTarget<WireTarget>], places: &[WirePlace])
    ensures { targets.new ≡ known_on places.now targets.old }
{
    let mut left = targets.len();
    while left > 0 {
        left -= 1;
        let joined = joins_by(places, targets, left);
        set_known(&mut targets[left], joined);
    }
}

/// The target is joined, or isn't, and isn't in a message.
fn set_joined(target: &mut BitTarget<WireTarget>, joined: bool)
    ensures { target.new ≡ read_anew joined target.old }
{
    target.joined = joined;
    target.heard = false;
}

/// Who is joined is read anew from the states of all targets, and nobody is in a message. Whether someone holds SCL low then.
pub fn rejoin(targets: &mut Vec<BitTarget<WireTarget>>, places: &[WirePlace]) -> bool
    ensures targets { targets.new.items ≡ rejoin_from (joins_by places.now (states_on targets.old.items)) 0 targets.old.items }
    ensures held { result ≡ some_one holds_line targets.new.items }
{
    rejoin_each(targets, places)
}

/// The same of a slice. It goes from the last one back.
fn rejoin_each(targets: &mut [BitTarget<WireTarget>], places: &[WirePlace]) -> bool
    ensures targets { targets.new ≡ rejoin_from (joins_by places.now (states_on targets.old)) 0 targets.old }
    ensures held { result ≡ some_one holds_line targets.new }
{
    let mut held = false;
    let mut left = targets.len();
    while left > 0 {
        left -= 1;
        let joined = joins_by(places, targets, left);
        let target = &mut targets[left];
        set_joined(target, joined);
        held = holds_with(target, held);
    }
    held
}

/// The line of the mux of this number is set to a level, where it is one.
pub fn set_level(targets: &mut Vec<BitTarget<WireTarget>>, mux: MuxId, level: u8)
    ensures { targets.new.items ≡ levelled_bits mux level targets.old.items }
{
    let number = usize::from(mux.0);
    if number < targets.len() {
        set_level_of(&mut targets[number], level);
    }
}

/// The level of a mux's line is set.
fn set_level_of(target: &mut BitTarget<WireTarget>, level: u8)
    ensures { target.new ≡ at_node_level level target.old }
{
    target.target.set_level(level);
}
