//! At an address byte, a start and a stop: who is in the message, and who a message has reached.
ghost use Rattle.std.specs.Prelude.{◌≡◌, ◌<◌, ◌/◌, ◌||◌, ◌&&◌, ◌==◌, ℕ, true, false, [], length, map, cond, get_or};
ghost use Rattle.std.specs.List.{list_all};
ghost use Rattle.tgt_bits.specs.Targets.{IsMode};
ghost use Rattle.wire_spec.specs.declared.mode.Mode.TheVariants as mode;
ghost use Rattle.wire_spec.specs.Roots.{where_joined};
ghost use Rattle.bus_lines.specs.declared.edges.Edge.TheVariants as the;
ghost use Rattle.bus_lines.specs.Edges.{seen, joined_at};
ghost use Rattle.bus_lines.specs.Known.{ListsJoined};
ghost use Rattle.bus_lines.specs.Numbers.{is_among, AreNumbers, numbers_of};
ghost use Rattle.bus_lines.specs.Units.{by_number, to_those, shared, addressed, IsIndex};

use crate::WireTarget;
use crate::edges::{Edge, all_joined, joined_at, tell};
use crate::index::Index;
use crate::numbers::TargetNumbers;
use crate::register::Register;
use tgt_bits::BitTarget;
use wire_spec::Mode;

/// An address byte has come in, with these numbers of who is joined at its address: they are in the message, and were reached by it. It
/// is told to them, and as another's start to those that a message has reached before; all else is quiet.
#[inline(always)]
pub fn call(
    bits: &mut Vec<BitTarget<WireTarget>>,
    at: &Index,
    called: &[u16],
    live: &mut TargetNumbers,
    started: &mut TargetNumbers,
    byte: u8,
)
    requires index { IsIndex (length bits.old.items) at.now }
    requires numbers { AreNumbers (length bits.old.items) called.now }
    requires called { ListsJoined (get_or at.now (byte / 2) []) called.now bits.old.items }
    requires live { live.old.room ≡ length bits.old.items }
    requires started { started.old.room ≡ length bits.old.items }
    ensures live_room { live.new.room ≡ live.old.room }
    ensures started_room { started.new.room ≡ started.old.room }
    ensures live { (k : ℕ) → is_among live.new.items k ≡ (is_among live.old.items k || (is_among (get_or at.now (byte / 2) []) k && joined_at bits.old.items k)) }
    ensures started { (k : ℕ) → is_among started.new.items k ≡ (is_among started.old.items k || (is_among (get_or at.now (byte / 2) []) k && joined_at bits.old.items k)) }
    ensures bits { bits.new.items ≡ by_number (addressed started.new.items (get_or at.now (byte / 2) []) byte) 0 bits.old.items }
{
    add_joined(bits, called, live);
    add_joined(bits, called, started);
    tell(bits, started.as_slice(), Edge::Other(byte));
    tell(bits, called, Edge::Address(byte));
}

/// Adds those of these numbers whose targets are joined.
fn add_joined(targets: &[BitTarget<WireTarget>], numbers: &[u16], list: &mut TargetNumbers)
    requires { AreNumbers list.old.room numbers.now }
    ensures room { list.new.room ≡ list.old.room }
    ensures among { (k : ℕ) → is_among list.new.items k ≡ (is_among list.old.items k || (is_among numbers.now k && joined_at targets.now k)) }
{
    for number in numbers {
        let joined = joined_at(targets, *number);
        list.add_if(joined, *number);
    }
}

/// Leaves none, where the condition holds.
fn clear_if(list: &mut TargetNumbers, condition: bool)
    ensures { list.new ≡ numbers_of list.old.room (cond condition [] list.old.items) }
{
    if condition {
        list.clear();
    }
}

/// A start: who is joined is out of the message that was.
#[inline(always)]
pub fn leave(bits: &mut Vec<BitTarget<WireTarget>>, live: &mut TargetNumbers)
    requires { live.old.room ≡ length bits.old.items }
    ensures live { live.new ≡ numbers_of live.old.room (cond (list_all (joined_at bits.old.items) live.old.items) [] live.old.items) }
    ensures bits { bits.new.items ≡ by_number (to_those live.old.items (where_joined (seen the.Leave))) 0 bits.old.items }
{
    let all = all_joined(bits, live.as_slice());
    tell(bits, live.as_slice(), Edge::Leave);
    clear_if(live, all);
}

/// A stop: it reaches who is joined. Whether it reached all that a message had reached.
#[inline(always)]
pub fn stop(
    bits: &mut Vec<BitTarget<WireTarget>>,
    live: &mut TargetNumbers,
    started: &mut TargetNumbers,
) -> bool
    requires { started.old.room ≡ length bits.old.items }
    ensures live { live.new ≡ numbers_of live.old.room (cond (list_all (joined_at bits.old.items) started.old.items) [] live.old.items) }
    ensures started { started.new ≡ numbers_of started.old.room (cond (list_all (joined_at bits.old.items) started.old.items) [] started.old.items) }
    ensures bits { bits.new.items ≡ by_number (to_those started.old.items (where_joined (seen the.Finish))) 0 bits.old.items }
    ensures result { result ≡ list_all (joined_at bits.old.items) started.old.items }
{
    let all = all_joined(bits, started.as_slice());
    tell(bits, started.as_slice(), Edge::Finish);
    clear_if(live, all);
    clear_if(started, all);
    all
}

/// What has come of an address byte is given to each target that is joined, so that none comes in any more: then each of them may
/// be in the message.
#[inline(never)]
pub fn spread(
    bits: &mut Vec<BitTarget<WireTarget>>,
    live: &mut TargetNumbers,
    started: &mut TargetNumbers,
    address: &mut Register,
)
    ensures live_room { live.new.room ≡ live.old.room }
    ensures started_room { started.new.room ≡ started.old.room }
    ensures address { address.new.left ≡ 0 }
    ensures live { (k : ℕ) → k < live.old.room → is_among live.new.items k ≡ false → (address.old.left ≡ 0) × (is_among live.old.items k ≡ false) }
    ensures started { (k : ℕ) → k < started.old.room → is_among started.new.items k ≡ false → (address.old.left ≡ 0) × (is_among started.old.items k ≡ false) }
    ensures bits { bits.new.items ≡ map (shared address.old.left address.old.value) bits.old.items }
{
    if address.is_coming() {
        spread_each(bits, address.left(), address.value());
        live.add_all();
        started.add_all();
        *address = Register::none();
    }
}

/// The same of a slice, where an address comes in. It goes from the last one back.
fn spread_each(targets: &mut [BitTarget<WireTarget>], left: u8, value: u8)
    requires some { 0 < left }
    requires mode { IsMode (mode.In true left value) }
    ensures { targets.new ≡ map (shared left value) targets.old }
{
    let mut number = targets.len();
    while number > 0 {
        number -= 1;
        give(&mut targets[number], left, value);
    }
}

/// A target that is joined has this of an address byte.
fn give(target: &mut BitTarget<WireTarget>, left: u8, value: u8)
    requires some { 0 < left }
    requires mode { IsMode (mode.In true left value) }
    ensures { target.new ≡ shared left value target.old }
{
    if target.joined {
        target.mode = Mode::In {
            address: true,
            left,
            value,
        };
        target.hold = 0;
    }
}
