//! The edges of the lines, as those targets see them that they are told to.
ghost use Rattle.std.specs.Prelude.{◌≡◌, ◌||◌, false, length};
ghost use Rattle.std.specs.List.{list_all, list_any};
ghost use Rattle.wire_spec.specs.Roots.{where_joined};
ghost use Rattle.wire_spec.specs.Bus.{holds_line};
ghost use Rattle.wire_spec.specs.Calls.{released};
ghost use Rattle.bus_lines.specs.Edges.{seen, acks_in, acks_put, byte_or_ones, gives_in, gives_get, acked_in, acks_enter, pulls_at, slow_at, joined_at};
ghost use Rattle.bus_lines.specs.Numbers.{AreNumbers};
ghost use Rattle.bus_lines.specs.Units.{by_number, some_by, and_by, to_those, of_those, given_by};
ghost use Rattle.bus_lines.specs.declared.edges.Edge.TheVariants as the;

use crate::WireTarget;
use i2c_base::{Answer, Event, MOST_LOOKS, Target};
use tgt_bits::{BitTarget, Wired, entered, wired_targets_are_fair};
use wire_spec::Mode;

/// A byte has so many bits (UM10204 section 3.1.5).
const BITS: u8 = 8;

/// What the lines do, as a target sees it.
#[derive(Clone, Copy)]
pub enum Edge {
    /// SCL rises, with SDA at this level.
    Rise(bool),
    /// SCL falls.
    Fall,
    /// SCL was looked at and was low.
    Tick,
    /// A stop: SDA rises while SCL is high.
    Finish,
    /// A start: it is out of the message that was.
    Leave,
    /// An address byte has come in, where it isn't the target's own.
    Other(u8),
    /// An address byte has come in.
    Address(u8),
    /// A byte with its acknowledge clock, all nine clocks at once.
    Put(u8),
    /// A byte that is read, with the controller's answer, all nine clocks at once.
    Get(bool),
    /// The acknowledge clock of an address, as a whole.
    Enter,
}

/// A target sees an edge, where it is joined.
#[inline(always)]
fn see(target: &mut BitTarget<WireTarget>, edge: Edge)
    ensures { target.new ≡ where_joined (seen edge) target.old }
{
    if !target.joined {
        return;
    }
    match edge {
        Edge::Rise(level) => target.on_rise(level),
        Edge::Fall => target.on_fall(),
        Edge::Tick => target.on_tick(),
        Edge::Finish => target.on_finish(),
        Edge::Leave => leave(target),
        Edge::Other(byte) => see_other(target, byte),
        Edge::Address(byte) => target.on_address(byte),
        Edge::Put(byte) => {
            put_in(target, byte);
        }
        Edge::Get(ack) => {
            get_in(target, ack);
        }
        Edge::Enter => {
            enter_in(target);
        }
    }
}

/// A byte with its acknowledge clock comes to a target. Whether it stands between two bytes of a write, and acknowledges it.
#[inline(always)]
fn put_in(target: &mut BitTarget<WireTarget>, byte: u8) -> bool
    ensures target { target.new ≡ seen (the.Put byte) target.old }
    ensures acked { result ≡ acks_in byte target.old target.old.mode }
{
    match target.mode {
        Mode::In { address: false, .. } => match target.target.on(Event::Put(byte)) {
            Answer::Ack => true,
            Answer::Slow | Answer::Nack | Answer::Byte(_) | Answer::Nothing => false,
        },
        Mode::In { .. }
        | Mode::Out
        | Mode::Answered { .. }
        | Mode::Give { .. }
        | Mode::Gave { .. } => false,
    }
}

/// The same where it is joined. Whether it acknowledges the byte, or one of the others.
#[inline(always)]
fn put(target: &mut BitTarget<WireTarget>, byte: u8, others: bool) -> bool
    ensures target { target.new ≡ where_joined (seen (the.Put byte)) target.old }
    ensures acked { result ≡ (acks_put byte target.old || others) }
{
    (target.joined && put_in(target, byte)) || others
}

/// A byte with its acknowledge clock comes to those that have these numbers, where they are joined, and to no other. Whether one of
/// them acknowledges it.
#[inline(always)]
pub fn put_all(targets: &mut Vec<BitTarget<WireTarget>>, numbers: &[u16], byte: u8) -> bool
    requires { AreNumbers (length targets.old.items) numbers.now }
    ensures targets { targets.new.items ≡ by_number (to_those numbers.now (where_joined (seen (the.Put byte)))) 0 targets.old.items }
    ensures acked { result ≡ some_by (of_those numbers.now (acks_put byte)) 0 targets.old.items }
{
    put_each(targets, numbers, byte)
}

/// The same of a slice.
#[inline(always)]
fn put_each(targets: &mut [BitTarget<WireTarget>], numbers: &[u16], byte: u8) -> bool
    requires { AreNumbers (length targets.old) numbers.now }
    ensures targets { targets.new ≡ by_number (to_those numbers.now (where_joined (seen (the.Put byte)))) 0 targets.old }
    ensures acked { result ≡ some_by (of_those numbers.now (acks_put byte)) 0 targets.old }
{
    let mut acked = false;
    for number in numbers {
        let number = usize::from(*number);
        let is_there = number < targets.len();
        prove!(is_there);
        let target = &mut targets[number];
        acked = put(target, byte, acked);
    }
    acked
}

/// A target is out of the message that was.
fn leave(target: &mut BitTarget<WireTarget>)
    ensures { target.new ≡ released target.old.site }
{
    target.mode = Mode::Out;
    target.hold = 0;
}

/// An address byte has come in: it is nothing to a target that it names.
fn see_other(target: &mut BitTarget<WireTarget>, byte: u8)
    ensures { target.new ≡ seen (the.Other byte) target.old }
{
    if byte / 2 != target.addr {
        target.on_address(byte);
    }
}

/// Someone holds SCL low: this target, where it is joined, or one of the others.
#[inline(always)]
pub fn holds_with(target: &BitTarget<WireTarget>, others: bool) -> bool
    ensures { result ≡ (holds_line target.now || others) }
{
    (target.joined && target.holds_clock()) || others
}

/// Those targets see an edge that have these numbers, where they are joined, and no other is touched. Whether one of them holds SCL
/// low then.
#[inline(always)]
pub fn tell(targets: &mut Vec<BitTarget<WireTarget>>, numbers: &[u16], edge: Edge) -> bool
    requires { AreNumbers (length targets.old.items) numbers.now }
    ensures targets { targets.new.items ≡ by_number (to_those numbers.now (where_joined (seen edge))) 0 targets.old.items }
    ensures held { result ≡ some_by (of_those numbers.now holds_line) 0 targets.new.items }
{
    tell_each(targets, numbers, edge)
}

/// The same of a slice.
#[inline(always)]
fn tell_each(targets: &mut [BitTarget<WireTarget>], numbers: &[u16], edge: Edge) -> bool
    requires { AreNumbers (length targets.old) numbers.now }
    ensures targets { targets.new ≡ by_number (to_those numbers.now (where_joined (seen edge))) 0 targets.old }
    ensures held { result ≡ some_by (of_those numbers.now holds_line) 0 targets.new }
{
    let mut held = false;
    for number in numbers {
        let number = usize::from(*number);
        let is_there = number < targets.len();
        prove!(is_there);
        let target = &mut targets[number];
        see(target, edge);
        held = holds_with(target, held);
    }
    held
}

/// The byte of an answer, and all ones where it has none.
#[inline(always)]
fn byte_of(answer: Answer) -> u8
    ensures { result ≡ byte_or_ones answer }
{
    match answer {
        Answer::Byte(byte) => byte,
        Answer::Ack | Answer::Nack | Answer::Slow | Answer::Nothing => 0xff,
    }
}

/// A byte is read with the controller's answer. What the target gives: all ones where it doesn't send.
#[inline(always)]
fn get_in(target: &mut BitTarget<WireTarget>, ack: bool) -> u8
    ensures target { target.new ≡ seen (the.Get ack) target.old }
    ensures byte { result ≡ gives_in target.old target.old.mode }
{
    match target.mode {
        Mode::Give { .. } => {
            wired_targets_are_fair::<WireTarget>();
            target.mode = if ack {
                Mode::Give { left: BITS }
            } else {
                Mode::Out
            };
            byte_of(target.target.on(Event::Get { ack }))
        }
        Mode::In { .. } | Mode::Out | Mode::Answered { .. } | Mode::Gave { .. } => 0xff,
    }
}

/// The same where it is joined.
#[inline(always)]
fn get(target: &mut BitTarget<WireTarget>, ack: bool) -> u8
    ensures target { target.new ≡ where_joined (seen (the.Get ack)) target.old }
    ensures byte { result ≡ gives_get target.old }
{
    if target.joined {
        get_in(target, ack)
    } else {
        0xff
    }
}

/// A byte is read with the controller's answer from those that have these numbers, where they are joined, and from no other. The AND
/// of what they give.
#[inline(always)]
pub fn get_all(targets: &mut Vec<BitTarget<WireTarget>>, numbers: &[u16], ack: bool) -> u8
    requires { AreNumbers (length targets.old.items) numbers.now }
    ensures targets { targets.new.items ≡ by_number (to_those numbers.now (where_joined (seen (the.Get ack)))) 0 targets.old.items }
    ensures byte { result ≡ and_by (given_by numbers.now gives_get) 0 targets.old.items }
{
    get_each(targets, numbers, ack)
}

/// The same of a slice.
#[inline(always)]
fn get_each(targets: &mut [BitTarget<WireTarget>], numbers: &[u16], ack: bool) -> u8
    requires { AreNumbers (length targets.old) numbers.now }
    ensures targets { targets.new ≡ by_number (to_those numbers.now (where_joined (seen (the.Get ack)))) 0 targets.old }
    ensures byte { result ≡ and_by (given_by numbers.now gives_get) 0 targets.old }
{
    let mut byte: u8 = 0xff;
    for number in numbers {
        let number = usize::from(*number);
        let is_there = number < targets.len();
        prove!(is_there);
        let target = &mut targets[number];
        byte &= get(target, ack);
    }
    byte
}

/// The acknowledge clock of an address, as a whole. Whether the target pulls SDA in it.
#[inline(always)]
fn enter_in(target: &mut BitTarget<WireTarget>) -> bool
    ensures target { target.new ≡ seen the.Enter target.old }
    ensures acked { result ≡ acked_in target.old.mode }
{
    match target.mode {
        Mode::Answered { acked, next, .. } => {
            leave(target);
            target.mode = entered(next);
            acked
        }
        Mode::In { .. } | Mode::Out | Mode::Give { .. } | Mode::Gave { .. } => false,
    }
}

/// The same where it is joined. Whether it pulls SDA, or one of the others.
#[inline(always)]
fn enter(target: &mut BitTarget<WireTarget>, others: bool) -> bool
    ensures target { target.new ≡ where_joined (seen the.Enter) target.old }
    ensures acked { result ≡ (acks_enter target.old || others) }
{
    (target.joined && enter_in(target)) || others
}

/// The acknowledge clock of an address, as a whole, for those that have these numbers, where they are joined, and for no other. Whether
/// one of them pulls SDA in it.
#[inline(always)]
pub fn enter_all(targets: &mut Vec<BitTarget<WireTarget>>, numbers: &[u16]) -> bool
    requires { AreNumbers (length targets.old.items) numbers.now }
    ensures targets { targets.new.items ≡ by_number (to_those numbers.now (where_joined (seen the.Enter))) 0 targets.old.items }
    ensures acked { result ≡ some_by (of_those numbers.now acks_enter) 0 targets.old.items }
{
    enter_each(targets, numbers)
}

/// The same of a slice.
#[inline(always)]
fn enter_each(targets: &mut [BitTarget<WireTarget>], numbers: &[u16]) -> bool
    requires { AreNumbers (length targets.old) numbers.now }
    ensures targets { targets.new ≡ by_number (to_those numbers.now (where_joined (seen the.Enter))) 0 targets.old }
    ensures acked { result ≡ some_by (of_those numbers.now acks_enter) 0 targets.old }
{
    let mut acked = false;
    for number in numbers {
        let number = usize::from(*number);
        let is_there = number < targets.len();
        prove!(is_there);
        let target = &mut targets[number];
        acked = enter(target, acked);
    }
    acked
}

/// The target of this number is joined, and pulls SDA low.
fn pulls_at(targets: &[BitTarget<WireTarget>], number: u16) -> bool
    ensures { result ≡ pulls_at targets.now number }
{
    match targets.get(usize::from(number)) {
        Some(target) => target.joined && target.pulls_data(),
        None => false,
    }
}

/// One of these does.
pub fn some_pulls(targets: &[BitTarget<WireTarget>], numbers: &[u16]) -> bool
    ensures { result ≡ list_any (pulls_at targets.now) numbers.now }
{
    numbers.iter().any(|number| pulls_at(targets, *number))
}

/// The target of this number is joined, and would hold the clock at its address for too long.
fn slow_at(targets: &[BitTarget<WireTarget>], number: u16) -> bool
    ensures { result ≡ slow_at targets.now number }
{
    match targets.get(usize::from(number)) {
        Some(target) => target.joined && target.target.hold() > MOST_LOOKS,
        None => false,
    }
}

/// One of these would.
pub fn some_slow(targets: &[BitTarget<WireTarget>], numbers: &[u16]) -> bool
    ensures { result ≡ list_any (slow_at targets.now) numbers.now }
{
    numbers.iter().any(|number| slow_at(targets, *number))
}

/// The target of this number is joined.
pub fn joined_at(targets: &[BitTarget<WireTarget>], number: u16) -> bool
    ensures { result ≡ joined_at targets.now number }
{
    match targets.get(usize::from(number)) {
        Some(target) => target.joined,
        None => false,
    }
}

/// All of these are joined.
pub fn all_joined(targets: &[BitTarget<WireTarget>], numbers: &[u16]) -> bool
    ensures { result ≡ list_all (joined_at targets.now) numbers.now }
{
    numbers.iter().all(|number| joined_at(targets, *number))
}
