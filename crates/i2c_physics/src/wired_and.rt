//! Several targets on the same wires: each is told of a call, and their answers are joined.
ghost use Rattle.std.specs.Prelude.{◌≡◌, ℕ, ◌+◌, ◌<◌, ◌≤◌, List, [], ◌∷◌, length, if◌then◌else◌};
ghost use Rattle.i2c_base.specs.declared.event.Event.TheVariants as event;
ghost use Rattle.i2c_base.specs.declared.event.Answer.{Answer};
ghost use Rattle.i2c_spec.specs.World.{answers, feed, has_heard};
ghost use Rattle.i2c_base.specs.Limits.{MOST_DEVICES};
ghost use Rattle.i2c_physics.specs.Heard.{numbers_of};
ghost use Rattle.i2c_physics.specs.Reach.{AreRising, to_those, union_of};
ghost use Rattle.i2c_physics.specs.Answering.{wired_and_of, start_answer};

use crate::numbers::KindNumbers;
use crate::reach::Reach;
use i2c_base::{Answer, Event, Target};

/// What several targets answer to a call together.
#[derive(Clone, Copy)]
pub struct WiredAnd {
    /// Someone holds the clock for too long.
    pub slow: bool,
    /// Someone acknowledges.
    pub acked: bool,
    /// The bitwise AND of what is sent.
    pub byte: u8,
}

impl WiredAnd {
    /// What nobody answers.
    fn silence() -> Self
        ensures { result ≡ wired_and_of [] }
    {
        WiredAnd {
            slow: false,
            acked: false,
            byte: 0xff,
        }
    }

    /// With the answer of one more target before the others.
    fn add(&mut self, answer: Answer)
        ensures { (k : ℕ) (xs : List (ℕ × Answer)) → self.old ≡ wired_and_of xs → self.new ≡ wired_and_of ((k, answer) ∷ xs) }
    {
        self.byte = answer.sent() & self.byte;
        match answer {
            Answer::Ack => self.acked = true,
            Answer::Slow => self.slow = true,
            Answer::Nack | Answer::Byte(_) | Answer::Nothing => {}
        }
    }
}

/// Puts the number of a target before the others, where it acknowledges or holds the clock to do so.
fn hear(heard: &mut KindNumbers, number: u16, answer: Answer)
    requires { length heard.old < MOST_DEVICES }
    ensures items { heard.new ≡ (if has_heard answer then number ∷ heard.old else heard.old) }
    ensures room { length heard.new ≤ length heard.old + 1 }
{
    match answer {
        // Nearly always it is the only one.
        Answer::Ack | Answer::Slow if heard.as_slice().is_empty() => heard.push(number),
        Answer::Ack | Answer::Slow => heard.put_first(number),
        Answer::Nack | Answer::Byte(_) | Answer::Nothing => {}
    }
}

/// Tells those targets of an event whose numbers these are, joins what they answer, and lists who has heard. It goes from
/// the last one back, so that those come out by number.
#[inline(always)]
pub fn tell<T: Target>(
    targets: &mut [T],
    numbers: &[u16],
    event: Event,
    heard: &mut KindNumbers,
) -> WiredAnd
    requires few { length targets.old ≤ MOST_DEVICES }
    requires rising { AreRising 0 (length targets.old) numbers.now }
    ensures fed { targets.new ≡ feed T.table (to_those numbers.now event) 0 targets.old }
    ensures answered { result ≡ wired_and_of (answers T.table (to_those numbers.now event) 0 targets.old) }
    ensures heard { heard.new ≡ numbers_of (answers T.table (to_those numbers.now event) 0 targets.old) }
{
    let mut wired_and = WiredAnd::silence();
    heard.clear();
    let mut left = numbers.len();
    while left > 0 {
        left -= 1;
        let number = numbers[left];
        let is_there = usize::from(number) < targets.len();
        prove!(is_there);
        let answer = targets[usize::from(number)].on(event);
        wired_and.add(answer);
        hear(heard, number, answer);
    }
    wired_and
}

/// Tells one target alone of an event. What it answers.
#[inline(always)]
fn tell_one<T: Target>(targets: &mut [T], number: u16, event: Event) -> WiredAnd
    requires { number < length targets.old }
    ensures fed { targets.new ≡ feed T.table (to_those (number ∷ []) event) 0 targets.old }
    ensures answered { result ≡ wired_and_of (answers T.table (to_those (number ∷ []) event) 0 targets.old) }
{
    let mut wired_and = WiredAnd::silence();
    wired_and.add(targets[usize::from(number)].on(event));
    wired_and
}

/// Delivers a start to all that is addressed or still started; gives the wired AND of the addressed ones' answers.
pub fn begin<T: Target>(targets: &mut [T], reach: &mut Reach, reading: bool) -> WiredAnd
    requires few { length targets.old ≤ MOST_DEVICES }
    requires started { AreRising 0 (length targets.old) reach.old.started }
    requires told { AreRising 0 (length targets.old) reach.old.addressed }
    requires rest { AreRising 0 (length targets.old) reach.old.rest }
    ensures fed { targets.new ≡ feed T.table (to_those reach.old.rest event.Other) 0 (feed T.table (to_those reach.old.addressed (event.Start reading)) 0 targets.old) }
    ensures answered { result ≡ wired_and_of (answers T.table (to_those reach.old.addressed (event.Start reading)) 0 targets.old) }
    ensures hearing { reach.new.hearing ≡ numbers_of (answers T.table (to_those reach.old.addressed (event.Start reading)) 0 targets.old) }
    ensures started { reach.new.started ≡ union_of (length targets.old) reach.old.started reach.old.addressed }
{
    let start = Event::Start { reading };
    let wired_and = tell(
        targets,
        reach.addressed.as_slice(),
        start,
        &mut reach.hearing,
    );
    let other = Event::Other;
    let _others = tell(targets, reach.rest.as_slice(), other, &mut reach.room);
    reach.add_told(targets.len());
    wired_and
}

/// Tells of a stop those that it reaches: they are started no more, and nobody hears any more.
pub fn end<T: Target>(targets: &mut [T], reach: &mut Reach)
    requires few { length targets.old ≤ MOST_DEVICES }
    requires told { AreRising 0 (length targets.old) reach.old.addressed }
    ensures fed { targets.new ≡ feed T.table (to_those reach.old.addressed event.Stop) 0 targets.old }
    ensures started { reach.new.started ≡ reach.old.rest }
    ensures hearing { reach.new.hearing ≡ [] }
{
    let _answered = tell(
        targets,
        reach.addressed.as_slice(),
        Event::Stop,
        &mut reach.room,
    );
    reach.leave_rest();
}

/// Tells those who have heard the start of the message of an event: nearly always a single one, or none. What they answer.
#[inline(always)]
pub fn deliver<T: Target>(targets: &mut [T], reach: &mut Reach, event: Event) -> WiredAnd
    requires few { length targets.old ≤ MOST_DEVICES }
    requires hearing { AreRising 0 (length targets.old) reach.old.hearing }
    ensures fed { targets.new ≡ feed T.table (to_those reach.old.hearing event) 0 targets.old }
    ensures answered { result ≡ wired_and_of (answers T.table (to_those reach.old.hearing event) 0 targets.old) }
    ensures started { reach.new.started ≡ reach.old.started }
    ensures hearing { reach.new.hearing ≡ reach.old.hearing }
{
    match reach.hearing.as_slice() {
        [] => WiredAnd::silence(),
        [number] => tell_one(targets, *number, event),
        _ => deliver_to_all(targets, reach, event),
    }
}

/// The same for any number of them. It isn't made part of the calls, which are short without it.
#[inline(never)]
fn deliver_to_all<T: Target>(targets: &mut [T], reach: &mut Reach, event: Event) -> WiredAnd
    requires few { length targets.old ≤ MOST_DEVICES }
    requires hearing { AreRising 0 (length targets.old) reach.old.hearing }
    ensures fed { targets.new ≡ feed T.table (to_those reach.old.hearing event) 0 targets.old }
    ensures answered { result ≡ wired_and_of (answers T.table (to_those reach.old.hearing event) 0 targets.old) }
    ensures started { reach.new.started ≡ reach.old.started }
    ensures hearing { reach.new.hearing ≡ reach.old.hearing }
{
    tell(targets, reach.hearing.as_slice(), event, &mut reach.room)
}

/// The answer of a start, by what chips and devices answer.
pub fn answer_of(chips: WiredAnd, devices: WiredAnd) -> Answer
    ensures { result ≡ start_answer chips devices }
{
    if chips.slow || devices.slow {
        Answer::Slow
    } else if chips.acked || devices.acked {
        Answer::Ack
    } else {
        Answer::Nack
    }
}
