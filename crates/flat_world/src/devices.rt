//! The devices of the flat world during a transfer.
ghost use Rattle.std.specs.Prelude.{◌≡◌, ◌<◌, Some, map, IfOk, IfSome, eqb, if◌then◌else◌};
ghost use Rattle.std.specs.List.{IsDistinct};
ghost use Rattle.i2c_base.specs.Limits.{MOST_DEVICES};
ghost use Rattle.i2c_base.specs.declared.port.PortCall.TheVariants as call;
ghost use Rattle.i2c_base.specs.declared.event.Event.TheVariants as event;
ghost use Rattle.i2c_spec.specs.Flat as flat;
ghost use Rattle.i2c_board.specs.Layouts.{board_of};
ghost use Rattle.i2c_spec.specs.Plain.{IsPlainBoard};
ghost use Rattle.i2c_spec.specs.Targets.{opening_state};
ghost use Rattle.i2c_spec.specs.World.{feed, has_heard, is_ack};
ghost use Rattle.flat_world.specs.Devices.{AreNamed, add_once, answer_in, behind_start, started, to_others};

use arrayvec::ArrayVec;
use i2c_base::{Answer, DeviceSpec, Event, MOST_DEVICES, NoMemory, Target};
use i2c_board::Layout;
use std::alloc::Global;
use std::marker::Model;
use targets::DeviceState;

/// The devices during a transfer: their states, which of them it has named, and the one that listens to the message in
/// progress. Only these hear anything. A contract sees the record of these parts.
#[derive(Drop)]
pub struct Devices {
    states: Vec<DeviceState>,
    /// Each once.
    named: ArrayVec<u16, MOST_DEVICES>,
    current: Option<u16>,
}

impl Model for Devices {
    ghost use Rattle.i2c_spec.specs.Flat.{FlatListener};
    ghost use Rattle.flat_world.specs.Devices.{AreNamed};

    ghost Value = { FlatListener };

    ghost view = { λ d. record { states = d.states.items; named = d.named.items; current = d.current } };

    ghost invariant = { λ d. AreNamed d.named.items };
}

impl Devices {
    /// The devices of a board as they are opened.
    #[tactic(auto, using(crate::proofs::NamedLemmas::none_named))]
    pub fn open(alloc: Global, layout: Layout<'_>) -> Result<Self, NoMemory>
        requires { IsPlainBoard (board_of layout) }
        ensures { IfOk result (λ d. d ≡ flat.idle (map opening_state layout.entry.devices.now)) }
    {
        Ok(Devices {
            states: open_all(alloc, layout)?,
            named: ArrayVec::new(),
            current: None,
        })
    }

    /// Their states, by number.
    pub fn states(&self) -> &[DeviceState]
        ensures { result.now ≡ self.now.states }
    {
        self.states.as_slice()
    }

    /// Before a transfer nobody is named, and nobody listens.
    #[tactic(auto, using(crate::proofs::NamedLemmas::none_named))]
    pub fn begin(&mut self)
        ensures { self.new ≡ flat.idle self.old.states }
    {
        self.named.clear();
        self.current = None;
    }

    /// A start that leads to this device, or to nobody. It is a start with another address for those named before.
    #[tactic(auto, using(crate::proofs::FeedLemmas::states_answer))]
    pub fn start(&mut self, granted: Option<u16>, reading: bool) -> Answer
        requires { IfSome granted (λ d. d < MOST_DEVICES) }
        ensures answer { result ≡ flat.acknowledged (flat.answer_of self.old.states granted (event.Start reading)) }
        ensures after { self.new ≡ started granted reading self.old }
    {
        let answer = tell(&mut self.states, granted, Event::Start { reading });
        tell_others(
            &mut self.states,
            granted,
            self.named.as_slice(),
            Event::Other,
        );
        name(&mut self.named, granted);
        self.current = listener(answer, granted);
        acknowledged(answer)
    }

    /// A byte is put. Whether the device that listens acknowledges it.
    #[tactic(auto, using(crate::proofs::FeedLemmas::states_answer))]
    pub fn put(&mut self, byte: u8) -> bool
        ensures taken { result ≡ behind_start.takes self.old byte }
        ensures after { self.new ≡ behind_start.after self.old (call.Put byte) }
    {
        let answer = tell(&mut self.states, self.current, Event::Put(byte));
        matches!(answer, Answer::Ack)
    }

    /// A byte is read from the device that listens, and acknowledged or not.
    #[tactic(auto, using(crate::proofs::FeedLemmas::states_answer))]
    pub fn get(&mut self, ack: bool) -> u8
        ensures given { result ≡ behind_start.gives self.old }
        ensures after { self.new ≡ behind_start.after self.old (call.Get ack) }
    {
        let answer = tell(&mut self.states, self.current, Event::Get { ack });
        answer.sent()
    }

    /// A stop goes to all that were named. A call that fails acts as one.
    #[tactic(auto, using(crate::proofs::NamedLemmas::none_named))]
    pub fn stop(&mut self)
        ensures { self.new ≡ flat.flat_stopped self.old }
    {
        tell_others(&mut self.states, None, self.named.as_slice(), Event::Stop);
        self.named.clear();
        self.current = None;
    }
}

fn open_all(alloc: Global, layout: Layout<'_>) -> Result<Vec<DeviceState>, NoMemory>
    requires { IsPlainBoard (board_of layout) }
    ensures { IfOk result (λ states. states.items ≡ map opening_state layout.entry.devices.now) }
{
    let mut states = Vec::with_capacity(alloc, layout.devices.len())?;
    for device in layout.devices {
        states.push(DeviceState::open(alloc, device)?)?;
    }
    Ok(states)
}

/// Tells the target at a place of an event, where there is one. What it answers.
#[tactic(auto, using(crate::proofs::FeedLemmas::absent_fed, crate::proofs::FeedLemmas::absent_answer))]
fn tell_at<T: Target>(targets: &mut [T], place: usize, event: Event) -> Answer
    ensures answer { result ≡ answer_in T.table targets.old (Some place) event }
    ensures fed { targets.new ≡ feed T.table (flat.to_current (Some place) event) 0 targets.old }
{
    if place < targets.len() {
        targets[place].on(event)
    } else {
        Answer::Nothing
    }
}

/// Tells one target of an event, or nobody. What it answers; nobody is silence.
#[tactic(auto, using(crate::proofs::FeedLemmas::nobody_fed))]
fn tell<T: Target>(targets: &mut [T], number: Option<u16>, event: Event) -> Answer
    ensures answer { result ≡ answer_in T.table targets.old number event }
    ensures fed { targets.new ≡ feed T.table (flat.to_current number event) 0 targets.old }
{
    match number {
        Some(number) => tell_at(targets, usize::from(number), event),
        None => Answer::Nothing,
    }
}

/// Tells those of these numbers of an event, but for one.
fn tell_others<T: Target>(targets: &mut [T], one: Option<u16>, numbers: &[u16], event: Event)
    requires { IsDistinct eqb numbers.now }
    ensures { targets.new ≡ feed T.table (to_others one numbers.now event) 0 targets.old }
{
    for number in numbers {
        if one != Some(*number) {
            let _answer = tell_at(targets, usize::from(*number), event);
        }
    }
}

fn is_named(named: &[u16], device: u16) -> bool
    ensures { result ≡ flat.is_member device named.now }
{
    named.iter().any(|other| *other == device)
}

/// Lists a device among those that were named, once.
#[tactic(auto, using(crate::proofs::NamedLemmas::named_push, crate::proofs::NamedLemmas::named_room))]
fn name(named: &mut ArrayVec<u16, MOST_DEVICES>, device: Option<u16>)
    requires old { AreNamed named.old.items }
    requires small { IfSome device (λ d. d < MOST_DEVICES) }
    ensures items { named.new.items ≡ add_once device named.old.items }
    ensures new { AreNamed named.new.items }
{
    if let Some(device) = device {
        if !is_named(named.as_slice(), device) {
            named.push(device);
        }
    }
}

/// Who listens after a start: the device that it leads to, where it acknowledges or holds the clock to do so.
fn listener(answer: Answer, granted: Option<u16>) -> Option<u16>
    ensures { result ≡ (if has_heard answer then granted else None) }
{
    match answer {
        Answer::Ack | Answer::Slow => granted,
        Answer::Nack | Answer::Byte(_) | Answer::Nothing => None,
    }
}

/// What a port answers to a start.
fn acknowledged(answer: Answer) -> Answer
    ensures { result ≡ flat.acknowledged answer }
{
    match answer {
        Answer::Ack | Answer::Slow => answer,
        Answer::Nack | Answer::Byte(_) | Answer::Nothing => Answer::Nack,
    }
}
