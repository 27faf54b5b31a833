//! The chip of a mux, or the line of a gpio mux: which of its channels are open.
ghost use Rattle.std.specs.Prelude.{◌≡◌, ◌≤◌, ◌%◌, ◌^◌};
ghost use Rattle.i2c_spec.specs.Chips.{chip_opening, chip_sends, is_open, at_level, looked, chip_stopped, arbitrated, bit_of};

use i2c_base::{Answer, ChannelCode, Event, MuxKind, MuxSpec, POLLS, Target};
use std::marker::Model;

/// An arbitrator that is found with its other controller as often as it is asked stays there.
const FOREIGN_FOR_GOOD: u8 = POLLS;

/// The chip of a mux, or the line of a gpio mux. A byte that is written to a chip takes effect at the stop.
#[derive(Drop)]
pub struct Chip {
    kind: MuxKind,
    /// The control byte of a switch; 1 where an arbitrator is open, else 0; the level of a gpio mux.
    control: u8,
    /// The byte that waits for the stop.
    waiting: Option<u8>,
    /// How often an arbitrator is still found with its other controller.
    left: u8,
    foreign: u8,
}

impl Model for Chip {
    ghost use Rattle.i2c_spec.specs.Chips.{ChipView};

    ghost Value = { ChipView };

    ghost view = { λ c. record { kind = c.kind; control = c.control; waiting = c.waiting; left = c.left; foreign = c.foreign } };
}

impl Chip {
    /// The chip as its board says that it is opened: no channel is open, and an arbitrator is with its other
    /// controller.
    pub fn open(spec: &MuxSpec) -> Self
        ensures { result ≡ chip_opening spec.now }
    {
        Chip {
            kind: spec.kind,
            control: 0,
            waiting: None,
            left: spec.foreign,
            foreign: spec.foreign,
        }
    }

    /// This channel is open.
    pub fn is_open(&self, channel: u8) -> bool
        ensures { result ≡ is_open self.now channel }
    {
        self.opens(u16::from(channel))
    }

    /// The same of a channel as the hops over a bus count it, in 16 bits.
    pub fn opens(&self, channel: u16) -> bool
        ensures { result ≡ is_open self.now channel }
    {
        match self.kind.facts().code {
            ChannelCode::Bits => has_bit(self.control, channel),
            ChannelCode::Number(bit) => has_bit(self.control, u16::from(bit))
                && u16::from(low_bits(self.control, bit)) == channel,
            ChannelCode::Alone => self.control == 1 && channel == 0,
            ChannelCode::Level => u32::from(self.control) == u32::from(channel) + 1,
        }
    }

    /// Sets the line of a gpio mux: level 0 opens no channel, level k opens channel k - 1.
    pub fn set_level(&mut self, level: u8)
        ensures { self.new ≡ at_level self.old level }
    {
        self.control = level;
    }

    /// The byte that the next read would give.
    pub fn sends(&self) -> u8
        ensures { result ≡ chip_sends self.now.kind self.now }
    {
        let facts = self.kind.facts();
        if facts.asks {
            u8::from(self.foreign == FOREIGN_FOR_GOOD || self.left > 0)
        } else if facts.by_line {
            0xff
        } else {
            self.control
        }
    }

    /// A byte was read: an arbitrator that was found with its other controller is found so once less.
    fn look(&mut self)
        ensures { self.new ≡ looked self.old.kind self.old }
    {
        if self.kind.facts().asks && self.foreign != FOREIGN_FOR_GOOD {
            self.left = self.left.saturating_sub(1);
        }
    }

    /// A stop came: a byte that waits is taken.
    fn stop(&mut self)
        ensures { self.new ≡ chip_stopped self.old self.old.waiting }
    {
        let facts = self.kind.facts();
        if let Some(byte) = self.waiting {
            if facts.asks {
                self.arbitrate(byte);
            } else if !facts.by_line {
                self.take(low_bits(byte, facts.bits));
            }
        }
    }

    fn take(&mut self, control: u8)
        ensures { self.new ≡ record self.old { control = control; waiting = None } }
    {
        self.control = control;
        self.waiting = None;
    }

    /// Bit 0 clear closes the channel; bit 0 set opens it where no other controller is to be found any more.
    fn arbitrate(&mut self, byte: u8)
        ensures { self.new ≡ arbitrated self.old byte }
    {
        if !has_bit(byte, 0) {
            self.control = 0;
            self.left = self.foreign;
        } else if self.foreign != FOREIGN_FOR_GOOD && self.left == 0 {
            self.control = 1;
        }
        self.waiting = None;
    }
}

impl Target for Chip {
    ghost use Rattle.i2c_spec.specs.Chips.{chip_table};

    ghost table = { chip_table };

    fn on(&mut self, event: Event) -> Answer {
        match event {
            Event::Start { .. } => Answer::Ack,
            Event::Other => Answer::Nothing,
            Event::Put(byte) => {
                self.waiting = Some(byte);
                Answer::Ack
            }
            Event::Get { .. } => {
                let byte = self.sends();
                self.look();
                Answer::Byte(byte)
            }
            Event::Stop => {
                self.stop();
                Answer::Nothing
            }
        }
    }
}

/// The low bits of a byte, so many.
fn low_bits(byte: u8, bits: u8) -> u8
    requires { bits ≤ 8 }
    ensures { result ≡ byte % 2 ^ bits }
{
    (u16::from(byte) % (1 << bits)) as u8
}

/// Bit i of a byte.
#[tactic(auto, using(crate::proofs::ChipLemmas::bit_of_high))]
fn has_bit(byte: u8, i: u16) -> bool
    ensures { result ≡ bit_of byte i }
{
    if i >= 8 {
        return false;
    }
    (byte >> i) % 2 == 1
}
