//! What a target sees of the wires, what it answers, and the trait of a target.
ghost use Rattle.std.specs.Prelude.{◌≡◌};
ghost use Rattle.i2c_base.specs.Table.{Table, byte_of};

/// What a target sees of the wires, a byte at a time (UM10204 section 3.1).
#[derive(Clone, Copy)]
pub enum Event {
    /// A start, or a repeated start, with the target's address.
    Start { reading: bool },
    /// A start, or a repeated start, with another address.
    Other,
    /// The controller sends a byte.
    Put(u8),
    /// The controller reads a byte, and acknowledges it or not.
    Get { ack: bool },
    Stop,
}

/// What a target answers to an event.
#[derive(Clone, Copy)]
pub enum Answer {
    Ack,
    Nack,
    /// It holds the clock for longer than the controller waits (UM10204 section 3.1.9).
    Slow,
    Byte(u8),
    Nothing,
}

impl Answer {
    /// The byte that it puts on the wires, which is all ones where it sends none.
    pub fn sent(self) -> u8
        ensures { result ≡ byte_of self }
    {
        match self {
            Answer::Byte(byte) => byte,
            Answer::Ack | Answer::Nack | Answer::Slow | Answer::Nothing => 0xff,
        }
    }
}

/// Something on the wires with an address of its own.
pub trait Target {
    /// What each event does to it and how it answers.
    ghost table: { Table Self };

    fn on(&mut self, event: Event) -> Answer
        ensures answer { result ≡ table.answer self.old event }
        ensures after { self.new ≡ table.after self.old event };
}
