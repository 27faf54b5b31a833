//! The register device: 256 registers behind a pointer.
ghost use Rattle.std.specs.Prelude.{◌≡◌, All};
ghost use Rattle.i2c_spec.specs.Plain.{IsPlainRun};
ghost use Rattle.i2c_spec.specs.Targets.RegsDevice.{regs_table, regs_after, regs_answer, regs_opening, regs_sends};
ghost use Rattle.i2c_base.specs.declared.event.Event.TheVariants as event;

use i2c_base::{Answer, Event, MOST_LOOKS, MemoryRun, Target};
use i2c_spec::write_runs;
use std::marker::Model;

/// What a register device awaits of the message in progress.
#[derive(Clone, Copy)]
enum Awaits {
    /// A start with its address.
    Start,
    /// The pointer: the first byte of a write.
    Pointer,
    /// A byte for the register at the pointer.
    Byte,
    /// That the register at the pointer is read.
    Get,
}

/// How many registers there are.
const REGISTERS: usize = 256;

/// The register device: 256 registers behind a pointer, which the first byte of a write sets and which moves on
/// after each byte that is written or read, from the last register to the first.
#[derive(Drop)]
pub struct Regs {
    awaits: Awaits,
    pointer: u8,
    memory: [u8; REGISTERS],
    hold: u8,
}

impl Model for Regs {
    ghost use Rattle.i2c_spec.specs.Targets.RegsDevice.{RegsView};
    ghost use Rattle.i2c_spec.specs.Targets.RegsDevice as phase;
    ghost use Rattle.targets.specs.declared.device.registers.Awaits.TheVariants as await;

    ghost Value = { RegsView };

    ghost view = { λ r. record {
      phase = elim r.awaits [
        | await.Start ↦ phase.Idle
        | await.Pointer ↦ phase.Pointer
        | await.Byte ↦ phase.Data
        | await.Get ↦ phase.Read
      ];
      pointer = r.pointer;
      memory = r.memory;
      hold = r.hold;
    } };
}

impl Regs {
    /// The device at the opening: every register 0 but for those that are set.
    pub fn open(hold: u8, set: &[MemoryRun]) -> Self
        requires { All (IsPlainRun 256) set.now }
        ensures { result ≡ regs_opening hold set.now }
    {
        let mut memory = [0; REGISTERS];
        write_runs(&mut memory, set);
        Regs {
            awaits: Awaits::Start,
            pointer: 0,
            memory,
            hold,
        }
    }

    /// The byte that the next read would give.
    pub fn sends(&self) -> u8
        ensures { result ≡ regs_sends self.now self.now.phase }
    {
        match self.awaits {
            Awaits::Get => self.memory[usize::from(self.pointer)],
            _ => 255,
        }
    }

    /// For how many looks it holds the clock at its address (UM10204 section 3.1.9).
    pub fn hold(&self) -> u8
        ensures { result ≡ self.now.hold }
    {
        self.hold
    }

    /// A device in the same state.
    pub fn copied(&self) -> Self
        ensures { result ≡ self.now }
    {
        Regs { ..*self }
    }

    fn begin(&mut self, reading: bool) -> Answer
        ensures answer { result ≡ regs_answer self.old (event.Start reading) }
        ensures after { self.new ≡ regs_after self.old (event.Start reading) }
    {
        if self.hold > MOST_LOOKS {
            self.awaits = Awaits::Start;
            return Answer::Slow;
        }
        self.awaits = if reading {
            Awaits::Get
        } else {
            Awaits::Pointer
        };
        Answer::Ack
    }

    fn put(&mut self, byte: u8) -> Answer
        ensures answer { result ≡ regs_answer self.old (event.Put byte) }
        ensures after { self.new ≡ regs_after self.old (event.Put byte) }
    {
        match self.awaits {
            Awaits::Pointer => {
                self.pointer = byte;
                self.awaits = Awaits::Byte;
                Answer::Ack
            }
            Awaits::Byte => {
                self.memory[usize::from(self.pointer)] = byte;
                self.pointer = self.pointer.wrapping_add(1);
                Answer::Ack
            }
            Awaits::Start | Awaits::Get => Answer::Nack,
        }
    }

    fn get(&mut self, ack: bool) -> Answer
        ensures answer { result ≡ regs_answer self.old (event.Get ack) }
        ensures after { self.new ≡ regs_after self.old (event.Get ack) }
    {
        let byte = self.sends();
        if matches!(&self.awaits, Awaits::Get) {
            self.pointer = self.pointer.wrapping_add(1);
            self.awaits = if ack { Awaits::Get } else { Awaits::Start };
        }
        Answer::Byte(byte)
    }
}

impl Target for Regs {
    ghost table = { regs_table };

    fn on(&mut self, event: Event) -> Answer {
        match event {
            Event::Start { reading } => self.begin(reading),
            Event::Put(byte) => self.put(byte),
            Event::Get { ack } => self.get(ack),
            Event::Other | Event::Stop => {
                self.awaits = Awaits::Start;
                Answer::Nothing
            }
        }
    }
}
