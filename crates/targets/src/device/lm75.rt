//! The temperature sensor LM75: four registers behind a pointer.
ghost use Rattle.std.specs.Prelude.{◌≡◌, ◌%◌, ◌<◌, ◌^◌};
ghost use Rattle.i2c_base.specs.declared.event.Event.TheVariants as event;
ghost use Rattle.i2c_spec.specs.Targets.Lm75Device.{
  lm75_table,
  lm75_after,
  lm75_answer,
  lm75_opening,
  lm75_sends,
  register_sends,
  register_written,
  byte_of_word,
  word_written,
  high_bits,
};

use i2c_base::{Answer, Event, Target};
use std::marker::Model;

/// What an LM75 awaits of the message in progress.
#[derive(Clone, Copy)]
enum Awaits {
    /// A start with its address.
    Start,
    /// The pointer: the first byte of a write.
    Pointer,
    /// Byte k of what is written to the register of the pointer; 2 stands for all that is too much.
    Byte(u8),
    /// That byte k of the register of the pointer is read, the high one being byte 0.
    Get(u8),
}

/// The hysteresis and the limit at power-up: 75 and 80 degrees.
const HYSTERESIS: u16 = 0x4B00;

const LIMIT: u16 = 0x5000;

/// A temperature sensor with four registers behind a pointer: 0 temperature, 1 configuration, 2 hysteresis, 3 limit. All
/// but the configuration are words, in steps of half a degree.
#[derive(Drop)]
pub struct Lm75 {
    awaits: Awaits,
    pointer: u8,
    temperature: u16,
    configuration: u8,
    hysteresis: u16,
    limit: u16,
}

impl Model for Lm75 {
    ghost use Rattle.i2c_spec.specs.Targets.Lm75Device.{Lm75View};
    ghost use Rattle.i2c_spec.specs.Targets.Lm75Device as phase;
    ghost use Rattle.targets.specs.declared.device.lm75.Awaits.TheVariants as await;

    ghost Value = { Lm75View };

    ghost view = { λ x. record {
      phase = elim x.awaits [
        | await.Start ↦ phase.Idle
        | await.Pointer ↦ phase.Pointer
        | await.Byte k ↦ phase.Data k
        | await.Get k ↦ phase.Read k
      ];
      pointer = x.pointer;
      temperature = x.temperature;
      configuration = x.configuration;
      hysteresis = x.hysteresis;
      limit = x.limit;
    } };
}

impl Lm75 {
    /// The sensor at power-up, with this temperature.
    pub fn open(raw: u16) -> Self
        ensures { result ≡ lm75_opening raw }
    {
        Lm75 {
            awaits: Awaits::Start,
            pointer: 0,
            temperature: high_bits(raw),
            configuration: 0,
            hysteresis: HYSTERESIS,
            limit: LIMIT,
        }
    }

    /// The byte that the next read would give.
    pub fn sends(&self) -> u8
        ensures { result ≡ lm75_sends self.now self.now.phase }
    {
        match self.awaits {
            Awaits::Get(k) => self.register_byte(k),
            _ => 255,
        }
    }

    /// A sensor in the same state.
    pub fn copied(&self) -> Self
        ensures { result ≡ self.now }
    {
        Lm75 { ..*self }
    }

    /// Byte k of the register of the pointer.
    fn register_byte(&self, k: u8) -> u8
        ensures { result ≡ register_sends self.now k }
    {
        match self.pointer {
            0 => byte_of(self.temperature, k),
            1 => self.configuration,
            2 => byte_of(self.hysteresis, k),
            _ => byte_of(self.limit, k),
        }
    }

    /// Byte k is written to the register of the pointer. The temperature isn't written.
    fn write(&mut self, k: u8, byte: u8)
        ensures { self.new ≡ register_written self.old k byte }
    {
        match self.pointer {
            1 if k == 0 => self.configuration = byte,
            2 => self.hysteresis = written(self.hysteresis, k, byte),
            3 => self.limit = written(self.limit, k, byte),
            _ => (),
        }
    }

    fn put(&mut self, byte: u8) -> Answer
        ensures answer { result ≡ lm75_answer self.old (event.Put byte) }
        ensures after { self.new ≡ lm75_after self.old (event.Put byte) }
    {
        match self.awaits {
            Awaits::Pointer => {
                self.pointer = byte % 4;
                self.awaits = Awaits::Byte(0);
                Answer::Ack
            }
            Awaits::Byte(k) => {
                self.write(k, byte);
                self.awaits = Awaits::Byte(k.min(1) + 1);
                Answer::Ack
            }
            Awaits::Start | Awaits::Get(_) => Answer::Nack,
        }
    }

    fn get(&mut self, ack: bool) -> Answer
        ensures answer { result ≡ lm75_answer self.old (event.Get ack) }
        ensures after { self.new ≡ lm75_after self.old (event.Get ack) }
    {
        let byte = self.sends();
        if let Awaits::Get(k) = self.awaits {
            self.awaits = if ack {
                Awaits::Get(1 - k % 2)
            } else {
                Awaits::Start
            };
        }
        Answer::Byte(byte)
    }
}

/// A word without its low seven bits.
fn high_bits(word: u16) -> u16
    ensures { result ≡ high_bits word }
{
    word / 128 * 128
}

/// Byte k of a word: the high one where k is even.
fn byte_of(word: u16, k: u8) -> u8
    ensures { result ≡ byte_of_word word k }
{
    if k % 2 == 0 {
        (word / 256) as u8
    } else {
        (word % 256) as u8
    }
}

/// A word after byte k of what is written to it.
fn written(word: u16, k: u8, byte: u8) -> u16
    ensures { result ≡ word_written word k byte }
{
    match k {
        0 => 256 * u16::from(byte) + word % 256,
        1 => 256 * (word / 256) + high_bits(u16::from(byte)),
        _ => word,
    }
}

impl Target for Lm75 {
    ghost table = { lm75_table };

    fn on(&mut self, event: Event) -> Answer {
        match event {
            Event::Start { reading } => {
                self.awaits = if reading {
                    Awaits::Get(0)
                } else {
                    Awaits::Pointer
                };
                Answer::Ack
            }
            Event::Put(byte) => self.put(byte),
            Event::Get { ack } => self.get(ack),
            Event::Other | Event::Stop => {
                self.awaits = Awaits::Start;
                Answer::Nothing
            }
        }
    }
}
