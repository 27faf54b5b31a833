//! An EEPROM: its pages, its pointer, and the bytes of a write that wait for its stop.
ghost use Rattle.std.specs.Prelude.{◌≡◌, ◌≤◌, All, IfOk, length, replicate};
ghost use Rattle.i2c_base.specs.declared.event.Event.TheVariants as event;
ghost use Rattle.i2c_spec.specs.Plain.{IsPlainRun};
ghost use Rattle.i2c_spec.specs.Targets.RegsDevice.{write_runs};
ghost use Rattle.i2c_spec.specs.Targets.EepromDevice as phase;
ghost use Rattle.i2c_spec.specs.Targets.EepromDevice.{
  clear_to,
  eeprom_table,
  eeprom_after,
  eeprom_answer,
  eeprom_opening,
  eeprom_sends,
  none_waiting,
  page_of_eeprom,
  page_start,
  pointed,
  size_of_eeprom,
  some_waiting,
  waits,
  with_waiting,
  taken_in,
};

use i2c_base::{Answer, Event, MemoryRun, NoMemory, Size, Target};
use i2c_spec::{eeprom_bytes, eeprom_page, is_wide, write_runs};
use std::alloc::Global;
use std::marker::Model;

/// What an EEPROM awaits of the message in progress.
#[derive(Clone, Copy)]
enum Awaits {
    /// A start with its address.
    Start,
    /// The first byte of the place.
    Place,
    /// The low byte of the place, whose high byte is this one.
    LowByte(u8),
    /// A byte for the page of the pointer.
    Byte,
    /// That the byte at the pointer is read.
    Get,
}

/// An EEPROM. The bytes of a write wait until its stop, at most one for each place of the page; a write that ends
/// otherwise leaves the memory as it was.
#[derive(Drop)]
pub struct Eeprom {
    size: Size,
    awaits: Awaits,
    pointer: u16,
    memory: Vec<u8>,
    /// The bytes that wait, by their places in the page of the pointer.
    waiting: Vec<Option<u8>>,
    /// How many starts it still refuses, out of `busy` after each write.
    left: u8,
    busy: u8,
    wp: bool,
}

impl Model for Eeprom {
    ghost use Rattle.std.specs.Prelude.{◌≡◌, ◌<◌, None, Some, length};
    ghost use Rattle.i2c_spec.specs.Targets.EepromDevice.{EepromView, page_of_eeprom, size_of_eeprom};
    ghost use Rattle.i2c_spec.specs.Targets.EepromDevice as phase;
    ghost use Rattle.targets.specs.declared.device.eeprom.Awaits.TheVariants as await;

    ghost Value = { EepromView };

    ghost view = { λ e. record {
      size = e.size;
      phase = elim e.awaits [
        | await.Start ↦ phase.Idle
        | await.Place ↦ phase.Address None
        | await.LowByte high ↦ phase.Address (Some high)
        | await.Byte ↦ phase.Data
        | await.Get ↦ phase.Read
      ];
      pointer = e.pointer;
      memory = e.memory.items;
      waiting = e.waiting.items;
      left = e.left;
      busy = e.busy;
      wp = e.wp;
    } };

    // The memory has the size of its kind, each place of a page can wait, and the pointer is at a byte.
    ghost invariant = { λ e.
        (length e.memory.items ≡ size_of_eeprom e.size)
        × (length e.waiting.items ≡ page_of_eeprom e.size)
        × (e.pointer < size_of_eeprom e.size) };
}

impl Eeprom {
    /// The EEPROM at the opening: every byte as it was filled but for those that are set.
    pub fn open(
        alloc: Global,
        size: Size,
        fill: u8,
        busy: u8,
        wp: bool,
        set: &[MemoryRun],
    ) -> Result<Self, NoMemory>
        requires { All (IsPlainRun (size_of_eeprom size)) set.now }
        ensures { IfOk result (λ e. e ≡ eeprom_opening size fill busy wp set.now) }
    {
        Ok(Eeprom {
            size,
            awaits: Awaits::Start,
            pointer: 0,
            memory: filled(alloc, size, fill, set)?,
            waiting: empty_page(alloc, size)?,
            left: 0,
            busy,
            wp,
        })
    }

    /// The byte that the next read would give.
    pub fn sends(&self) -> u8
        ensures { result ≡ eeprom_sends self.now self.now.phase }
    {
        match self.awaits {
            Awaits::Get => self.memory[usize::from(self.pointer)],
            _ => 255,
        }
    }

    /// What it would answer to this event.
    pub fn answer(&self, event: Event) -> Answer
        ensures { result ≡ eeprom_answer self.now event }
    {
        match event {
            Event::Start { .. } if self.left > 0 => Answer::Nack,
            Event::Start { .. } => Answer::Ack,
            Event::Put(_) => match self.awaits {
                Awaits::Place | Awaits::LowByte(_) => Answer::Ack,
                Awaits::Byte if !self.wp => Answer::Ack,
                Awaits::Byte | Awaits::Start | Awaits::Get => Answer::Nack,
            },
            Event::Get { .. } => Answer::Byte(self.sends()),
            Event::Other | Event::Stop => Answer::Nothing,
        }
    }

    /// An EEPROM in the same state.
    pub fn copied(&self, alloc: Global) -> Result<Self, NoMemory>
        ensures { IfOk result (λ e. e ≡ self.now) }
    {
        Ok(Eeprom {
            memory: self.memory.as_slice().to_vec(alloc)?,
            waiting: self.waiting.as_slice().to_vec(alloc)?,
            ..*self
        })
    }

    /// No byte waits any more.
    fn drop_waiting(&mut self)
        ensures { self.new ≡ clear_to self.old self.old.phase }
    {
        self.waiting.fill(None);
    }

    /// The message in progress is over, and no byte waits.
    fn end(&mut self)
        ensures { self.new ≡ clear_to self.old phase.Idle }
    {
        self.awaits = Awaits::Start;
        self.drop_waiting();
    }

    fn begin(&mut self, reading: bool) -> Answer
        ensures answer { result ≡ eeprom_answer self.old (event.Start reading) }
        ensures after { self.new ≡ eeprom_after self.old (event.Start reading) }
    {
        if self.left > 0 {
            self.left -= 1;
            self.end();
            return Answer::Nack;
        }
        self.awaits = if reading { Awaits::Get } else { Awaits::Place };
        self.drop_waiting();
        Answer::Ack
    }

    /// The place is whole.
    fn point(&mut self, place: u16)
        ensures { self.new ≡ pointed self.old place }
    {
        self.pointer = place % eeprom_bytes(self.size);
        self.awaits = Awaits::Byte;
    }

    /// The first place of the pointer's page.
    fn page_start(&self) -> u16
        ensures { result ≡ page_start self.now.size self.now.pointer }
    {
        let page = u16::from(eeprom_page(self.size));
        self.pointer / page * page
    }

    /// A byte waits for the pointer's place, and the pointer moves on in its page.
    fn wait(&mut self, byte: u8)
        ensures { self.new ≡ waits self.old byte }
    {
        let page = u16::from(eeprom_page(self.size));
        self.waiting[usize::from(self.pointer % page)] = Some(byte);
        self.pointer = self.page_start() + (self.pointer + 1) % page;
    }

    fn put(&mut self, byte: u8) -> Answer
        ensures answer { result ≡ eeprom_answer self.old (event.Put byte) }
        ensures after { self.new ≡ eeprom_after self.old (event.Put byte) }
    {
        match self.awaits {
            Awaits::Place => {
                if is_wide(self.size) {
                    self.awaits = Awaits::LowByte(byte);
                } else {
                    self.point(u16::from(byte));
                }
                Answer::Ack
            }
            Awaits::LowByte(high) => {
                self.point(256 * u16::from(high) + u16::from(byte));
                Answer::Ack
            }
            Awaits::Byte => {
                if self.wp {
                    self.end();
                    return Answer::Nack;
                }
                self.wait(byte);
                Answer::Ack
            }
            Awaits::Start | Awaits::Get => Answer::Nack,
        }
    }

    fn get(&mut self, ack: bool) -> Answer
        ensures answer { result ≡ eeprom_answer self.old (event.Get ack) }
        ensures after { self.new ≡ eeprom_after self.old (event.Get ack) }
    {
        let byte = self.sends();
        if matches!(&self.awaits, Awaits::Get) {
            self.pointer = (self.pointer + 1) % eeprom_bytes(self.size);
            self.awaits = if ack { Awaits::Get } else { Awaits::Start };
        }
        Answer::Byte(byte)
    }

    /// Some byte waits.
    fn has_waiting(&self) -> bool
        ensures { result ≡ some_waiting self.now }
    {
        self.waiting.iter().any(|byte| byte.is_some())
    }

    /// The bytes that wait are written to their places.
    fn write_waiting(&mut self)
        ensures { self.new ≡ with_waiting self.old }
    {
        let start = usize::from(self.page_start());
        write_page(&mut self.memory[start..], &self.waiting);
    }

    fn stop(&mut self)
        ensures { self.new ≡ eeprom_after self.old event.Stop }
    {
        if self.has_waiting() {
            self.left = self.busy;
        }
        self.write_waiting();
        self.end();
    }
}

/// A memory of this size in which every byte is `fill` but for those that are set.
fn filled(alloc: Global, size: Size, fill: u8, set: &[MemoryRun]) -> Result<Vec<u8>, NoMemory>
    requires { All (IsPlainRun (size_of_eeprom size)) set.now }
    ensures count { IfOk result (λ memory. length memory.items ≡ size_of_eeprom size) }
    ensures value { IfOk result (λ memory. memory.items ≡ write_runs (replicate (size_of_eeprom size) fill) set.now) }
{
    let mut memory = vec![in alloc; fill; usize::from(eeprom_bytes(size))]?;
    write_runs(&mut memory, set);
    Ok(memory)
}

/// A page of this size in which no byte waits.
fn empty_page(alloc: Global, size: Size) -> Result<Vec<Option<u8>>, NoMemory>
    ensures count { IfOk result (λ places. length places.items ≡ page_of_eeprom size) }
    ensures value { IfOk result (λ places. places.items ≡ none_waiting size) }
{
    Ok(vec![in alloc; None; usize::from(eeprom_page(size))]?)
}

/// Gives each place from the first one on the byte that waits for it.
fn write_page(page: &mut [u8], waiting: &[Option<u8>])
    requires { length waiting.now ≤ length page.old }
    ensures { page.new ≡ taken_in waiting.now page.old }
{
    for (place, byte) in waiting.iter().enumerate() {
        if let Some(byte) = *byte {
            page[place] = byte;
        }
    }
}

impl Target for Eeprom {
    ghost table = { eeprom_table };

    fn on(&mut self, event: Event) -> Answer {
        match event {
            Event::Start { reading } => self.begin(reading),
            Event::Put(byte) => self.put(byte),
            Event::Get { ack } => self.get(ack),
            Event::Other => {
                self.end();
                Answer::Nothing
            }
            Event::Stop => {
                self.stop();
                Answer::Nothing
            }
        }
    }
}
