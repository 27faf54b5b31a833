//! The SMBus device: data behind a command, with an error code.
ghost use Rattle.std.specs.Prelude.{◌≡◌, ◌<◌, ◌≤◌, All, false, length};
ghost use Rattle.i2c_base.specs.declared.event.Event.TheVariants as event;
ghost use Rattle.i2c_spec.specs.Plain.{IsPlainRun};
ghost use Rattle.i2c_spec.specs.Targets.SmbusDevice.{
  Data,
  Read,
  smbus_table,
  smbus_after,
  smbus_answer,
  smbus_opening,
  smbus_put,
  smbus_put_answer,
  smbus_sends,
  address_byte,
  code_so_far,
  data_byte,
  data_length,
  dropped,
  held_written,
  is_whole,
  read_length,
  takes_effect,
  with_effect,
};

use i2c_base::{Addr, Answer, ByteStore, Event, MemoryRun, Target};
use i2c_spec::write_runs;
use smb_pec::pec_with;
use std::marker::Model;

/// What an SMBus device awaits of the message in progress.
#[derive(Clone, Copy)]
enum Awaits {
    /// A start with its address.
    Start,
    /// The command: the first byte of a write.
    Command,
    /// A byte of the data, or their error code where they are whole.
    Data,
    /// The end of a write, after its error code.
    End,
    /// That byte k of the data and their error code is read.
    Get(u16),
}

/// How many registers there are.
const REGISTERS: usize = 256;

/// Data of a fixed length, or a block with its count, from the register of the command on, with an error code (SMBus 3.2,
/// sections 6.4 and 6.5). The data of a write are held until they take effect: at the stop, or where a read follows.
#[derive(Drop)]
pub struct SmbusDevice {
    addr: Addr,
    /// How many bytes the data have; 0 is a block.
    width: u8,
    flip: u8,
    awaits: Awaits,
    command: u8,
    /// The error code of the bytes from the first start on.
    code: u8,
    held: ByteStore<256>,
    memory: [u8; REGISTERS],
}

impl Model for SmbusDevice {
    ghost use Rattle.std.specs.Prelude.{◌≤◌, length};
    ghost use Rattle.i2c_spec.specs.Targets.SmbusDevice.{SmbusView, data_length, first_held};
    ghost use Rattle.i2c_spec.specs.Targets.SmbusDevice as phase;
    ghost use Rattle.targets.specs.declared.device.smbus.Awaits.TheVariants as await;

    ghost Value = { SmbusView };

    ghost view = { λ x. record {
      addr = x.addr;
      width = x.width;
      flip = x.flip;
      phase = elim x.awaits [
        | await.Start ↦ phase.Idle
        | await.Command ↦ phase.Command
        | await.Data ↦ phase.Data
        | await.End ↦ phase.Checked
        | await.Get k ↦ phase.Read k
      ];
      command = x.command;
      code = x.code;
      held = x.held;
      memory = x.memory;
    } };

    // No more bytes are held than the data have.
    ghost invariant = { λ x. length x.held ≤ data_length x.width (first_held x.held) };
}

impl SmbusDevice {
    /// The device at the opening: every register 0 but for those that are set.
    pub fn open(addr: Addr, width: u8, flip: u8, set: &[MemoryRun]) -> Self
        requires { All (IsPlainRun 256) set.now }
        ensures { result ≡ smbus_opening addr width flip set.now }
    {
        let mut memory = [0; REGISTERS];
        write_runs(&mut memory, set);
        SmbusDevice {
            addr,
            width,
            flip,
            awaits: Awaits::Start,
            command: 0,
            code: 0,
            held: ByteStore::new(),
            memory,
        }
    }

    /// The byte that the next read would give.
    pub fn sends(&self) -> u8
        ensures { result ≡ smbus_sends self.now self.now.phase }
    {
        match self.awaits {
            Awaits::Get(k) => self.byte_read(k),
            _ => 255,
        }
    }

    /// What it would answer to this event.
    pub fn answer(&self, event: Event) -> Answer
        ensures { result ≡ smbus_answer self.now event }
    {
        match event {
            Event::Start { .. } => Answer::Ack,
            Event::Put(byte) => match self.awaits {
                Awaits::Command => Answer::Ack,
                Awaits::Data if !self.is_whole() || byte == self.code => Answer::Ack,
                Awaits::Data | Awaits::End | Awaits::Start | Awaits::Get(_) => Answer::Nack,
            },
            Event::Get { .. } => Answer::Byte(self.sends()),
            Event::Other | Event::Stop => Answer::Nothing,
        }
    }

    /// A device in the same state.
    pub fn copied(&self) -> Self
        ensures { result ≡ self.now }
    {
        SmbusDevice {
            held: self.held.copied(),
            ..*self
        }
    }

    /// Byte k of what is read: the data, then their error code.
    fn byte_read(&self, k: u16) -> u8
        ensures { result ≡ smbus_sends self.now (Read k) }
    {
        let length = self.read_length();
        if k < length {
            self.data_byte(k)
        } else if k == length {
            self.code ^ self.flip
        } else {
            255
        }
    }

    /// How many bytes the data of a read have.
    fn read_length(&self) -> u16
        ensures { result ≡ read_length self.now }
    {
        data_length(self.width, self.memory[usize::from(self.command)])
    }

    /// The register that is k after that of the command.
    fn data_byte(&self, k: u16) -> u8
        ensures { result ≡ data_byte self.now k }
    {
        self.memory[(usize::from(self.command) + usize::from(k)) % REGISTERS]
    }

    /// The data of a write are as many as they are to be; while they aren't, there is room for one more.
    fn is_whole(&self) -> bool
        ensures value { result ≡ is_whole self.now }
        ensures room { result ≡ false → length self.now.held < 256 }
    {
        let held = self.held.as_slice();
        match held.first() {
            Some(first) => held.len() == usize::from(data_length(self.width, *first)),
            None => false,
        }
    }

    /// The write in progress would take effect if it ended here.
    fn takes_effect(&self) -> bool
        ensures { result ≡ takes_effect self.now self.now.phase }
    {
        match self.awaits {
            Awaits::Data => self.is_whole(),
            Awaits::End => true,
            Awaits::Start | Awaits::Command | Awaits::Get(_) => false,
        }
    }

    /// The write in progress takes effect, if it does.
    fn end_write(&mut self)
        ensures { self.new ≡ with_effect self.old }
    {
        if self.takes_effect() {
            write_held(&mut self.memory, self.command, self.held.as_slice());
        }
    }

    fn drop_held(&mut self)
        ensures { self.new ≡ dropped self.old }
    {
        self.awaits = Awaits::Start;
        self.held.clear();
    }

    /// The error code of the messages that this one follows by a repeated start.
    fn code_so_far(&self) -> u8
        ensures { result ≡ code_so_far self.now self.now.phase }
    {
        match self.awaits {
            Awaits::Start => 0,
            _ => self.code,
        }
    }

    fn begin(&mut self, reading: bool) -> Answer
        ensures answer { result ≡ smbus_answer self.old (event.Start reading) }
        ensures after { self.new ≡ smbus_after self.old (event.Start reading) }
    {
        if reading {
            self.end_write();
        }
        self.code = pec_with(self.code_so_far(), address_byte(self.addr, reading));
        self.held.clear();
        self.awaits = if reading {
            Awaits::Get(0)
        } else {
            Awaits::Command
        };
        Answer::Ack
    }

    /// A byte of the data, or their error code where they are whole.
    fn put_data(&mut self, byte: u8) -> Answer
        ensures answer { result ≡ smbus_put_answer self.old Data byte }
        ensures after { self.new ≡ smbus_put self.old Data byte }
    {
        if !self.is_whole() {
            self.held.push(byte);
            self.code = pec_with(self.code, byte);
            return Answer::Ack;
        }
        if byte == self.code {
            self.awaits = Awaits::End;
            return Answer::Ack;
        }
        self.drop_held();
        Answer::Nack
    }

    fn put(&mut self, byte: u8) -> Answer
        ensures answer { result ≡ smbus_answer self.old (event.Put byte) }
        ensures after { self.new ≡ smbus_after self.old (event.Put byte) }
    {
        match self.awaits {
            Awaits::Command => {
                self.command = byte;
                self.code = pec_with(self.code, byte);
                self.awaits = Awaits::Data;
                Answer::Ack
            }
            Awaits::Data => self.put_data(byte),
            Awaits::End => {
                self.drop_held();
                Answer::Nack
            }
            Awaits::Start | Awaits::Get(_) => Answer::Nack,
        }
    }

    fn get(&mut self, ack: bool) -> Answer
        ensures answer { result ≡ smbus_answer self.old (event.Get ack) }
        ensures after { self.new ≡ smbus_after self.old (event.Get ack) }
    {
        let byte = self.sends();
        if let Awaits::Get(k) = self.awaits {
            if k < self.read_length() {
                self.code = pec_with(self.code, byte);
            }
            self.awaits = if ack {
                Awaits::Get(k.saturating_add(1))
            } else {
                Awaits::Start
            };
        }
        Answer::Byte(byte)
    }
}

/// How many bytes the data have, whose first byte is this one.
fn data_length(width: u8, first: u8) -> u16
    ensures value { result ≡ data_length width first }
    ensures most { result ≤ 256 }
{
    match width {
        0 => 1 + u16::from(first),
        _ => u16::from(width),
    }
}

/// The address and, in bit 0, the direction (UM10204 section 3.1.10).
fn address_byte(addr: Addr, reading: bool) -> u8
    ensures { result ≡ address_byte addr reading }
{
    2 * addr.get() + u8::from(reading)
}

/// Writes these bytes from this register on, and goes on at the first register after the last one.
fn write_held(memory: &mut [u8; REGISTERS], start: u8, bytes: &[u8])
    ensures { memory.new ≡ held_written memory.old start bytes.now }
{
    let mut place = start;
    for byte in bytes {
        memory[usize::from(place)] = *byte;
        place = place.wrapping_add(1);
    }
}

impl Target for SmbusDevice {
    ghost table = { smbus_table };

    fn on(&mut self, event: Event) -> Answer {
        match event {
            Event::Start { reading } => self.begin(reading),
            Event::Put(byte) => self.put(byte),
            Event::Get { ack } => self.get(ack),
            Event::Other => {
                self.drop_held();
                Answer::Nothing
            }
            Event::Stop => {
                self.end_write();
                self.drop_held();
                Answer::Nothing
            }
        }
    }
}
