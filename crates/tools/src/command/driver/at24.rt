//! `at24`: its lines.

ghost use Rattle.std.specs.Prelude.{◌≡◌, ◌<◌};
ghost use Rattle.tools.specs.At24Lines.{at24_read_words, at24_words, at24_write_words, written_span};
ghost use Rattle.tools.specs.Grammars.{read_at};
ghost use Rattle.tools.specs.Readers.{texts, Gives};

use crate::command::{Cmd, DriverCmd};
use crate::fault::{LineFault, WordRefused};
use crate::lists::Octets;
use crate::octets::read_bytes;
use crate::options::{address_at, bus_at};
use crate::reader::{is_at, number_at, over_at};
use i2c_base::Addr;
use std::alloc::Global;

/// The line `at24 read BUS ADDR OFFSET COUNT`.
#[derive(Clone, Copy)]
pub struct At24Read {
    pub bus: u16,
    pub addr: Addr,
    /// The place of the first byte.
    pub offset: u16,
    /// How many bytes, 1 to 32,768.
    pub count: u16,
}

/// The line `at24 write BUS ADDR OFFSET BYTE...`.
#[derive(Drop)]
pub struct At24Write {
    pub bus: u16,
    pub addr: Addr,
    /// The place of the first byte.
    pub offset: u16,
    /// 1 to 64 of them.
    pub bytes: Octets,
}

/// A line reads at most so many bytes.
const MOST_READ: u16 = 32768;

/// A line writes at most so many bytes.
const MOST_WRITTEN: u16 = 64;

// Reads BUS ADDR OFFSET COUNT.
#[tactic(auto, unfolding(crate::specs::At24Lines::at24_read_words, crate::specs::At24Lines::read_span))]
fn read_page_read(words: &[&[u8]]) -> Result<Cmd, WordRefused>
    ensures { result ≡ read_at at24_read_words (texts words.now) 2 }
{
    let bus = bus_at(words, 2)?;
    let addr = address_at(words, 3)?;
    let offset = number_at(words, 4, 0, u16::MAX)?;
    let count = number_at(words, 5, 1, MOST_READ)?;
    let read = At24Read {
        bus,
        addr,
        offset,
        count,
    };
    over_at(words, 6, Cmd::Driver(DriverCmd::At24Read(read)))
}

// Reads OFFSET and the bytes.
#[tactic(auto, unfolding(crate::specs::At24Lines::written_span))]
fn written_span_at(
    alloc: Global,
    words: &[&[u8]],
    at: u16,
    bus: u16,
    addr: Addr,
) -> Result<Cmd, LineFault>
    requires { at < 90 }
    ensures { Gives (read_at (written_span bus addr) (texts words.now) at) result }
{
    let offset = number_at(words, at, 0, u16::MAX)?;
    let mut bytes = Octets::new(alloc);
    match read_bytes(words, at + 1, MOST_WRITTEN, &mut bytes) {
        Ok(()) => Ok(Cmd::Driver(DriverCmd::At24Write(At24Write {
            bus,
            addr,
            offset,
            bytes,
        }))),
        Err(fault) => Err(fault),
    }
}

// Reads what stands behind `write`.
#[tactic(auto, unfolding(crate::specs::At24Lines::at24_write_words))]
fn read_page_write(alloc: Global, words: &[&[u8]]) -> Result<Cmd, LineFault>
    ensures { Gives (read_at at24_write_words (texts words.now) 2) result }
{
    let bus = bus_at(words, 2)?;
    let addr = address_at(words, 3)?;
    written_span_at(alloc, words, 4, bus, addr)
}

/// Reads what stands behind the first word.
#[tactic(auto, unfolding(crate::specs::At24Lines::at24_words))]
pub fn read_at24(alloc: Global, words: &[&[u8]]) -> Result<Cmd, LineFault>
    ensures { Gives (read_at at24_words (texts words.now) 1) result }
{
    if is_at(words, 1, b"read") {
        Ok(read_page_read(words)?)
    } else if is_at(words, 1, b"write") {
        read_page_write(alloc, words)
    } else {
        Err(LineFault::Word(1))
    }
}
