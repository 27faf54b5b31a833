//! `lm75`: its lines.

ghost use Rattle.std.specs.Prelude.{◌≡◌, ◌≤◌, IfSome};
ghost use Rattle.tools.specs.Grammars.{read_at};
ghost use Rattle.tools.specs.Lm75Lines.{half_degrees, lm75_read_words, lm75_words, lm75_write_words, milli_in, read_named, written_named};
ghost use Rattle.tools.specs.Readers.{texts, one_at};

use crate::command::{Cmd, DriverCmd};
use crate::fault::WordRefused;
use crate::number::long_number_in;
use crate::options::{address_at, bus_at};
use crate::reader::{is_at, is_text, over_at, word_at};
use i2c_base::Addr;

/// A register of a sensor: the temperature, the hysteresis, and the limit, which is called `max`.
#[derive(Clone, Copy)]
pub enum RegName {
    Temp,
    Hyst,
    Max,
}

/// The line `lm75 read BUS ADDR REGNAME`.
#[derive(Clone, Copy)]
pub struct Lm75Read {
    pub bus: u16,
    pub addr: Addr,
    pub which: RegName,
}

/// The line `lm75 write BUS ADDR REGNAME MILLI`.
#[derive(Clone, Copy)]
pub struct Lm75Write {
    pub bus: u16,
    pub addr: Addr,
    pub which: RegName,
    /// Thousandths of a degree, -128,000 to 127,500, which are half degrees.
    pub milli: i32,
}

// The register of a word that names one which is written.
fn written_named(word: &[u8]) -> Option<RegName>
    ensures { result ≡ written_named word.now }
{
    if is_text(word, b"hyst") {
        Some(RegName::Hyst)
    } else if is_text(word, b"max") {
        Some(RegName::Max)
    } else {
        None
    }
}

// The register of a word that names one.
fn read_named(word: &[u8]) -> Option<RegName>
    ensures { result ≡ read_named word.now }
{
    if is_text(word, b"temp") {
        Some(RegName::Temp)
    } else {
        written_named(word)
    }
}

// The register in the word at a place, which is read.
fn read_name_at(words: &[&[u8]], at: u16) -> Result<RegName, WordRefused>
    ensures { result ≡ one_at read_named (texts words.now) at }
{
    let word = word_at(words, at)?;
    read_named(word).ok_or(WordRefused(at))
}

// The register in the word at a place, which is written.
fn written_name_at(words: &[&[u8]], at: u16) -> Result<RegName, WordRefused>
    ensures { result ≡ one_at written_named (texts words.now) at }
{
    let word = word_at(words, at)?;
    written_named(word).ok_or(WordRefused(at))
}

// Half degrees in a word, in thousandths of a degree.
fn half_degrees(word: &[u8], low: u32, high: u32) -> Option<u32>
    requires { high ≤ 128000 }
    ensures value { result ≡ half_degrees low high word.now }
    ensures high { IfSome result (λ n. n ≤ high) }
{
    let number = long_number_in(word, low, high)?;
    if number % 500 == 0 {
        Some(number)
    } else {
        None
    }
}

// The MILLI in a word.
fn milli_in(word: &[u8]) -> Option<i32>
    ensures { result ≡ milli_in word.now }
{
    let (first, rest) = word.split_first()?;
    if *first == b'-' {
        let below = half_degrees(rest, 1, 128_000)?;
        Some(-(below as i32))
    } else {
        let above = half_degrees(word, 0, 127_500)?;
        Some(above as i32)
    }
}

// The MILLI in the word at a place.
fn milli_at(words: &[&[u8]], at: u16) -> Result<i32, WordRefused>
    ensures { result ≡ one_at milli_in (texts words.now) at }
{
    let word = word_at(words, at)?;
    milli_in(word).ok_or(WordRefused(at))
}

// Reads BUS ADDR REGNAME, of a register that is read.
#[tactic(auto, unfolding(crate::specs::Lm75Lines::lm75_read_words, crate::specs::Lm75Lines::read_reg))]
fn read_reg_read(words: &[&[u8]]) -> Result<Cmd, WordRefused>
    ensures { result ≡ read_at lm75_read_words (texts words.now) 2 }
{
    let bus = bus_at(words, 2)?;
    let addr = address_at(words, 3)?;
    let which = read_name_at(words, 4)?;
    let read = Lm75Read { bus, addr, which };
    over_at(words, 5, Cmd::Driver(DriverCmd::Lm75Read(read)))
}

// Reads BUS ADDR REGNAME MILLI, of a register that is written.
#[tactic(auto, unfolding(crate::specs::Lm75Lines::lm75_write_words, crate::specs::Lm75Lines::written_reg))]
fn read_reg_write(words: &[&[u8]]) -> Result<Cmd, WordRefused>
    ensures { result ≡ read_at lm75_write_words (texts words.now) 2 }
{
    let bus = bus_at(words, 2)?;
    let addr = address_at(words, 3)?;
    let which = written_name_at(words, 4)?;
    let milli = milli_at(words, 5)?;
    let write = Lm75Write {
        bus,
        addr,
        which,
        milli,
    };
    over_at(words, 6, Cmd::Driver(DriverCmd::Lm75Write(write)))
}

/// Reads what stands behind the first word.
#[tactic(auto, unfolding(crate::specs::Lm75Lines::lm75_words))]
pub fn read_lm75(words: &[&[u8]]) -> Result<Cmd, WordRefused>
    ensures { result ≡ read_at lm75_words (texts words.now) 1 }
{
    if is_at(words, 1, b"read") {
        read_reg_read(words)
    } else if is_at(words, 1, b"write") {
        read_reg_write(words)
    } else {
        Err(WordRefused(1))
    }
}
