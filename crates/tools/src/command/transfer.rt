//! `i2ctransfer`: its line.

ghost use Rattle.std.specs.Prelude.{◌≡◌, ◌+◌, ◌-◌, ◌<◌, ◌≤◌, ◌==◌, ◌++◌, [], length, None, Some, Ok, IfSome, IfOk, OnOk, MatchResult};
ghost use Rattle.i2c_base.specs.Addr.{IsTargetAddress};
ghost use Rattle.tools.specs.Combined.{is_at_sign, before_at, after_at, address_in, length_in, head_with, head_of, step_of, series_of, datum_of, datum_word, counted, data_at, desc_of, message_at, first_place, descs_at, combined_bus, combined_words};
ghost use Rattle.tools.specs.Grammars.{read_at};
ghost use Rattle.tools.specs.Numbers.{number_in};
ghost use Rattle.tools.specs.Readers.{texts, one_at, Gives, FaultIs};
ghost use Rattle.tools.specs.Words.{gap_at};

use crate::command::{Cmd, ToolCmd};
use crate::fault::{LineFault, WordRefused};
use crate::lists::{Desc, DescOp, Descs, Octets};
use crate::number::{byte_in, number_in};
use crate::options::{bus_at, options};
use crate::reader::{is_past, word_at};
use crate::words::{Gap, gap_at};
use i2c_base::{Addr, MOST_BYTES, MOST_LENGTH, MOST_MESSAGES, NoMemory};
use std::alloc::Global;

/// The line `i2ctransfer [-f] -y BUS (DESC DATA...)...`.
#[derive(Drop)]
pub struct Combined {
    /// Devices that a driver is bound to are reached as well: `-f`.
    pub force: bool,
    pub bus: u16,
    pub messages: Descs,
}

// A DESC, with its own address, or that of the message before.
#[derive(Clone, Copy)]
struct DescHead {
    addr: Addr,
    reads: bool,
    len: u16,
}

// Where a DESC is read: its word, the bytes for which there is room, and the address before.
#[derive(Clone, Copy)]
struct DescPlace {
    at: u16,
    room: u16,
    held: Option<u8>,
}

// A byte of DATA, or a byte with the step of its suffix.
#[derive(Clone, Copy)]
enum Datum {
    One(u8),
    Series((u8, u8)),
}

// The sign before an address.
struct AtSign;

impl Gap for AtSign {
    ghost gaps = { is_at_sign };

    fn is_gap(byte: u8) -> bool {
        byte == b'@'
    }
}

// The address in a DESC of which `len` bytes stand before the `@`.
fn address_in(held: Option<u8>, word: &[u8], len: usize) -> Option<Addr>
    requires place { len ≡ gap_at is_at_sign word.now }
    requires within { len ≤ length word.now }
    requires held { IfSome held IsTargetAddress }
    ensures { result ≡ address_in held (after_at word.now) }
{
    if len == word.len() {
        return Addr::new(held?);
    }
    let number = number_in(
        &word[len + 1..],
        u16::from(Addr::FIRST),
        u16::from(Addr::LAST),
    )?;
    Addr::new(number as u8)
}

// The length in a word, from `low` on, within the room.
fn length_in(word: &[u8], low: u16, room: u16) -> Option<u16>
    ensures value { result ≡ length_in low room word.now }
    ensures room { IfSome result (λ n. n ≤ room) }
{
    let len = number_in(word, low, MOST_LENGTH as u16)?;
    if len == 0 || len <= room {
        Some(len)
    } else {
        None
    }
}

// The rest of a DESC, after `r` or `w`.
fn head_with(reads: bool, word: &[u8], held: Option<u8>, low: u16, room: u16) -> Option<DescHead>
    requires { IfSome held IsTargetAddress }
    ensures value { result ≡ head_with reads (address_in held (after_at word.now)) (length_in low room (before_at word.now)) }
    ensures room { IfSome result (λ d. d.len ≤ room) }
{
    let at = gap_at::<AtSign>(word);
    let addr = address_in(held, word, at)?;
    let len = length_in(&word[..at], low, room)?;
    Some(DescHead { addr, reads, len })
}

// A DESC.
fn head_of(word: &[u8], held: Option<u8>, room: u16) -> Option<DescHead>
    requires { IfSome held IsTargetAddress }
    ensures value { result ≡ head_of held room word.now }
    ensures room { IfSome result (λ d. d.len ≤ room) }
{
    let (first, rest) = word.split_first()?;
    if *first == b'r' {
        head_with(true, rest, held, 1, room)
    } else if *first == b'w' {
        head_with(false, rest, held, 0, room)
    } else {
        None
    }
}

// The DESC at a place.
fn head_at(words: &[&[u8]], at: u16, held: Option<u8>, room: u16) -> Result<DescHead, WordRefused>
    requires { IfSome held IsTargetAddress }
    ensures value { result ≡ one_at (head_of held room) (texts words.now) at }
    ensures room { IfOk result (λ d. d.len ≤ room) }
{
    let word = word_at(words, at)?;
    head_of(word, held, room).ok_or(WordRefused(at))
}

// How far a byte is above the one before, by the suffix.
fn step_of(sign: u8) -> Option<u8>
    ensures { result ≡ step_of sign }
{
    match sign {
        b'=' => Some(0),
        b'+' => Some(1),
        b'-' => Some(255),
        _ => None,
    }
}

// A byte with a suffix.
fn series_of(word: &[u8]) -> Option<Datum>
    ensures { result ≡ series_of word.now }
{
    let (sign, digits) = word.split_last()?;
    let byte = byte_in(digits)?;
    let step = step_of(*sign)?;
    Some(Datum::Series((byte, step)))
}

// A word of DATA; the last byte has no suffix.
fn datum_of(word: &[u8], is_last: bool) -> Option<Datum>
    ensures { result ≡ datum_of is_last word.now }
{
    match byte_in(word) {
        Some(byte) => Some(Datum::One(byte)),
        None => { if is_last { None } else { series_of(word) } }
    }
}

// The word of DATA at a place.
fn datum_at(words: &[&[u8]], at: u16, is_last: bool) -> Result<Datum, WordRefused>
    ensures { result ≡ one_at (datum_word is_last).of (texts words.now) at }
{
    let word = word_at(words, at)?;
    datum_of(word, is_last).ok_or(WordRefused(at))
}

// Puts so many bytes at the end, each by a step above the one before.
fn push_counted(bytes: &mut Octets, count: u16, first: u8, step: u8) -> Result<(), NoMemory>
    ensures { OnOk result (bytes.new ≡ bytes.old ++ counted count first step) }
{
    let mut byte = first;
    for _ in 0..count {
        bytes.push(byte)?;
        byte = byte.wrapping_add(step);
    }
    Ok(())
}

// Reads the data of a message into a list without any, and tells the place after them.
fn read_data(words: &[&[u8]], from: u16, len: u16, bytes: &mut Octets) -> Result<u16, LineFault>
    requires near { from < 9000 }
    requires few { len ≤ MOST_BYTES }
    requires empty { bytes.old ≡ [] }
    ensures gives { MatchResult result (λ at. data_at len [] (texts words.now) from ≡ Ok (bytes.new, at))
        (FaultIs (data_at len [] (texts words.now) from)) }
    ensures near { IfOk result (λ at. at ≤ from + len) }
{
    let mut at = from;
    for more in 0..len {
        let left = len - more - 1;
        match datum_at(words, at, left == 0)? {
            Datum::One(byte) => bytes.push(byte)?,
            Datum::Series((byte, step)) => {
                push_counted(bytes, len - more, byte, step)?;
                return Ok(at + 1);
            }
        }
        at += 1;
    }
    Ok(at)
}

// The message of a DESC and its data.
fn desc_of(addr: Addr, reads: bool, len: u16, bytes: Octets) -> Desc
    ensures { result ≡ desc_of (record { addr = addr; reads = reads; len = len }) bytes }
{
    let op = if reads {
        DescOp::Read(len)
    } else {
        DescOp::Write(bytes)
    };
    Desc { addr, op }
}

// Reads a message at a place, puts it after those before, and tells the place behind.
fn read_message(
    alloc: Global,
    words: &[&[u8]],
    place: DescPlace,
    messages: &mut Descs,
) -> Result<DescPlace, LineFault>
    requires near { place.at < 8000 }
    requires few { place.room ≤ MOST_BYTES }
    requires held { IfSome place.held IsTargetAddress }
    ensures gives { MatchResult result (λ next. message_at place messages.old (texts words.now) ≡ Ok (messages.new, next))
        (FaultIs (message_at place messages.old (texts words.now))) }
    ensures near { IfOk result (λ next. (next.at + next.room ≤ place.at + place.room + 1) × (next.room ≤ place.room)) }
    ensures held { IfOk result (λ next. IfSome next.held IsTargetAddress) }
{
    let head = head_at(words, place.at, place.held, place.room)?;
    let mut bytes = Octets::new(alloc);
    let DescHead { addr, reads, len } = head;
    let asked = if reads { 0 } else { len };
    let at = read_data(words, place.at + 1, asked, &mut bytes)?;
    messages.push(desc_of(addr, reads, len, bytes))?;
    Ok(DescPlace {
        at,
        room: place.room - len,
        held: Some(addr.get()),
    })
}

/// Reads the messages from a place on into a list without any.
pub fn read_descs(
    alloc: Global,
    words: &[&[u8]],
    from: u16,
    messages: &mut Descs,
) -> Result<(), LineFault>
    requires near { from < 100 }
    requires empty { messages.old ≡ [] }
    ensures { MatchResult result (λ _. descs_at MOST_MESSAGES (first_place from) [] (texts words.now) ≡ Ok messages.new)
        (FaultIs (descs_at MOST_MESSAGES (first_place from) [] (texts words.now))) }
{
    let mut place = DescPlace {
        at: from,
        room: MOST_BYTES as u16,
        held: None,
    };
    for _ in 0..MOST_MESSAGES {
        match read_message(alloc, words, place, messages) {
            Ok(next) => place = next,
            Err(fault) => return Err(fault),
        }
        if is_past(words, place.at) {
            return Ok(());
        }
    }
    Err(LineFault::Word(place.at))
}

// Reads what stands behind the options.
#[tactic(auto, unfolding(crate::specs::Combined::combined_bus))]
fn read_bus(alloc: Global, words: &[&[u8]], at: u16, force: bool) -> Result<Cmd, LineFault>
    requires { at < 90 }
    ensures { Gives (read_at (combined_bus force) (texts words.now) at) result }
{
    let bus = bus_at(words, at)?;
    let mut messages = Descs::new(alloc);
    match read_descs(alloc, words, at + 1, &mut messages) {
        Ok(()) => Ok(Cmd::Tool(ToolCmd::Combined(Combined {
            force,
            bus,
            messages,
        }))),
        Err(fault) => Err(fault),
    }
}

/// Reads what stands behind the first word.
#[tactic(auto, unfolding(crate::specs::Combined::combined_words), using(crate::proofs::OptionLemmas::options_read))]
pub fn read_combined(alloc: Global, words: &[&[u8]]) -> Result<Cmd, LineFault>
    ensures { Gives (read_at combined_words (texts words.now) 1) result }
{
    let (force, at) = options(words, 1)?;
    read_bus(alloc, words, at, force)
}
