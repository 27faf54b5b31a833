//! `i2cset`: its line, and the SMBus call that writes a register.

ghost use Rattle.std.specs.Prelude.{◌≡◌, ℕ, ◌+◌, ◌-◌, ◌<◌, ◌≤◌, true, false, [], ◌∷◌, None, Some, IfOk, if◌then◌else◌};
ghost use Rattle.std.specs.Str.{bytes_eq};
ghost use Rattle.i2c_base.specs.Bytes.{AreBytes};
ghost use Rattle.i2c_base.specs.Limits.{LARGEST_BLOCK};
ghost use Rattle.tools.specs.Grammars.{read_at};
ghost use Rattle.tools.specs.Numbers.{number_in};
ghost use Rattle.tools.specs.Readers.{texts, one_at, Gives};
ghost use Rattle.tools.specs.Sets.{send_mode, word_mode, block_mode, byte_mode, mode_or, is_short, first_piece, second_piece, block_piece, set_block, set_byte, set_values, set_reg, set_bus, set_words, set_to, set_by, AreOfMode, IsSetInRange, mode_of_set, first_value, set_op, set_run};

use crate::command::{Cmd, ToolCmd};
use crate::fault::{LineFault, WordRefused};
use crate::lists::{Octets, Words};
use crate::number::number_in;
use crate::options::{address_at, bus_at, byte_at, options};
use crate::reader::{is_past, is_text, over_at, word_at};
use crate::run::ToolRun;
use crate::run::call::{Callee, HeldBlock, HeldCall, HeldOp};
use i2c_base::{Addr, I2C_BLOCK_LIMIT, NoMemory};
use std::alloc::Global;

/// How `i2cset` writes its values.
#[derive(Clone, Copy)]
pub enum SetMode {
    /// The register's number is sent alone: `c`, or no value and no MODE.
    Send,
    /// A byte: `b`, or one byte and no MODE.
    Byte,
    /// A word, low byte first: `w`.
    Word,
    /// A block after its count: `s`.
    Block,
    /// A block without its count: `i`.
    I2cBlock,
}

/// The line `i2cset [-f] -y BUS ADDR REG [VALUE...] [MODE]`. None stands for what is missing.
#[derive(Drop)]
pub struct Set {
    /// A device that a driver is bound to is written as well: `-f`.
    pub force: bool,
    pub bus: u16,
    pub addr: Addr,
    pub reg: u8,
    /// None, a number, or the bytes of a block: as many and as large as MODE has them.
    pub values: Words,
    pub mode: Option<SetMode>,
    /// With an error code: the `p` after MODE.
    pub pec: bool,
}

// What stands before the values.
#[derive(Clone, Copy)]
struct SetHead {
    force: bool,
    bus: u16,
    addr: Addr,
    reg: u8,
}

// A mode and whether with an error code, or a value.
#[derive(Clone, Copy)]
enum SetPiece {
    Named((SetMode, bool)),
    Value(u16),
}

// The mode, where the word is its name, or its name with a `p` behind it, which asks for an error code.
fn named(word: &[u8], mode: SetMode, name: &[u8], with_code: &[u8]) -> Option<(SetMode, bool)>
    ensures { result ≡ (if bytes_eq word.now name.now then Some (mode, false) else if bytes_eq word.now with_code.now then Some (mode, true) else None) }
{
    if is_text(word, name) {
        Some((mode, false))
    } else if is_text(word, with_code) {
        Some((mode, true))
    } else {
        None
    }
}

// The mode that a word names, and whether with an error code, after no value.
fn send_mode(word: &[u8]) -> Option<(SetMode, bool)>
    ensures { result ≡ send_mode word.now }
{
    named(word, SetMode::Send, b"c", b"cp")
}

// After a number above 255.
fn word_mode(word: &[u8]) -> Option<(SetMode, bool)>
    ensures { result ≡ word_mode word.now }
{
    named(word, SetMode::Word, b"w", b"wp")
}

// Behind several bytes, few of which are a block of `i` too.
fn block_mode(short: bool, word: &[u8]) -> Option<(SetMode, bool)>
    ensures { result ≡ block_mode short word.now }
{
    match named(word, SetMode::Block, b"s", b"sp") {
        None if short && is_text(word, b"i") => Some((SetMode::I2cBlock, false)),
        mode => mode,
    }
}

// After one byte.
fn byte_mode(word: &[u8]) -> Option<(SetMode, bool)>
    ensures { result ≡ byte_mode word.now }
{
    match named(word, SetMode::Byte, b"b", b"bp") {
        None => word_mode(word).or(block_mode(true, word)),
        mode => mode,
    }
}

// A mode, or else the number in the word, to `high`.
fn mode_or(mode: Option<(SetMode, bool)>, word: &[u8], high: u16) -> Option<SetPiece>
    ensures { result ≡ mode_or mode (number_in 0 high word.now) }
{
    match mode {
        Some(mode) => Some(SetPiece::Named(mode)),
        None => match number_in(word, 0, high) {
            Some(value) => Some(SetPiece::Value(value)),
            None => None,
        },
    }
}

// What stands at a place: after REG.
fn first_piece_at(words: &[&[u8]], at: u16) -> Result<SetPiece, WordRefused>
    ensures { result ≡ one_at first_piece.of (texts words.now) at }
{
    let word = word_at(words, at)?;
    mode_or(send_mode(word), word, u16::MAX).ok_or(WordRefused(at))
}

// After one byte.
fn second_piece_at(words: &[&[u8]], at: u16) -> Result<SetPiece, WordRefused>
    ensures { result ≡ one_at second_piece.of (texts words.now) at }
{
    let word = word_at(words, at)?;
    mode_or(byte_mode(word), word, 255).ok_or(WordRefused(at))
}

// Behind several bytes.
fn block_piece_at(words: &[&[u8]], at: u16, short: bool) -> Result<SetPiece, WordRefused>
    ensures { result ≡ one_at (block_piece short).of (texts words.now) at }
{
    let word = word_at(words, at)?;
    mode_or(block_mode(short, word), word, 255).ok_or(WordRefused(at))
}

// The mode that the word at a place names: after a number above 255.
fn word_mode_at(words: &[&[u8]], at: u16) -> Result<(SetMode, bool), WordRefused>
    ensures { result ≡ one_at word_mode (texts words.now) at }
{
    let word = word_at(words, at)?;
    word_mode(word).ok_or(WordRefused(at))
}

// After one byte, where a block has no more.
fn byte_mode_at(words: &[&[u8]], at: u16) -> Result<(SetMode, bool), WordRefused>
    ensures { result ≡ one_at byte_mode (texts words.now) at }
{
    let word = word_at(words, at)?;
    byte_mode(word).ok_or(WordRefused(at))
}

// Behind several bytes, where a block has no more.
fn block_mode_at(words: &[&[u8]], at: u16, short: bool) -> Result<(SetMode, bool), WordRefused>
    ensures { result ≡ one_at (block_mode short) (texts words.now) at }
{
    let word = word_at(words, at)?;
    block_mode(short, word).ok_or(WordRefused(at))
}

// The line with these values, and this mode, if any.
fn set_to(head: SetHead, values: Words, mode: Option<SetMode>, pec: bool) -> Cmd
    ensures { result ≡ set_to head values mode pec }
{
    Cmd::Tool(ToolCmd::Set(Set {
        force: head.force,
        bus: head.bus,
        addr: head.addr,
        reg: head.reg,
        values,
        mode,
        pec,
    }))
}

// Nothing stands behind the mode.
fn end(
    words: &[&[u8]],
    at: u16,
    head: SetHead,
    values: Words,
    mode: (SetMode, bool),
) -> Result<Cmd, LineFault>
    ensures { Gives (read_at (set_by head values mode) (texts words.now) at) result }
{
    let set = set_to(head, values, Some(mode.0), mode.1);
    Ok(over_at(words, at, set)?)
}

// So few bytes are a block of `i` too.
fn is_short(values: &Words) -> bool
    ensures { result ≡ is_short values.now }
{
    values.as_slice().len() <= usize::from(I2C_BLOCK_LIMIT)
}

// Reads the bytes of a block, of which at most `more` come, and its mode.
fn read_block(
    words: &[&[u8]],
    from: u16,
    head: SetHead,
    first: Words,
    more: u16,
) -> Result<Cmd, LineFault>
    requires near { from < 1000 }
    requires few { more < 1000 }
    ensures { Gives (read_at (set_block head more first) (texts words.now) from) result }
{
    let mut values = first;
    let mut at = from;
    for _ in 0..more {
        match block_piece_at(words, at, is_short(&values))? {
            SetPiece::Named(mode) => return end(words, at + 1, head, values, mode),
            SetPiece::Value(value) => values.push(value)?,
        }
        at += 1;
    }
    let mode = block_mode_at(words, at, is_short(&values))?;
    end(words, at + 1, head, values, mode)
}

// Reads what stands behind one byte, of a block that has at most `more` further ones.
#[tactic(auto, unfolding(crate::specs::Sets::set_byte))]
fn read_byte(
    words: &[&[u8]],
    at: u16,
    head: SetHead,
    first: Words,
    value: u16,
    more: u16,
) -> Result<Cmd, LineFault>
    requires near { at < 900 }
    requires few { more < 900 }
    requires first { first ≡ value ∷ [] }
    ensures { Gives (read_at (set_byte head more value) (texts words.now) at) result }
{
    let mut values = first;
    if is_past(words, at) {
        return Ok(set_to(head, values, None, false));
    }
    if more == 0 {
        let mode = byte_mode_at(words, at)?;
        return end(words, at + 1, head, values, mode);
    }
    match second_piece_at(words, at)? {
        SetPiece::Named(mode) => end(words, at + 1, head, values, mode),
        SetPiece::Value(next) => {
            values.push(next)?;
            read_block(words, at + 1, head, values, more - 1)
        }
    }
}

// Reads what stands behind REG.
#[tactic(auto, unfolding(crate::specs::Sets::set_values, crate::specs::Sets::set_number))]
fn read_values(
    alloc: Global,
    words: &[&[u8]],
    at: u16,
    head: SetHead,
    more: u16,
) -> Result<Cmd, LineFault>
    requires near { at < 800 }
    requires few { more < 900 }
    ensures { Gives (read_at (set_values head more) (texts words.now) at) result }
{
    let mut values = Words::new(alloc);
    if is_past(words, at) {
        return Ok(set_to(head, values, None, false));
    }
    match first_piece_at(words, at)? {
        SetPiece::Named(mode) => end(words, at + 1, head, values, mode),
        SetPiece::Value(value) => {
            values.push(value)?;
            if value <= 255 {
                return read_byte(words, at + 1, head, values, value, more);
            }
            let mode = word_mode_at(words, at + 1)?;
            end(words, at + 2, head, values, mode)
        }
    }
}

// Reads what stands behind ADDR.
#[tactic(auto, unfolding(crate::specs::Sets::set_reg))]
fn read_reg(
    alloc: Global,
    words: &[&[u8]],
    at: u16,
    limit: u8,
    force: bool,
    bus: u16,
    addr: Addr,
) -> Result<Cmd, LineFault>
    requires near { at < 700 }
    requires some { 1 ≤ limit }
    ensures { Gives (read_at (set_reg limit force bus addr) (texts words.now) at) result }
{
    let reg = byte_at(words, at)?;
    let head = SetHead {
        force,
        bus,
        addr,
        reg,
    };
    read_values(alloc, words, at + 1, head, u16::from(limit) - 1)
}

// Reads what stands behind the options.
#[tactic(auto, unfolding(crate::specs::Sets::set_bus))]
fn read_bus(
    alloc: Global,
    words: &[&[u8]],
    at: u16,
    limit: u8,
    force: bool,
) -> Result<Cmd, LineFault>
    requires near { at < 600 }
    requires some { 1 ≤ limit }
    ensures { Gives (read_at (set_bus limit force) (texts words.now) at) result }
{
    let bus = bus_at(words, at)?;
    let addr = address_at(words, at + 1)?;
    read_reg(alloc, words, at + 2, limit, force, bus, addr)
}

/// Reads what stands behind the first word.
#[tactic(auto, unfolding(crate::specs::Sets::set_words), using(crate::proofs::OptionLemmas::options_read))]
pub fn read_set(alloc: Global, words: &[&[u8]], limit: u8) -> Result<Cmd, LineFault>
    requires { 1 ≤ limit }
    ensures { Gives (read_at (set_words limit) (texts words.now) 1) result }
{
    let (force, at) = options(words, 1)?;
    read_bus(alloc, words, at, limit, force)
}

// The mode, also where none is named.
fn mode_of(set: &Set) -> SetMode
    ensures { result ≡ mode_of_set set.now }
{
    match set.mode {
        Some(mode) => mode,
        None => {
            if set.values.as_slice().is_empty() {
                SetMode::Send
            } else {
                SetMode::Byte
            }
        }
    }
}

// Its first value.
fn first_value(set: &Set) -> u16
    ensures { result ≡ first_value set.now }
{
    match set.values.as_slice().first() {
        Some(value) => *value,
        None => 0,
    }
}

// Its values, which are bytes.
fn bytes_of(alloc: Global, values: &Words) -> Result<Octets, NoMemory>
    requires { AreBytes values.now }
    ensures { IfOk result (λ bytes. bytes ≡ values.now) }
{
    let mut bytes = Octets::new(alloc);
    for value in values.as_slice() {
        bytes.push(*value as u8)?;
    }
    Ok(bytes)
}

// The call of a mode.
fn op(alloc: Global, set: &Set, mode: SetMode) -> Result<HeldOp, NoMemory>
    requires { AreOfMode LARGEST_BLOCK mode set.now.values }
    ensures { IfOk result (λ op. op ≡ set_op set.now mode) }
{
    let op = match mode {
        SetMode::Send => HeldOp::SendByte(set.reg),
        SetMode::Byte => HeldOp::WriteByte(set.reg, first_value(set) as u8),
        SetMode::Word => HeldOp::WriteWord(set.reg, first_value(set)),
        SetMode::Block => {
            HeldOp::BlockWrite(set.reg, HeldBlock::new(bytes_of(alloc, &set.values)?))
        }
        SetMode::I2cBlock => {
            HeldOp::I2cBlockWrite(set.reg, HeldBlock::new(bytes_of(alloc, &set.values)?))
        }
    };
    Ok(op)
}

/// How it runs.
pub fn run(alloc: Global, set: &Set) -> Result<ToolRun, NoMemory>
    requires { (limit : ℕ) × IsSetInRange limit set.now }
    ensures { IfOk result (λ run. run ≡ set_run set.now) }
{
    let op = op(alloc, set, mode_of(set))?;
    let to = Callee {
        bus: set.bus,
        addr: set.addr,
        force: set.force,
        pec: set.pec,
    };
    Ok(ToolRun::Calls(HeldCall { to, op }))
}
