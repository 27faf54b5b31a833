//! The lines of handles, a row for each.

ghost use Rattle.std.specs.Prelude.{◌≡◌, ◌≤◌, ◌<◌};
ghost use Rattle.tools.specs.Grammars.{read_at};
ghost use Rattle.tools.specs.HandleLines.{handle_number, open_words, slave_words, pec_words, read_words, write_words, rdwr_words, proc_word, proc_words, bproc_bytes, bproc_words, close_words, handle_lines};
ghost use Rattle.tools.specs.Readers.{texts, one_at, over_at, Gives};
ghost use Rattle.tools.specs.declared.command.Cmd.TheVariants.{Handle};

use crate::command::Cmd;
use crate::command::transfer::read_descs;
use crate::fault::{LineFault, WordRefused};
use crate::lists::{Descs, Octets};
use crate::octets::read_bytes;
use crate::options::{address_at, bus_at, byte_at};
use crate::reader::{is_at, number_at, over_at};
use i2c_base::{Addr, MOST_LENGTH};
use std::alloc::Global;

/// A line of a handle. Each but `Open` begins with the number that was printed where the handle was opened, 0 to 999.
#[derive(Drop)]
pub enum HandleCmd {
    /// Opens one on a bus.
    Open(u16),
    /// Sets the address that it reaches, also where a driver has that.
    Slave(u16, Addr, bool),
    /// Turns its error codes on or off.
    Pec(u16, bool),
    /// Reads so many bytes, 1 to 512.
    Read(u16, u16),
    /// Writes bytes, 1 to 512 of them.
    Write(u16, Octets),
    /// Sends messages as one transfer.
    Rdwr(u16, Descs),
    /// Sends a word to a register, and receives one.
    Proc(u16, u8, u16),
    /// Sends a block to a register, and receives one.
    Bproc(u16, u8, Octets),
    /// Closes it.
    Close(u16),
}

/// The largest number of a handle.
const LARGEST_HANDLE: u16 = 999;

// The number of a handle in the word at a place.
fn handle_at(words: &[&[u8]], at: u16) -> Result<u16, WordRefused>
    ensures { result ≡ one_at handle_number.of (texts words.now) at }
{
    number_at(words, at, 0, LARGEST_HANDLE)
}

// A command that ends before the word at a place.
fn ended_at(words: &[&[u8]], at: u16, command: HandleCmd) -> Result<Cmd, WordRefused>
    ensures { result ≡ over_at (Handle command) (texts words.now) at }
{
    over_at(words, at, Cmd::Handle(command))
}

// Reads BUS.
#[tactic(auto, unfolding(crate::specs::HandleLines::open_words))]
fn read_open(words: &[&[u8]]) -> Result<Cmd, WordRefused>
    ensures { result ≡ read_at open_words (texts words.now) 1 }
{
    let bus = bus_at(words, 1)?;
    ended_at(words, 2, HandleCmd::Open(bus))
}

// Reads H ADDR.
#[tactic(auto, unfolding(crate::specs::HandleLines::slave_words))]
fn read_slave(words: &[&[u8]], force: bool) -> Result<Cmd, WordRefused>
    ensures { result ≡ read_at (slave_words force) (texts words.now) 1 }
{
    let handle = handle_at(words, 1)?;
    let addr = address_at(words, 2)?;
    ended_at(words, 3, HandleCmd::Slave(handle, addr, force))
}

// Reads H, and `on` or `off`.
#[tactic(auto, unfolding(crate::specs::HandleLines::pec_words))]
fn read_pec(words: &[&[u8]]) -> Result<Cmd, WordRefused>
    ensures { result ≡ read_at pec_words (texts words.now) 1 }
{
    let handle = handle_at(words, 1)?;
    if is_at(words, 2, b"on") {
        ended_at(words, 3, HandleCmd::Pec(handle, true))
    } else if is_at(words, 2, b"off") {
        ended_at(words, 3, HandleCmd::Pec(handle, false))
    } else {
        Err(WordRefused(2))
    }
}

// Reads H N.
#[tactic(auto, unfolding(crate::specs::HandleLines::read_words))]
fn read_read(words: &[&[u8]]) -> Result<Cmd, WordRefused>
    ensures { result ≡ read_at read_words (texts words.now) 1 }
{
    let handle = handle_at(words, 1)?;
    let count = number_at(words, 2, 1, MOST_LENGTH as u16)?;
    ended_at(words, 3, HandleCmd::Read(handle, count))
}

// Reads H and the bytes.
#[tactic(auto, unfolding(crate::specs::HandleLines::write_words))]
fn read_write(alloc: Global, words: &[&[u8]]) -> Result<Cmd, LineFault>
    ensures { Gives (read_at write_words (texts words.now) 1) result }
{
    let handle = handle_at(words, 1)?;
    let mut bytes = Octets::new(alloc);
    match read_bytes(words, 2, MOST_LENGTH as u16, &mut bytes) {
        Ok(()) => Ok(Cmd::Handle(HandleCmd::Write(handle, bytes))),
        Err(fault) => Err(fault),
    }
}

// Reads H and the messages.
#[tactic(auto, unfolding(crate::specs::HandleLines::rdwr_words))]
fn read_rdwr(alloc: Global, words: &[&[u8]]) -> Result<Cmd, LineFault>
    ensures { Gives (read_at rdwr_words (texts words.now) 1) result }
{
    let handle = handle_at(words, 1)?;
    let mut messages = Descs::new(alloc);
    match read_descs(alloc, words, 2, &mut messages) {
        Ok(()) => Ok(Cmd::Handle(HandleCmd::Rdwr(handle, messages))),
        Err(fault) => Err(fault),
    }
}

// Reads WORD.
#[tactic(auto, unfolding(crate::specs::HandleLines::proc_word))]
fn read_word(words: &[&[u8]], at: u16, handle: u16, reg: u8) -> Result<Cmd, WordRefused>
    requires { at < 90 }
    ensures { result ≡ read_at (proc_word handle reg) (texts words.now) at }
{
    let word = number_at(words, at, 0, u16::MAX)?;
    ended_at(words, at + 1, HandleCmd::Proc(handle, reg, word))
}

// Reads H REG WORD.
#[tactic(auto, unfolding(crate::specs::HandleLines::proc_words))]
fn read_proc(words: &[&[u8]]) -> Result<Cmd, WordRefused>
    ensures { result ≡ read_at proc_words (texts words.now) 1 }
{
    let handle = handle_at(words, 1)?;
    let reg = byte_at(words, 2)?;
    read_word(words, 3, handle, reg)
}

// Reads the bytes of a block.
#[tactic(auto, unfolding(crate::specs::HandleLines::bproc_bytes))]
fn read_block(
    alloc: Global,
    words: &[&[u8]],
    at: u16,
    limit: u8,
    handle: u16,
    reg: u8,
) -> Result<Cmd, LineFault>
    requires near { at < 90 }
    requires limit { 1 ≤ limit }
    ensures { Gives (read_at (bproc_bytes limit handle reg) (texts words.now) at) result }
{
    let mut bytes = Octets::new(alloc);
    match read_bytes(words, at, u16::from(limit), &mut bytes) {
        Ok(()) => Ok(Cmd::Handle(HandleCmd::Bproc(handle, reg, bytes))),
        Err(fault) => Err(fault),
    }
}

// Reads H REG and the bytes of a block.
#[tactic(auto, unfolding(crate::specs::HandleLines::bproc_words))]
fn read_bproc(alloc: Global, words: &[&[u8]], limit: u8) -> Result<Cmd, LineFault>
    requires { 1 ≤ limit }
    ensures { Gives (read_at (bproc_words limit) (texts words.now) 1) result }
{
    let handle = handle_at(words, 1)?;
    let reg = byte_at(words, 2)?;
    read_block(alloc, words, 3, limit, handle, reg)
}

// Reads H.
#[tactic(auto, unfolding(crate::specs::HandleLines::close_words))]
fn read_close(words: &[&[u8]]) -> Result<Cmd, WordRefused>
    ensures { result ≡ read_at close_words (texts words.now) 1 }
{
    let handle = handle_at(words, 1)?;
    ended_at(words, 2, HandleCmd::Close(handle))
}

/// Reads the line of a handle, over a board with this block limit.
#[tactic(auto, unfolding(crate::specs::HandleLines::handle_lines))]
pub fn read_handle(alloc: Global, words: &[&[u8]], limit: u8) -> Result<Cmd, LineFault>
    requires { 1 ≤ limit }
    ensures { Gives (read_at (handle_lines limit) (texts words.now) 0) result }
{
    if is_at(words, 0, b"open") {
        Ok(read_open(words)?)
    } else if is_at(words, 0, b"slave") {
        Ok(read_slave(words, false)?)
    } else if is_at(words, 0, b"force") {
        Ok(read_slave(words, true)?)
    } else if is_at(words, 0, b"pec") {
        Ok(read_pec(words)?)
    } else if is_at(words, 0, b"read") {
        Ok(read_read(words)?)
    } else if is_at(words, 0, b"write") {
        read_write(alloc, words)
    } else if is_at(words, 0, b"rdwr") {
        read_rdwr(alloc, words)
    } else if is_at(words, 0, b"proc") {
        Ok(read_proc(words)?)
    } else if is_at(words, 0, b"bproc") {
        read_bproc(alloc, words, limit)
    } else if is_at(words, 0, b"close") {
        Ok(read_close(words)?)
    } else {
        Err(LineFault::Word(0))
    }
}
