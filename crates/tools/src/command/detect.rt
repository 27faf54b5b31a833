//! `i2cdetect`: its lines, and the list of the buses.

ghost use Rattle.std.specs.Prelude.{◌≡◌, ◌+◌, ◌<◌, ◌≤◌, ◌++◌, IfOk, OnOk};
ghost use Rattle.i2c_spec.specs.Tree.{buses};
ghost use Rattle.tools.specs.Detects.{last_word, probe_yes_at, yes_probe_at, probe_and_yes_at, detect_range, detect_bus, detect_words, way_text, bus_line, bus_lines};
ghost use Rattle.tools.specs.Grammars.{read_at};
ghost use Rattle.tools.specs.Readers.{texts, one_at};

use crate::command::{Cmd, ToolCmd};
use crate::fault::WordRefused;
use crate::number::number_in;
use crate::options::bus_at;
use crate::reader::{is_at, is_past, number_at, over_at, word_at};
use crate::run::lines::KnownLines;
use bus_journal::{push_bytes, push_number};
use i2c_base::{Addr, MuxId, NoMemory, SegId};
use i2c_board::Board;
use std::alloc::Global;

/// How `i2cdetect` probes an address.
#[derive(Clone, Copy)]
pub enum Probe {
    /// By what may stand there: a byte is received where EEPROMs stand, and elsewhere a quick write is sent.
    ByAddress,
    /// By a quick write: `-q`.
    Quick,
    /// By receiving a byte: `-r`.
    Receive,
}

/// The line `i2cdetect [-q or -r] -y BUS [FIRST LAST]`.
#[derive(Clone, Copy)]
pub struct Detect {
    pub bus: u16,
    pub probe: Probe,
    /// FIRST, 0 to 127, or 8 where it is missing. Of the addresses from `first` to `last` it probes those that a target may have.
    pub first: u8,
    /// LAST, `first` to 127, or 119 where it is missing.
    pub last: u8,
}

// Reads `-y`, where the probe is known.
fn yes_with(words: &[&[u8]], at: u16, probe: Probe) -> Result<(Probe, u16), WordRefused>
    requires { at < 3 }
    ensures gives { result ≡ probe_yes_at probe (texts words.now) at }
    ensures near { IfOk result (λ o. o.1 ≤ at + 1) }
{
    if is_at(words, at, b"-y") {
        Ok((probe, at + 1))
    } else {
        Err(WordRefused(at))
    }
}

// Reads `-q` or `-r` after `-y`. Both may be missing.
fn probe_behind(words: &[&[u8]], at: u16) -> (Probe, u16)
    requires { at < 3 }
    ensures gives { result ≡ yes_probe_at (texts words.now) at }
    ensures near { result.1 ≤ at + 1 }
{
    if is_at(words, at, b"-q") {
        (Probe::Quick, at + 1)
    } else if is_at(words, at, b"-r") {
        (Probe::Receive, at + 1)
    } else {
        (Probe::ByAddress, at)
    }
}

// Reads `-q` or `-r`, which both may be missing, and `-y`, in any order. Tells how it probes, and the place after them.
#[tactic(auto, unfolding(crate::specs::Detects::probe_and_yes_at))]
fn probe_and_yes(words: &[&[u8]], at: u16) -> Result<(Probe, u16), WordRefused>
    requires { at < 2 }
    ensures gives { result ≡ probe_and_yes_at (texts words.now) at }
    ensures near { IfOk result (λ o. o.1 ≤ at + 2) }
{
    if is_at(words, at, b"-q") {
        yes_with(words, at + 1, Probe::Quick)
    } else if is_at(words, at, b"-r") {
        yes_with(words, at + 1, Probe::Receive)
    } else if is_at(words, at, b"-y") {
        Ok(probe_behind(words, at + 1))
    } else {
        Err(WordRefused(at))
    }
}

// The LAST that a word is, which isn't below FIRST.
fn last_in(word: &[u8], first: u8) -> Option<u8>
    ensures { result ≡ (last_word first).of word.now }
{
    let last = number_in(word, 0, 127)?;
    if last == 127 || u16::from(first) <= last {
        Some(last as u8)
    } else {
        None
    }
}

// LAST in the word at a place.
fn last_at(words: &[&[u8]], at: u16, first: u8) -> Result<u8, WordRefused>
    ensures { result ≡ one_at (last_word first).of (texts words.now) at }
{
    let word = word_at(words, at)?;
    last_in(word, first).ok_or(WordRefused(at))
}

// Reads what stands behind BUS: FIRST and LAST, which may be missing.
#[tactic(auto, unfolding(crate::specs::Detects::detect_range))]
fn read_range(words: &[&[u8]], at: u16, probe: Probe, bus: u16) -> Result<Cmd, WordRefused>
    requires { at < 5 }
    ensures { result ≡ read_at (detect_range probe bus) (texts words.now) at }
{
    if is_past(words, at) {
        return Ok(Cmd::Tool(ToolCmd::Detect(Detect {
            bus,
            probe,
            first: Addr::FIRST,
            last: Addr::LAST,
        })));
    }
    let first = number_at(words, at, 0, 127)? as u8;
    let last = last_at(words, at + 1, first)?;
    let detect = Detect {
        bus,
        probe,
        first,
        last,
    };
    over_at(words, at + 2, Cmd::Tool(ToolCmd::Detect(detect)))
}

// Reads what stands behind the options.
#[tactic(auto, unfolding(crate::specs::Detects::detect_bus))]
fn read_bus(words: &[&[u8]], at: u16, probe: Probe) -> Result<Cmd, WordRefused>
    requires { at < 4 }
    ensures { result ≡ read_at (detect_bus probe) (texts words.now) at }
{
    let bus = bus_at(words, at)?;
    read_range(words, at + 1, probe, bus)
}

/// Reads what stands behind the first word.
#[tactic(auto, unfolding(crate::specs::Detects::detect_words), using(crate::proofs::DetectLemmas::probe_read))]
pub fn read_detect(words: &[&[u8]]) -> Result<Cmd, WordRefused>
    ensures { result ≡ read_at detect_words (texts words.now) 1 }
{
    if is_at(words, 1, b"-l") {
        return over_at(words, 2, Cmd::Tool(ToolCmd::List));
    }
    let (probe, at) = probe_and_yes(words, 1)?;
    read_bus(words, at, probe)
}

// Puts at the end what stands behind the name of a bus.
fn push_way(out: &mut Vec<u8>, over: Option<(MuxId, u8)>) -> Result<(), NoMemory>
    ensures { OnOk result (out.new.items ≡ out.old.items ++ way_text over) }
{
    match over {
        None => push_bytes(out, b" root"),
        Some((mux, channel)) => {
            push_bytes(out, b" mux ")?;
            push_number(out, u64::from(mux.0))?;
            push_bytes(out, b" channel ")?;
            push_number(out, u64::from(channel))
        }
    }
}

// Puts the line of a bus at the end.
fn push_bus(out: &mut Vec<u8>, board: &Board, bus: u16) -> Result<(), NoMemory>
    requires { bus < buses board.now }
    ensures { OnOk result (out.new.items ≡ out.old.items ++ bus_line board.now bus) }
{
    push_bytes(out, b"i2c-")?;
    push_number(out, u64::from(bus))?;
    push_way(out, board.over(SegId(bus)))
}

/// The lines of all buses.
pub fn bus_lines(alloc: Global, board: &Board) -> Result<KnownLines, NoMemory>
    ensures { IfOk result (λ lines. lines ≡ bus_lines board.now) }
{
    let mut lines = KnownLines::new(alloc);
    let mut line = Vec::new(alloc);
    for bus in 0..board.buses() {
        line.clear();
        push_bus(&mut line, board, bus)?;
        lines.push(line.as_slice())?;
    }
    Ok(lines)
}
