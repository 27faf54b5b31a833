//! `i2cdump`: its line.

ghost use Rattle.std.specs.Prelude.{◌≡◌, ◌+◌, ◌*◌, ◌<◌, ◌&&◌, not};
ghost use Rattle.tools.specs.Dumps.{is_dash, range_of, range_word, dump_mode, dumped, dump_tail, dump_bus, dump_options, dump_words};
ghost use Rattle.tools.specs.Grammars.{read_at};
ghost use Rattle.tools.specs.Readers.{texts, one_at, is_at};

use crate::command::{Cmd, ToolCmd};
use crate::fault::WordRefused;
use crate::number::byte_in;
use crate::options::{address_at, bus_at};
use crate::reader::{is_at, is_past, is_text, over_at, word_at};
use crate::words::{Gap, gap_at};
use i2c_base::Addr;

/// How `i2cdump` reads its registers.
#[derive(Clone, Copy)]
pub enum DumpMode {
    /// A byte each: `b`, or no MODE.
    Byte,
    /// A word each, low byte first: `w`.
    Word,
    /// The number of the first register is sent, and then a byte is received for each: `c`.
    Receive,
    /// All registers as eight blocks of 32: `i`.
    I2cBlock,
}

/// The line `i2cdump [-f] -y [-r FIRST-LAST] BUS ADDR [MODE]`.
#[derive(Clone, Copy)]
pub struct Dump {
    /// A device that a driver is bound to is read as well: `-f`.
    pub force: bool,
    pub bus: u16,
    pub addr: Addr,
    /// The first register, 0 without `-r`.
    pub first: u8,
    /// The last register, 255 without `-r`. It is no lower than the first.
    pub last: u8,
    pub mode: DumpMode,
    /// With an error code: the `p` after MODE.
    pub pec: bool,
}

// The options so far: whether `-f` and `-y` have come, and the range of `-r`.
#[derive(Clone, Copy)]
struct DumpOptions {
    force: bool,
    yes: bool,
    range: Option<(u8, u8)>,
}

// The sign between the registers of a range.
struct Dash;

impl Gap for Dash {
    ghost gaps = { is_dash };

    fn is_gap(byte: u8) -> bool {
        byte == b'-'
    }
}

// The range in a word.
fn range_of(word: &[u8]) -> Option<(u8, u8)>
    ensures { result ≡ range_of word.now }
{
    let at = gap_at::<Dash>(word);
    let first = byte_in(&word[..at])?;
    if at == word.len() {
        return None;
    }
    let last = byte_in(&word[at + 1..])?;
    if first <= last {
        Some((first, last))
    } else {
        None
    }
}

// The range in the word at a place.
fn range_at(words: &[&[u8]], at: u16) -> Result<(u8, u8), WordRefused>
    ensures { result ≡ one_at range_word.of (texts words.now) at }
{
    let word = word_at(words, at)?;
    range_of(word).ok_or(WordRefused(at))
}

// The mode that a word names, and whether with an error code. With a range there are no blocks.
fn dump_mode(ranged: bool, word: &[u8]) -> Option<(DumpMode, bool)>
    ensures { result ≡ dump_mode ranged word.now }
{
    if is_text(word, b"b") {
        Some((DumpMode::Byte, false))
    } else if is_text(word, b"w") {
        Some((DumpMode::Word, false))
    } else if is_text(word, b"c") {
        Some((DumpMode::Receive, false))
    } else if is_text(word, b"bp") {
        Some((DumpMode::Byte, true))
    } else if is_text(word, b"wp") {
        Some((DumpMode::Word, true))
    } else if is_text(word, b"cp") {
        Some((DumpMode::Receive, true))
    } else if !ranged && is_text(word, b"i") {
        Some((DumpMode::I2cBlock, false))
    } else {
        None
    }
}

// The mode that the word at a place names.
fn mode_at(words: &[&[u8]], at: u16, ranged: bool) -> Result<(DumpMode, bool), WordRefused>
    ensures { result ≡ one_at (dump_mode ranged) (texts words.now) at }
{
    let word = word_at(words, at)?;
    dump_mode(ranged, word).ok_or(WordRefused(at))
}

// The command in this mode. Without a range it reads all registers.
fn dumped(options: DumpOptions, bus: u16, addr: Addr, mode: (DumpMode, bool)) -> Cmd
    ensures { result ≡ dumped options bus addr mode }
{
    let (first, last) = options.range.unwrap_or((0, 255));
    Cmd::Tool(ToolCmd::Dump(Dump {
        force: options.force,
        bus,
        addr,
        first,
        last,
        mode: mode.0,
        pec: mode.1,
    }))
}

// Reads what stands behind ADDR.
#[tactic(auto, unfolding(crate::specs::Dumps::dump_tail))]
fn read_tail(
    words: &[&[u8]],
    at: u16,
    options: DumpOptions,
    bus: u16,
    addr: Addr,
) -> Result<Cmd, WordRefused>
    requires { at < 90 }
    ensures { result ≡ read_at (dump_tail options bus addr) (texts words.now) at }
{
    if is_past(words, at) {
        return Ok(dumped(options, bus, addr, (DumpMode::Byte, false)));
    }
    let mode = mode_at(words, at, options.range.is_some())?;
    over_at(words, at + 1, dumped(options, bus, addr, mode))
}

// Reads what stands behind the options.
#[tactic(auto, unfolding(crate::specs::Dumps::dump_bus))]
fn read_bus(words: &[&[u8]], at: u16, options: DumpOptions) -> Result<Cmd, WordRefused>
    requires { at < 80 }
    ensures { result ≡ read_at (dump_bus options) (texts words.now) at }
{
    let bus = bus_at(words, at)?;
    let addr = address_at(words, at + 1)?;
    read_tail(words, at + 2, options, bus, addr)
}

// That option stands at a place, and hasn't been given before.
fn comes_at(words: &[&[u8]], at: u16, text: &[u8], given: bool) -> bool
    ensures { result ≡ (not given && is_at text.now (texts words.now) at) }
{
    !given && is_at(words, at, text)
}

// Reads at most so many further options, and what stands behind them.
#[tactic(auto, using(crate::proofs::DumpLemmas::options_none, crate::proofs::DumpLemmas::options_more))]
fn read_options(
    words: &[&[u8]],
    at: u16,
    left: u8,
    options: DumpOptions,
) -> Result<Cmd, WordRefused>
    requires { at + 2 * left < 80 }
    ensures { result ≡ read_at (dump_options left options) (texts words.now) at }
{
    if left == 0 {
        return read_bus(words, at, options);
    }
    if comes_at(words, at, b"-f", options.force) {
        let options = DumpOptions {
            force: true,
            ..options
        };
        return read_options(words, at + 1, left - 1, options);
    }
    if comes_at(words, at, b"-r", options.range.is_some()) {
        let range = Some(range_at(words, at + 1)?);
        return read_options(words, at + 2, left - 1, DumpOptions { range, ..options });
    }
    if options.yes {
        return read_bus(words, at, options);
    }
    if !is_at(words, at, b"-y") {
        return Err(WordRefused(at));
    }
    let options = DumpOptions {
        yes: true,
        ..options
    };
    read_options(words, at + 1, left - 1, options)
}

/// Reads what stands behind the first word.
#[tactic(auto, unfolding(crate::specs::Dumps::dump_words))]
pub fn read_dump(words: &[&[u8]]) -> Result<Cmd, WordRefused>
    ensures { result ≡ read_at dump_words (texts words.now) 1 }
{
    let options = DumpOptions {
        force: false,
        yes: false,
        range: None,
    };
    read_options(words, 1, 3, options)
}
