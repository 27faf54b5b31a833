//! The form `clear BOARD BUS ADDR CUT`: a read is cut off, and its bus cleared (UM10204 section 3.1.16).
ghost use Rattle.std.specs.Prelude.{◌≡◌, ◌≤◌, ◌<◌, ◌++◌, Some, length, map, slice_get, string_bytes, OnOk, IfOk, IfErr, IfSome, IsTrue, Result};
ghost use Rattle.bus_clear.specs.Cuts.{RISES};
ghost use Rattle.i2c_base.specs.Limits.{FIRST_ADDRESS, LAST_ADDRESS};
ghost use Rattle.tools.specs.Numbers.{number_in};
ghost use Rattle.tools.specs.Readers.{word_at};
ghost use Rattle.tools.specs.Values.{byte_word};
ghost use Rattle.i2c_top.specs.Endings.{CameToSuccess, CameToRefusal, HasEndedAs};
ghost use Rattle.i2c_top.specs.Traces.{RigView, shelf_view, beside};
ghost use Rattle.i2c_top.specs.forms.Clears.{clear_in, clear_form, HasCleared, cleared_lines, level_word, read_line};
ghost use Rattle.i2c_top.specs.declared.status.Status.TheVariants as status;

use crate::Status;
use crate::ending::write_outcome;
use crate::files::read_accepted;
use crate::number::number_named;
use crate::text::ReportText;
use crate::words::{BOARD, is_name, word_at};
use bus_clear::{RootCleared, clear_root};
use bus_journal::{errno_name, hex_digit, push_bytes, push_number};
use i2c_base::{Addr, Errno, NoMemory, SegId};
use i2c_board::Accepted;
use i2c_outside::{Shelf, Sink};
use std::alloc::Global;
use tools::number_in;

/// Which bus, which address, and the rise after which the read is cut off.
#[derive(Clone, Copy)]
pub struct ClearAt {
    pub bus: u16,
    pub addr: Addr,
    pub cut: u8,
}

// The address that a word spells.
fn address_named(word: &str) -> Option<Addr>
    ensures { result ≡ number_in FIRST_ADDRESS LAST_ADDRESS word.now }
{
    let number = number_in(
        word.as_bytes(),
        u16::from(Addr::FIRST),
        u16::from(Addr::LAST),
    )?;
    Addr::new(number as u8)
}

/// Which read is to be cut off, where the words are in this form.
pub fn clear_in(words: &[String]) -> Option<ClearAt>
    ensures value { result ≡ clear_in (map string_bytes words.now) }
    ensures cut { IfSome result (λ at. (1 ≤ at.cut) × (at.cut ≤ RISES)) }
{
    if words.len() != 5
        || word_at(words, 0) != "clear"
        || !is_name(word_at(words, BOARD as usize))
    {
        return None;
    }
    let bus = number_named(word_at(words, 2), 0, u64::from(u16::MAX))?;
    let addr = address_named(word_at(words, 3))?;
    let cut = number_named(word_at(words, 4), 1, 18)?;
    Some(ClearAt {
        bus: bus as u16,
        addr,
        cut: cut as u8,
    })
}

// The root of this number, where it is one.
fn root_named(board: &Accepted, bus: u16) -> Result<SegId, Status>
    ensures root { IfOk result (λ root. (root ≡ bus) × (bus < length board.now.roots)) }
    ensures refused { IfErr result (λ e. (e ≡ status.NoRoot bus) × (length board.now.roots ≤ bus)) }
{
    if usize::from(bus) < board.board().roots().len() {
        Ok(SegId(bus))
    } else {
        Err(Status::NoRoot(bus))
    }
}

fn push_level(out: &mut Vec<u8>, high: bool) -> Result<(), NoMemory>
    ensures { OnOk result (out.new.items ≡ out.old.items ++ level_word high) }
{
    if high {
        push_bytes(out, b"high")
    } else {
        push_bytes(out, b"low")
    }
}

fn push_byte(out: &mut Vec<u8>, byte: u8) -> Result<(), NoMemory>
    ensures { OnOk result (out.new.items ≡ out.old.items ++ byte_word byte) }
{
    push_bytes(out, b"0x")?;
    push_bytes(out, &[hex_digit(byte / 16), hex_digit(byte % 16)])
}

fn push_read(out: &mut Vec<u8>, read: Result<u8, Errno>) -> Result<(), NoMemory>
    ensures { OnOk result (out.new.items ≡ out.old.items ++ read_line read) }
{
    match read {
        Ok(byte) => {
            push_bytes(out, b"read ")?;
            push_byte(out, byte)?;
        }
        Err(errno) => push_bytes(out, errno_name(errno))?,
    }
    push_bytes(out, b"\n")
}

// The three lines.
fn lines_of(alloc: Global, cut: u8, cleared: &RootCleared) -> Result<ReportText, NoMemory>
    ensures { IfOk result (λ text. text ≡ cleared_lines cut cleared.now.high cleared.now.pulses cleared.now.read) }
{
    let mut out = Vec::new(alloc);
    push_bytes(&mut out, b"cut ")?;
    push_number(&mut out, u64::from(cut))?;
    push_bytes(&mut out, b" sda ")?;
    push_level(&mut out, cleared.high)?;
    push_bytes(&mut out, b"\npulses ")?;
    push_number(&mut out, u64::from(cleared.pulses))?;
    push_bytes(&mut out, b"\n")?;
    push_read(&mut out, cleared.read)?;
    Ok(ReportText::whole(alloc, out))
}

// Reads the board, and does so on it: the lines, or the refusal.
fn clear_board<S: Shelf>(
    alloc: Global,
    board: &str,
    at: &ClearAt,
    shelf: &mut S,
) -> Result<ReportText, Status>
    requires board { slice_get (S.words shelf.old) 1 ≡ Some board.now }
    requires cut { (1 ≤ at.now.cut) × (at.now.cut ≤ RISES) }
    ensures done { IfOk result (λ text. (rig : RigView)
        → CameToSuccess (clear_form board.now at.now) (shelf_view S.Shelf shelf.old) (shelf_view S.Shelf shelf.new) rig rig text) }
    ensures refused { IfErr result (λ e. (rig : RigView)
        → CameToRefusal (clear_form board.now at.now) (shelf_view S.Shelf shelf.old) (shelf_view S.Shelf shelf.new) rig rig e) }
{
    let accepted = read_accepted(alloc, shelf, board)?;
    let root = root_named(&accepted, at.bus)?;
    let cleared = clear_root(alloc, &accepted, root, at.addr, at.cut)?;
    Ok(lines_of(alloc, at.cut, &cleared)?)
}

/// Reads a board, cuts a read of an address off on one of its roots, clears the bus, and reads the address then: it writes the
/// level of SDA after the cut, how many pulses freed it, and the reply to the read. A refusal writes its line. No rig is plugged.
/// The words are the shelf's, and ask for this.
///
/// It returns on every input. `Board` is told as by a check, `NoRoot` exactly where the board is accepted and the bus is none of
/// its roots; `Read(1)` only where the shelf counted a fault of that file; `Write` where the sink did.
pub fn clear_call<S: Shelf, K: Sink>(
    alloc: Global,
    words: &[String],
    at: &ClearAt,
    shelf: &mut S,
    sink: &mut K,
) -> Status
    requires words { S.words shelf.old ≡ map string_bytes words.now }
    requires form { clear_in (map string_bytes words.now) ≡ Some at.now }
    requires cut { (1 ≤ at.now.cut) × (at.now.cut ≤ RISES) }

    // The cause of each status and each status of a cause, what was written, and what is kept; beside any rig.
    ensures ended { (rig : RigView) → HasEndedAs (clear_form (word_at (map string_bytes words.now) 1) at.now)
        (beside rig S.Shelf K.Sink shelf.old sink.old) (beside rig S.Shelf K.Sink shelf.new sink.new) result }

    // The lines of the board.
    ensures success { IsTrue S.tells → IsTrue K.tells → result ≡ status.Ok
        → HasCleared (S.file shelf.old) (word_at (map string_bytes words.now) 1) at.now (K.bytes sink.old) (K.bytes sink.new) }
{
    let outcome = clear_board(alloc, word_at(words, BOARD as usize), at, shelf);
    write_outcome(alloc, words, outcome, sink)
}
