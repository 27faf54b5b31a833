//! The form of a report: its lines, and what they tell of failed calls.
ghost use Rattle.std.specs.Prelude.{◌≡◌, ◌+◌, ◌^◌, ◌≤◌, ◌⊎◌, ◌++◌, ◌∷◌, ℕ, List, [], drop, length, take, None, OnOk, IfOk, IfErr, IfSome};
ghost use Rattle.std.specs.Str.{bytes_eq};
ghost use Rattle.bus_journal.specs.Reports.{IsLine};
ghost use Rattle.bus_journal.specs.Told.{entries_of};
ghost use Rattle.journal_check.specs.Forms.{EndAt, FirstOffence, HasAdded, HeadingAt, IsEntryLine, Entries as InEntries, Sections as InSections, lines_of};
ghost use Rattle.journal_check.specs.Gaps.{AreGapsOf};
ghost use Rattle.journal_check.specs.declared.form.FormFault.TheVariants as fault;

use crate::gaps::{RootGaps, add_entry};
use bus_journal::{EntryRef, LineReader, rest_after};
use i2c_board::Accepted;
use memchr::memchr;
use std::alloc::Global;

/// Why a text has not the form of a report.
#[derive(Clone, Copy)]
pub enum FormFault {
    /// The first line at fault, from 1.
    Line(u32),
    Memory,
}

// A line has these bytes.
#[inline(always)]
fn is_line(line: &[u8], word: &[u8]) -> bool
    ensures { result ≡ bytes_eq line.now word.now }
{
    line == word
}

/// Where a reader stands: how many bytes are before the next line, and the number of that.
#[derive(Clone, Copy)]
pub struct LineAt {
    pub at: usize,
    pub number: u32,
}

/// The first line of a text, if a line feed ends it.
#[inline(always)]
pub fn ended_line(text: &[u8]) -> Option<&[u8]>
    ensures some { IfSome result (λ line. IsLine line.now × (text.now ≡ line.now ++ 10 ∷ drop (length line.now + 1) text.now)) }
    ensures none { result ≡ None → IsLine text.now }
{
    match memchr(b'\n', text) {
        Some(feed) => Some(&text[..feed]),
        None => None,
    }
}

/// The line after the first line `journal`, or the first line at fault.
pub fn behind_heading(text: &[u8]) -> Result<LineAt, u32>
    requires { length text.now ≤ 2 ^ 28 }
    ensures ok { IfOk result (λ x. HeadingAt text.now x.at x.number) }
    ensures wrong { IfErr result (FirstOffence InSections 1 (lines_of text.now)) }
{
    let mut rest = text;
    let mut number = 1u32;
    while let Some(line) = ended_line(rest) {
        rest = rest_after(rest, line.len() + 1);
        number += 1;
        if is_line(line, b"journal") {
            return Ok(LineAt {
                at: text.len() - rest.len(),
                number,
            });
        }
    }
    Err(number)
}

// The entry of a line more is told.
fn add_line(
    reader: &mut LineReader,
    board: &Accepted,
    gaps: &mut [RootGaps],
    line: &[u8],
    number: u32,
) -> Result<(), FormFault>
    ensures count { length gaps.new ≡ length gaps.old }
    ensures ok { OnOk result (HasAdded board.now line.now gaps.old gaps.new) }
    ensures wrong { IfErr result (λ e. (e ≡ fault.Memory) ⊎ ((e ≡ fault.Line number) × (IsEntryLine line.now → ⊥))) }
{
    let Some(head) = reader.read(line) else {
        return Err(FormFault::Line(number));
    };
    let entry = EntryRef {
        head,
        bytes: reader.bytes(),
    };
    match add_entry(board, gaps, &entry) {
        Ok(()) => Ok(()),
        Err(_) => Err(FormFault::Memory),
    }
}

/// The lines of entries up to the line `end`, which is the last one: how many bytes they have; or the first line at fault. What they
/// tell of failed calls is added to the gaps of the roots.
pub fn read_entries(
    alloc: Global,
    board: &Accepted,
    text: &[u8],
    first: u32,
    gaps: &mut [RootGaps],
) -> Result<usize, FormFault>
    requires short { length text.now ≤ 2 ^ 28 }
    requires few { first ≤ 1 + 2 ^ 28 }
    requires none { AreGapsOf board.now [] gaps.old }
    ensures count { length gaps.new ≡ length gaps.old }
    ensures ok { IfOk result (λ at. EndAt text.now at (entries_of (take at text.now)) × AreGapsOf board.now (entries_of (take at text.now)) gaps.new) }
    ensures wrong { IfErr result (λ e. (e ≡ fault.Memory) ⊎ ((n : ℕ) × (e ≡ fault.Line n) × FirstOffence InEntries first (lines_of text.now) n)) }
{
    let Ok(mut reader) = LineReader::new(alloc) else {
        return Err(FormFault::Memory);
    };
    let mut rest = text;
    let mut number = first;
    while let Some(line) = ended_line(rest) {
        let next = rest_after(rest, line.len() + 1);
        if is_line(line, b"end") {
            if !next.is_empty() {
                return Err(FormFault::Line(number + 1));
            }
            return Ok(text.len() - rest.len());
        }
        match add_line(&mut reader, board, gaps, line, number) {
            Ok(()) => {}
            Err(fault) => return Err(fault),
        }
        rest = next;
        number += 1;
    }
    Err(FormFault::Line(number))
}
