//! A line of the journal, read back as its entry.
ghost use Rattle.std.specs.Prelude.{◌≡◌, ◌⊎◌, ◌≤◌, ◌++◌, true, [], length, Some, IfOk, IfSome, vec_capacity};
ghost use Rattle.bus_spec.specs.Lines.{entry_line};
ghost use Rattle.bus_journal.specs.Borrowed.{LONGEST_LINE, entry_by, entry_seen, most_bytes, read_as};
ghost use Rattle.bus_journal.specs.Ranges.{IsEntry};
ghost use Rattle.i2c_base.specs.declared.entry.Entry.{Entry};

use crate::borrowed::{EntryRef, Head};
use crate::guess::guess_entry;
use crate::line::put_entry;
use crate::pieces::Room;
use crate::ranges::entry_is_in_range;
use i2c_base::{Bytes, Entry, MOST_BYTES, NoMemory};
use std::alloc::Global;
use std::marker::Model;

/// Why a line is not read.
#[derive(Clone, Copy)]
pub enum EntryFault {
    /// No entry has this text.
    NotAnEntry,
    Memory,
}

/// Reads lines of the journal back, one after the other, in room that is taken once. A contract sees the bytes of the entry
/// that was read last.
#[derive(Drop)]
pub struct LineReader {
    bytes: Box<Bytes>,
    // In which the line of an entry is made again: its front, where it is a long one, and its end.
    front: Vec<u8>,
    end: Box<Room>,
}

impl Model for LineReader {
    ghost use Rattle.std.specs.Prelude.{◌≤◌, ℕ, List, vec_capacity};
    ghost use Rattle.bus_journal.specs.Borrowed.{LONGEST_LINE};

    ghost Value = { List ℕ };

    ghost view = { λ r. r.bytes.value };

    ghost invariant = { λ r. LONGEST_LINE ≤ vec_capacity r.front };
}

/// No line of an entry has more bytes, without its line feed.
const LONGEST_LINE: usize = 69 + 3 * MOST_BYTES;

// The line of an entry, without its line feed, in two parts. There is room for it.
fn make_again(front: &mut Vec<u8>, end: &mut Room, entry: &EntryRef<'_>)
    requires room { LONGEST_LINE ≤ vec_capacity front.old }
    requires few { length entry.now.bytes.now ≤ most_bytes entry.now.head }
    ensures text { front.new.items ++ end.new ≡ entry_line (entry_seen entry.now) }
    ensures in_range { IsEntry (entry_seen entry.now) }
    ensures room { vec_capacity front.old ≤ vec_capacity front.new }
{
    entry_is_in_range(entry.head, entry.bytes);
    front.clear();
    end.clear();
    let _ = put_entry(front, end, entry);
}

// A line has these two parts.
#[inline(always)]
fn has_parts(line: &[u8], front: &[u8], end: &[u8]) -> bool
    ensures yes { result ≡ true → front.now ++ end.now ≡ line.now }
    ensures no { front.now ++ end.now ≡ line.now → result ≡ true }
{
    match line.strip_prefix(front) {
        Some(rest) => rest == end,
        None => false,
    }
}

// The entry of which this is the line: its head, and its bytes.
fn read_line(line: &[u8], bytes: &mut Bytes, front: &mut Vec<u8>, end: &mut Room) -> Option<Head>
    requires { LONGEST_LINE ≤ vec_capacity front.old }
    ensures some { IfSome result (λ h. entry_line (entry_by h bytes.new) ≡ line.now) }
    ensures in_range { IfSome result (λ h. IsEntry (entry_by h bytes.new)) }
    ensures few { IfSome result (λ h. length bytes.new ≤ most_bytes h) }
    ensures found { (e : Entry) → IsEntry e → entry_line e ≡ line.now → read_as result bytes.new ≡ Some e }
    ensures room { vec_capacity front.old ≤ vec_capacity front.new }
{
    bytes.clear();
    let Some(head) = guess_entry(line, bytes) else {
        return None;
    };
    let entry = EntryRef {
        head,
        bytes: bytes.as_slice(),
    };
    make_again(front, end, &entry);
    if has_parts(line, front.as_slice(), end.as_slice()) {
        Some(entry.head)
    } else {
        None
    }
}

impl LineReader {
    pub fn new(alloc: Global) -> Result<Self, NoMemory>
        ensures { IfOk result (λ r. r ≡ []) }
    {
        Ok(LineReader {
            bytes: Box::new(alloc, Bytes::new())?,
            front: Vec::with_capacity(alloc, LONGEST_LINE)?,
            end: Box::new(alloc, Room::new())?,
        })
    }

    /// The bytes of the entry that was read last.
    pub fn bytes(&self) -> &[u8]
        ensures { result.now ≡ self.now }
    {
        self.bytes.as_slice()
    }

    /// The head of the entry of which this is the line in the journal's text, without its line feed; none where no entry
    /// has this text. It takes no memory.
    ///
    /// The one entry that the line could be is printed, and its text compared.
    pub fn read(&mut self, line: &[u8]) -> Option<Head>
        ensures some { IfSome result (λ h. entry_line (entry_by h self.new) ≡ line.now) }
        ensures in_range { IfSome result (λ h. IsEntry (entry_by h self.new)) }
        ensures few { IfSome result (λ h. length self.new ≤ most_bytes h) }
        ensures found { (e : Entry) → IsEntry e → entry_line e ≡ line.now → read_as result self.new ≡ Some e }
    {
        read_line(line, &mut self.bytes, &mut self.front, &mut self.end)
    }
}

/// The entry of which this is the line in the journal's text, without its line feed.
///
/// It takes room for one line: where there are many, a `LineReader` takes it once.
pub fn read_entry(alloc: Global, line: &[u8]) -> Result<Entry, EntryFault>
    ensures ok { IfOk result (λ e. entry_line e ≡ line.now) }
    ensures in_range { IfOk result IsEntry }
    ensures found { (e : Entry) → IsEntry e → entry_line e ≡ line.now → (result ≡ Ok e) ⊎ (result ≡ Err EntryFault.Memory) }
{
    let Ok(mut reader) = LineReader::new(alloc) else {
        return Err(EntryFault::Memory);
    };
    match reader.read(line) {
        Some(head) => {
            let entry = EntryRef {
                head,
                bytes: reader.bytes(),
            };
            Ok(entry.to_entry())
        }
        None => Err(EntryFault::NotAnEntry),
    }
}
