//! The journal: the lines of its entries, the oldest first, in room that was made beforehand.
ghost use Rattle.std.specs.Prelude.{◌≡◌, ◌+◌, ◌<◌, ◌≤◌, [], ◌∷◌, ◌++◌, ◌*◌, length, codes, IfOk, IfSome, vec_len, vec_capacity};
ghost use Rattle.std.specs.List.{All, flat_map};
ghost use Rattle.std.specs.Option.{option_map};
ghost use Rattle.bus_spec.specs.Report.{ended_line};
ghost use Rattle.bus_journal.specs.Borrowed.{entry_seen, most_bytes};
ghost use Rattle.bus_journal.specs.Ranges.{IsEntry};
ghost use Rattle.bus_journal.specs.Told.{head_of, last_of, last_line};

use crate::borrowed::{EntryRef, Head};
use crate::line::push_line;
use crate::pieces::Room;
use crate::ranges::entry_is_in_range;
use i2c_base::NoMemory;
use std::alloc::Global;
use std::marker::Model;

/// What the core did, one entry after the other, the oldest first, with room for more. A contract sees the list of the
/// entries and the room.
///
/// Only their lines are kept: a line tells its entry. Memory for all lines is taken at the start, and used as they come.
#[derive(Drop)]
pub struct Journal {
    text: Vec<u8>,
    // There was room for so many entries; there is for so many more, and for so many bytes of all of them.
    most: usize,
    room: usize,
    room_bytes: u32,
    // Where the last line begins, and the head of its entry.
    start: usize,
    last: Option<Head>,
    // In which a line is made.
    line: Box<Room>,
}

impl Model for Journal {
    ghost use Rattle.std.specs.Prelude.{◌+◌, ◌*◌, ◌≤◌, vec_len, vec_capacity};
    ghost use Rattle.bus_journal.specs.View.{JournalView};

    ghost Value = { JournalView };

    ghost use Rattle.bus_journal.specs.Told.{entries_of, IsTextOf};

    ghost view = { λ j. record { entries = entries_of j.text.items; room = j.room; room_bytes = j.room_bytes } };

    ghost invariant = { λ j. IsTextOf j.text.items j.most j.room j.start j.last (entries_of j.text.items) × (vec_len j.text + (70 * j.room + 3 * j.room_bytes + 4) ≤ vec_capacity j.text) };
}

/// A line has at most so many bytes beside those that tell the bytes of its entry, three for each.
const LINE: usize = 70;

/// The line that ends a journal's text has so many.
const END: usize = 4;

// How many bytes the lines of so many entries with so many bytes have at most, and the end; none where that is more than
// there can be.
fn text_room(entries: usize, bytes: u32) -> Option<usize>
    ensures { IfSome result (λ n. n ≡ 70 * entries + 3 * bytes + 4) }
{
    let lines = entries.checked_mul(LINE)?;
    lines.checked_add(3 * bytes as usize + END)
}

// Puts the line of an entry at the end of a text that has room for it.
#[inline(always)]
fn append(text: &mut Vec<u8>, line: &mut Room, entry: &EntryRef<'_>)
    requires { vec_len text.old + (70 + 3 * length entry.now.bytes.now) ≤ vec_capacity text.old }
    ensures text { text.new.items ≡ text.old.items ++ ended_line (entry_seen entry.now) }
    ensures len { vec_len text.new ≤ vec_len text.old + (70 + 3 * length entry.now.bytes.now) }
    ensures room { vec_capacity text.old ≤ vec_capacity text.new }
{
    let _ = push_line(text, line, entry);
}

impl Journal {
    /// An empty journal with room for so many entries, and for so many bytes of all of them together.
    pub fn with_room(alloc: Global, entries: usize, bytes: u32) -> Result<Self, NoMemory>
        ensures { IfOk result (λ j. j ≡ record { entries = []; room = entries; room_bytes = bytes }) }
    {
        let room = text_room(entries, bytes).ok_or(NoMemory)?;
        let text = Vec::with_capacity(alloc, room)?;
        let line = Box::new(alloc, Room::new())?;
        Ok(Journal {
            text,
            most: entries,
            room: entries,
            room_bytes: bytes,
            start: 0,
            last: None,
            line,
        })
    }

    pub fn len(&self) -> usize
        ensures { result ≡ length self.now.entries }
    {
        self.most - self.room
    }

    /// Puts an entry at the end. It takes no memory.
    pub fn push(&mut self, entry: &EntryRef<'_>)
        requires room { 0 < self.old.room }
        requires room_bytes { length entry.now.bytes.now ≤ self.old.room_bytes }
        requires few { length entry.now.bytes.now ≤ most_bytes entry.now.head }
        ensures entries { self.new.entries ≡ self.old.entries ++ entry_seen entry.now ∷ [] }
        ensures room { self.new.room + 1 ≡ self.old.room }
        ensures room_bytes { self.new.room_bytes + length entry.now.bytes.now ≡ self.old.room_bytes }
    {
        entry_is_in_range(entry.head, entry.bytes);
        let start = self.text.len();
        append(&mut self.text, &mut self.line, entry);
        self.room -= 1;
        self.room_bytes -= entry.bytes.len() as u32;
        self.start = start;
        self.last = Some(entry.head);
    }

    /// The lines of its entries.
    pub fn text(&self) -> &[u8]
        ensures { result.now ≡ flat_map ended_line self.now.entries }
    {
        self.text.as_slice()
    }

    /// The line of the last entry with its line feed, empty where there is no entry.
    pub fn last_line(&self) -> &[u8]
        ensures { result.now ≡ last_line self.now.entries }
    {
        &self.text[self.start..]
    }

    /// The last entry without its bytes, if there is one.
    pub fn last(&self) -> Option<Head>
        ensures { result ≡ option_map head_of (last_of self.now.entries) }
    {
        self.last
    }

    /// The lines of its entries, and the line that ends them in a report. It takes no memory.
    pub fn into_text(self) -> Vec<u8>
        ensures { result.items ≡ flat_map ended_line self.entries ++ codes "end\n" }
    {
        let mut text = self.text;
        let _ = text.extend_from_slice(b"end\n");
        text
    }

    /// Each field of its entries is within the range of its type.
    pub fn entries_are_in_range(&self)
        ensures { All IsEntry self.now.entries }
    {
        let _ = &self.text;
    }
}
