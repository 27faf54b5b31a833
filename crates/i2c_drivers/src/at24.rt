//! The driver of EEPROMs: reads and writes, piece by piece, each tried again while the chip doesn't acknowledge.

ghost use Rattle.std.specs.Prelude.{◌≡◌, ℕ, ◌+◌, ◌-◌, ◌*◌, ◌/◌, ◌<◌, ◌≤◌, ◌++◌, true, List, length};
ghost use Rattle.std.specs.List.{flat_map};
ghost use Rattle.bus_journal.specs.Reports.{line_ended};
ghost use Rattle.i2c_base.specs.Replies.{reply_by};
ghost use Rattle.i2c_drivers.specs.At24.{at24_dialogue, at24_repeats, failure_of, is_repeated, told_as, is_tried_again, page_reads, page_writes, place_bytes, read_pieces, read_run, tries_skipped, write_begin, write_bytes, write_end, write_pieces, eeprom_write_run};
ghost use Rattle.i2c_drivers.specs.Pages.{fits_in};
ghost use Rattle.tools.specs.At24Lines.{MOST_READ, MOST_WRITTEN};
ghost use Rattle.tools.specs.Dialogues.{MOST_PLACES, AreAlike, AreReplies, next_place};

use crate::bound::bound_eeprom;
use crate::rows::{count, push_byte_lines};
use crate::text::{MOST_OF_ERRNO, push_errno_line, push_refusal, refusal_size};
use i2c_base::{Addr, ByteStore, Errno, ReplyHead, Size, Transfer, TransferKind};
use i2c_board::Board;
use i2c_spec::{eeprom_bytes, eeprom_page, is_wide};
use std::marker::Model;
use tools::{Octets, Text, Window};

/// An EEPROM: where it stands, and its size.
#[derive(Clone, Copy)]
pub struct Eeprom {
    pub bus: u16,
    pub addr: Addr,
    pub size: Size,
}

/// A read of some bytes from a place on, which are within the size.
#[derive(Drop)]
pub struct PageRead {
    of: Eeprom,
    offset: u16,
    count: u16,
}

impl Model for PageRead {
    ghost use Rattle.i2c_drivers.specs.Pages.{PageReadView, IsPageRead};

    ghost Value = { PageReadView };

    ghost view = { λ r. record { of = r.of; offset = r.offset; count = r.count } };

    ghost invariant = { λ r. IsPageRead (record { of = r.of; offset = r.offset; count = r.count }) };
}

/// A write of 1 to 64 bytes from a place on, which are within the size.
#[derive(Drop)]
pub struct PageWrite {
    of: Eeprom,
    offset: u16,
    bytes: Octets,
}

impl Model for PageWrite {
    ghost use Rattle.i2c_drivers.specs.Pages.{PageWriteView, IsPageWrite};

    ghost Value = { PageWriteView };

    ghost view = { λ w. record { of = w.of; offset = w.offset; bytes = w.bytes } };

    ghost invariant = { λ w. IsPageWrite (record { of = w.of; offset = w.offset; bytes = w.bytes }) };
}

/// A line `at24 read` or `at24 write` as it runs.
#[derive(Drop)]
pub enum At24Run {
    /// It is refused without a transfer.
    Refused(Errno),
    Reads(PageRead),
    Writes(PageWrite),
}

// How often a piece is tried.
const TRIES: u16 = 8;

// A read has pieces of at most so many bytes.
const PIECE: u16 = 128;

// The bytes that tell a place, the high one first.
fn place_bytes(size: Size, place: u16) -> ByteStore<66>
    ensures value { result ≡ place_bytes size place }
    ensures few { length result ≤ 2 }
{
    let mut bytes = ByteStore::new();
    if is_wide(size) {
        bytes.push((place / 256) as u8);
    }
    bytes.push((place % 256) as u8);
    bytes
}

// Nobody acknowledges, and it was not the last try.
fn is_tried_again(tries: u16, errno: Errno) -> bool
    ensures { result ≡ is_tried_again tries errno }
{
    errno.number() == 6 && tries < 7
}

// So many places are passed over after the reply to a try.
fn tries_skipped(places: u16, tries: u16, head: ReplyHead) -> u16
    requires { tries < 8 }
    ensures value { (bytes : List ℕ) → result ≡ tries_skipped places tries (reply_by head bytes) }
    ensures few { result ≤ places + 7 }
{
    match head {
        ReplyHead::Done | ReplyHead::Read => 7 - tries,
        ReplyHead::Err(errno) => {
            if is_tried_again(tries, errno) {
                0
            } else {
                places
            }
        }
    }
}

// An error is told by its name, but that the last try was not acknowledged is told as ETIMEDOUT.
fn told_as(errno: Errno) -> Errno
    ensures { result ≡ told_as errno }
{
    if errno.number() == 6 {
        Errno::Etimedout
    } else {
        errno
    }
}

// Why it ended, where the last reply is an error.
fn failure(replies: &Window<'_>) -> Option<Errno>
    ensures { result ≡ failure_of replies.now }
{
    match replies.get(count(replies).saturating_sub(1)) {
        Some((ReplyHead::Err(errno), _)) => Some(told_as(errno)),
        _ => None,
    }
}

// The transfer at a place is that of the place before: it isn't the first try of a piece.
fn is_repeated(place: u16) -> bool
    ensures value { result ≡ is_repeated place }
    ensures later { result ≡ true → 0 < place }
    ensures piece { result ≡ true → (place - 1) / 8 ≡ place / 8 }
{
    place % TRIES != 0
}

impl PageRead {
    // How many pieces it has.
    fn pieces(&self) -> u16
        ensures value { result ≡ read_pieces self.now }
        ensures few { result ≤ 256 }
    {
        (self.count + 127) / PIECE
    }

    /// How many places it has.
    pub fn places(&self) -> u16
        ensures value { result ≡ (page_reads self.now).places }
        ensures few { result ≤ MOST_PLACES }
    {
        TRIES * self.pieces()
    }

    /// Puts the transfer at a place in place of another.
    pub fn put(&self, place: u16, transfer: &mut Transfer)
        requires { place < (page_reads self.now).places }
        ensures { transfer.new ≡ (page_reads self.now).at place }
    {
        let piece = place / TRIES;
        let begin = self.offset + PIECE * piece;
        let size = (self.count - PIECE * piece).min(PIECE);
        let front = place_bytes(self.of.size, begin);
        transfer.restart(self.of.bus, TransferKind::Plain, true);
        let _ = transfer.add_write(self.of.addr, front.as_slice());
        let _ = transfer.add_read(self.of.addr, size);
    }

    /// Prints the bytes that were read, or why it failed.
    #[tactic(auto, using(crate::proofs::PageLemmas::few_read, crate::proofs::PageLemmas::few_fit))]
    pub fn print(&self, replies: &Window<'_>, out: &mut Text)
        requires fit { AreReplies (page_reads self.now) 0 replies.now }
        requires room { (page_reads self.now).most ≤ out.old.room }
        ensures bytes { out.new.bytes ≡ out.old.bytes ++ flat_map line_ended ((page_reads self.now).lines replies.now) }
        ensures room { out.old.room ≤ out.new.room + (page_reads self.now).most }
    {
        let _ = &self.of;
        match failure(replies) {
            Some(errno) => push_errno_line(out, errno),
            None => push_byte_lines(out, replies),
        }
    }

    /// The most bytes that it prints.
    pub fn most(&self) -> usize
        ensures { result ≡ (page_reads self.now).most }
    {
        3 * usize::from(self.count) + MOST_OF_ERRNO
    }

    /// The place after a reply.
    pub fn behind(&self, place: u16, head: ReplyHead) -> u16
        requires { place < (page_reads self.now).places }
        ensures { (bytes : List ℕ) → result ≡ next_place (page_reads self.now) place (reply_by head bytes) }
    {
        let places = self.places();
        place + 1 + tries_skipped(places, place % TRIES, head)
    }
}

impl PageWrite {
    // How many pieces it has.
    fn pieces(&self) -> u16
        ensures value { result ≡ write_pieces self.now }
        ensures few { result ≤ 9 }
    {
        let page = u16::from(eeprom_page(self.of.size));
        let end = self.offset + self.bytes.as_slice().len() as u16;
        (end - 1) / page - self.offset / page + 1
    }

    /// How many places it has.
    pub fn places(&self) -> u16
        ensures value { result ≡ (page_writes self.now).places }
        ensures few { result ≤ MOST_PLACES }
    {
        TRIES * self.pieces()
    }

    // The bytes of a piece, after those that tell its place.
    fn bytes_of(&self, piece: u16) -> ByteStore<66>
        requires { piece < write_pieces self.now }
        ensures value { result ≡ place_bytes self.now.of.size (write_begin self.now piece) ++ write_bytes self.now piece }
        ensures few { length result ≤ 66 }
    {
        let page = u16::from(eeprom_page(self.of.size));
        let data = self.bytes.as_slice();
        let number = self.offset / page + piece;
        let begin = self.offset.max(page * number);
        let end = (self.offset + data.len() as u16).min(page * (number + 1));
        let mut bytes = place_bytes(self.of.size, begin);
        bytes.extend(&data[usize::from(begin - self.offset)..usize::from(end - self.offset)]);
        bytes
    }

    /// Puts the transfer at a place in place of another.
    pub fn put(&self, place: u16, transfer: &mut Transfer)
        requires { place < (page_writes self.now).places }
        ensures { transfer.new ≡ (page_writes self.now).at place }
    {
        let bytes = self.bytes_of(place / TRIES);
        transfer.restart(self.of.bus, TransferKind::Plain, true);
        let _ = transfer.add_write(self.of.addr, bytes.as_slice());
    }

    /// Prints that all was written, or why it failed.
    pub fn print(&self, replies: &Window<'_>, out: &mut Text)
        requires { (page_writes self.now).most ≤ out.old.room }
        ensures bytes { out.new.bytes ≡ out.old.bytes ++ flat_map line_ended ((page_writes self.now).lines replies.now) }
        ensures room { out.old.room ≤ out.new.room + (page_writes self.now).most }
    {
        match failure(replies) {
            Some(errno) => push_errno_line(out, errno),
            None => out.push(b"ok\n"),
        }
    }

    /// The place after a reply.
    pub fn behind(&self, place: u16, head: ReplyHead) -> u16
        requires { place < (page_writes self.now).places }
        ensures { (bytes : List ℕ) → result ≡ next_place (page_writes self.now) place (reply_by head bytes) }
    {
        let places = self.places();
        place + 1 + tries_skipped(places, place % TRIES, head)
    }
}

// So many bytes from a place on are within the size.
fn fits_in(size: Size, offset: u16, count: usize) -> bool
    requires { count ≤ 32768 }
    ensures { result ≡ fits_in size offset count }
{
    usize::from(offset) + count <= usize::from(eeprom_bytes(size))
}

impl At24Run {
    /// A read of some bytes from a place on. It is refused with ENODEV where no EEPROM that a driver is bound to stands
    /// there, and else with EINVAL where it passes the size.
    pub fn open_read(board: &Board, bus: u16, addr: Addr, offset: u16, count: u16) -> Self
        requires { (1 ≤ count) × (count ≤ MOST_READ) }
        ensures { result ≡ read_run board.now bus addr offset count }
    {
        match bound_eeprom(board, bus, addr) {
            None => At24Run::Refused(Errno::Enodev),
            Some(size) => {
                if fits_in(size, offset, usize::from(count)) {
                    At24Run::Reads(PageRead {
                        of: Eeprom { bus, addr, size },
                        offset,
                        count,
                    })
                } else {
                    At24Run::Refused(Errno::Einval)
                }
            }
        }
    }

    /// A write of these bytes from a place on. It is refused as a read of so many is.
    pub fn open_write(board: &Board, bus: u16, addr: Addr, offset: u16, bytes: Octets) -> Self
        requires { (1 ≤ length bytes) × (length bytes ≤ MOST_WRITTEN) }
        ensures { result ≡ eeprom_write_run board.now bus addr offset bytes }
    {
        match bound_eeprom(board, bus, addr) {
            None => At24Run::Refused(Errno::Enodev),
            Some(size) => {
                if fits_in(size, offset, bytes.as_slice().len()) {
                    At24Run::Writes(PageWrite {
                        of: Eeprom { bus, addr, size },
                        offset,
                        bytes,
                    })
                } else {
                    At24Run::Refused(Errno::Einval)
                }
            }
        }
    }

    /// How many places it has.
    pub fn places(&self) -> u16
        ensures value { result ≡ (at24_dialogue self.now).places }
        ensures few { result ≤ MOST_PLACES }
    {
        match self {
            At24Run::Refused(_) => 0,
            At24Run::Reads(read) => read.places(),
            At24Run::Writes(write) => write.places(),
        }
    }

    /// Puts the transfer at a place in place of another.
    pub fn put(&self, place: u16, transfer: &mut Transfer)
        requires { place < (at24_dialogue self.now).places }
        ensures { transfer.new ≡ (at24_dialogue self.now).at place }
    {
        match self {
            At24Run::Refused(_) => {}
            At24Run::Reads(read) => read.put(place, transfer),
            At24Run::Writes(write) => write.put(place, transfer),
        }
    }

    /// The transfer at a place is that of the place before, as it is at each try of a piece but the first.
    pub fn repeats(&self, place: u16) -> bool
        ensures value { result ≡ at24_repeats self.now place }
        ensures later { result ≡ true → 0 < place }
        ensures alike { result ≡ true → AreAlike ((at24_dialogue self.now).at (place - 1)) ((at24_dialogue self.now).at place) }
    {
        match self {
            At24Run::Refused(_) => false,
            At24Run::Reads(_) => is_repeated(place),
            At24Run::Writes(_) => is_repeated(place),
        }
    }

    /// The place after a reply, whatever bytes it brings.
    pub fn behind(&self, place: u16, head: ReplyHead) -> u16
        requires { place < (at24_dialogue self.now).places }
        ensures { (bytes : List ℕ) → result ≡ next_place (at24_dialogue self.now) place (reply_by head bytes) }
    {
        match self {
            At24Run::Refused(_) => place + 1,
            At24Run::Reads(read) => read.behind(place, head),
            At24Run::Writes(write) => write.behind(place, head),
        }
    }

    /// Prints its lines.
    pub fn print(&self, replies: Window<'_>, out: &mut Text)
        requires fit { AreReplies (at24_dialogue self.now) 0 replies }
        requires room { (at24_dialogue self.now).most ≤ out.old.room }
        ensures bytes { out.new.bytes ≡ out.old.bytes ++ flat_map line_ended ((at24_dialogue self.now).lines replies.entry) }
        ensures room { out.old.room ≤ out.new.room + (at24_dialogue self.now).most }
    {
        match self {
            At24Run::Refused(errno) => push_refusal(out, *errno),
            At24Run::Reads(read) => read.print(&replies, out),
            At24Run::Writes(write) => write.print(&replies, out),
        }
    }

    /// The most bytes that it prints.
    pub fn most(&self) -> usize
        ensures { result ≡ (at24_dialogue self.now).most }
    {
        match self {
            At24Run::Refused(errno) => refusal_size(*errno),
            At24Run::Reads(read) => read.most(),
            At24Run::Writes(_) => MOST_OF_ERRNO,
        }
    }
}
