//! A scan: the addresses of a bus are probed, one after the other, and a table tells who answers.

ghost use Rattle.std.specs.Prelude.{◌≡◌, ℕ, List, ◌+◌, ◌*◌, ◌<◌, ◌≤◌, ◌++◌, slice_get, if◌then◌else◌};
ghost use Rattle.std.specs.List.{flat_map, list_any};
ghost use Rattle.bus_journal.specs.Reports.{line_ended};
ghost use Rattle.i2c_base.specs.Replies.{reply_by};
ghost use Rattle.smb_emul.specs.Calls.{HasBlock, messages_of_call};
ghost use Rattle.tools.specs.Scans.{first_probed, last_probed, probes, is_probed, is_received, probe_op, probe_call, is_no_bus, error_cell, answer_cell, scan_cell, scan_row, scan_table, scans};
ghost use Rattle.tools.specs.Tables.{parts, in_row};

use crate::command::{Detect, Probe};
use crate::replies::Window;
use crate::run::table::{push_digits_cell, push_row_front};
use crate::text::Text;
use crate::value::push_errno;
use i2c_base::{Addr, Errno, ReplyHead, Transfer};
use smb_emul::{SmbCall, SmbOp, put_messages};

/// The most bytes of its table: nine lines, of which each has at most 52 with its end.
pub const MOST_SCANNED: usize = 9 * 52;

// A byte is received from this address, and elsewhere a quick write is sent.
fn is_received(addr: u8) -> bool
    ensures { result ≡ is_received addr }
{
    (0x30 <= addr && addr <= 0x37) || (0x50 <= addr && addr <= 0x5f)
}

// The bus isn't there.
fn is_absent(head: ReplyHead) -> bool
    ensures { (bytes : List ℕ) → result ≡ is_no_bus (reply_by head bytes) }
{
    match head {
        ReplyHead::Err(errno) => errno.number() == 19,
        _ => false,
    }
}

// A reply says that the bus isn't there.
fn any_absent(replies: &Window<'_>) -> bool
    ensures { result ≡ list_any is_no_bus replies.now }
{
    for place in 0..replies.len() {
        match replies.get(place) {
            Some((head, _)) => {
                if is_absent(head) {
                    return true;
                }
            }
            None => return false,
        }
    }
    false
}

impl Detect {
    // The first address that it probes.
    fn first_probed(&self) -> u8
        ensures value { result ≡ first_probed self.now }
        ensures low { 8 ≤ result }
    {
        self.first.max(Addr::FIRST)
    }

    // The last.
    fn last_probed(&self) -> u8
        ensures value { result ≡ last_probed self.now }
        ensures high { result ≤ 119 }
    {
        self.last.min(Addr::LAST)
    }

    // It probes this address.
    fn is_probed(&self, addr: u8) -> bool
        ensures { result ≡ is_probed self.now addr }
    {
        self.first_probed() <= addr && addr <= self.last_probed()
    }

    /// How many addresses it probes: at most those that a target may have.
    pub fn probes(&self) -> u16
        ensures value { result ≡ probes self.now }
        ensures few { result ≤ 112 }
    {
        u16::from((self.last_probed() + 1).saturating_sub(self.first_probed()))
    }

    // What the call to an address does.
    fn op_at(&self, addr: u8) -> SmbOp<'static>
        ensures value { result ≡ probe_op self.now.probe addr }
        ensures block { HasBlock result }
    {
        match self.probe {
            Probe::ByAddress => {
                if is_received(addr) {
                    SmbOp::ReceiveByte
                } else {
                    SmbOp::Quick
                }
            }
            Probe::Quick => SmbOp::Quick,
            Probe::Receive => SmbOp::ReceiveByte,
        }
    }

    /// Puts the transfer at a place in place of another.
    pub fn put(&self, place: u16, transfer: &mut Transfer)
        requires { place < probes self.now }
        ensures { transfer.new ≡ messages_of_call (probe_call self.now (first_probed self.now + place)) }
    {
        let number = self.first_probed() + place as u8;
        if let Some(addr) = Addr::new(number) {
            let call = SmbCall {
                bus: self.bus,
                addr,
                force: false,
                pec: false,
                op: self.op_at(number),
            };
            put_messages(&call, transfer);
        }
    }

    /// So many places are passed over after a reply: none, and all where the bus isn't there.
    pub fn skips(&self, head: ReplyHead) -> u16
        ensures value { (bytes : List ℕ) → result ≡ (if is_no_bus (reply_by head bytes) then probes self.now else 0) }
        ensures few { result ≤ 112 }
    {
        if is_absent(head) { self.probes() } else { 0 }
    }

    /// Prints the table of the replies, or that the bus isn't there.
    pub fn print(&self, replies: Window<'_>, out: &mut Text)
        requires { (scans self.now).most ≤ out.old.room }
        ensures bytes { out.new.bytes ≡ out.old.bytes ++ flat_map line_ended ((scans self.now).lines replies.entry) }
        ensures room { out.old.room ≤ out.new.room + (scans self.now).most }
    {
        if any_absent(&replies) {
            push_errno(out, Errno::Enodev);
            out.push_byte(b'\n');
        } else {
            push_table(out, &replies, self);
        }
    }
}

// Prints the cell of an error.
fn push_error_cell(out: &mut Text, errno: Errno)
    requires { 3 ≤ out.old.room }
    ensures bytes { out.new.bytes ≡ out.old.bytes ++ error_cell errno }
    ensures room { out.old.room ≤ out.new.room + 3 }
{
    if errno.number() == 16 {
        out.push(b" UU");
    } else {
        out.push(b" --");
    }
}

// Prints the cell of the reply at a place, which is that of this address.
fn push_answer_cell(out: &mut Text, replies: &Window<'_>, place: u8, addr: u8)
    requires { 3 ≤ out.old.room }
    ensures bytes { out.new.bytes ≡ out.old.bytes ++ answer_cell addr (slice_get replies.now place) }
    ensures room { out.old.room ≤ out.new.room + 3 }
{
    match replies.get(usize::from(place)) {
        None => out.push(b" --"),
        Some((ReplyHead::Done, _)) => push_digits_cell(out, addr),
        Some((ReplyHead::Read, _)) => push_digits_cell(out, addr),
        Some((ReplyHead::Err(errno), _)) => push_error_cell(out, errno),
    }
}

// Prints the cell of an address.
fn push_cell(out: &mut Text, replies: &Window<'_>, detect: &Detect, addr: u8)
    requires { 3 ≤ out.old.room }
    ensures bytes { out.new.bytes ≡ out.old.bytes ++ scan_cell detect.now replies.now addr }
    ensures room { out.old.room ≤ out.new.room + 3 }
{
    if detect.is_probed(addr) {
        push_answer_cell(out, replies, addr - detect.first_probed(), addr);
    } else {
        out.push(b"   ");
    }
}

// Prints the cells of a row.
#[tactic(auto, using(crate::proofs::TableLemmas::part_steps))]
fn push_cells(out: &mut Text, replies: &Window<'_>, detect: &Detect, row: u8)
    requires row { row ≤ 112 }
    requires room { 48 ≤ out.old.room }
    ensures bytes { out.new.bytes ≡ out.old.bytes ++ parts (in_row (scan_cell detect.now replies.now) row) 16 }
    ensures room { out.old.room ≤ out.new.room + 48 }
{
    for column in 0..16u8 {
        push_cell(out, replies, detect, row + column);
    }
}

// Prints a row.
fn push_row(out: &mut Text, replies: &Window<'_>, detect: &Detect, row: u8)
    requires row { row ≤ 112 }
    requires room { 52 ≤ out.old.room }
    ensures bytes { out.new.bytes ≡ out.old.bytes ++ line_ended (scan_row detect.now replies.now row) }
    ensures room { out.old.room ≤ out.new.room + 52 }
{
    push_row_front(out, row);
    push_cells(out, replies, detect, row);
    out.trim();
    out.push_byte(b'\n');
}

// Prints the table.
fn push_table(out: &mut Text, replies: &Window<'_>, detect: &Detect)
    requires { 9 * 52 ≤ out.old.room }
    ensures bytes { out.new.bytes ≡ out.old.bytes ++ flat_map line_ended (scan_table detect.now replies.now) }
    ensures room { out.old.room ≤ out.new.room + 9 * 52 }
{
    out.push(b"     0  1  2  3  4  5  6  7  8  9  a  b  c  d  e  f\n");
    for row in 0..8u8 {
        push_row(out, replies, detect, 16 * row);
    }
}
