//! An entry of the journal as its line of text.
ghost use Rattle.std.specs.Prelude.{◌≡◌, true, ◌+◌, ◌*◌, ◌<◌, ◌≤◌, [], ◌++◌, length, Some, OnOk, OnErr, IfOk, codes, vec_len, vec_capacity};
ghost use Rattle.std.specs.Fmt.{decimal};
ghost use Rattle.i2c_base.specs.Replies.{reply_by};
ghost use Rattle.i2c_base.specs.declared.ids.Node.TheVariants.{Device};
ghost use Rattle.i2c_base.specs.declared.entry.End.TheVariants as end_of;
ghost use Rattle.i2c_base.specs.declared.entry.Purpose.TheVariants.{Call};
ghost use Rattle.bus_spec.specs.Lines.{two_digits, spaced, joined, lock_text, purpose_text, direction_text, heard_text, end_text, errno_text, reply_text, cut_text, data_text, part_text, place_text, result_text, level_text, entry_line};
ghost use Rattle.bus_spec.specs.Report.{ended_line};
ghost use Rattle.bus_journal.specs.Borrowed.{entry_seen};
ghost use Rattle.bus_journal.specs.Ranges.{IsEntry};

use crate::borrowed::{EntryRef, Head};
use crate::pieces::{Room, put, put_hex, put_number, put_numbered, put_small, put_spaced};
use crate::ranges::entry_is_in_range;
use crate::text::hex_digit;
use i2c_base::{
    Addr, Cut, End, Entry, Errno, LockId, MuxId, NoMemory, Node, Purpose, ReplyHead, SegId,
};
use std::alloc::Global;

/// The name of an error, as Linux's fault-codes has it.
pub fn errno_name<'a>(errno: Errno) -> &'a [u8]
    ensures name { result.now ≡ errno_text errno }
    ensures short { length result.now ≤ 10 }
{
    match errno {
        Errno::Eio => b"EIO",
        Errno::Enxio => b"ENXIO",
        Errno::Ebadf => b"EBADF",
        Errno::Ebusy => b"EBUSY",
        Errno::Enodev => b"ENODEV",
        Errno::Einval => b"EINVAL",
        Errno::Eproto => b"EPROTO",
        Errno::Ebadmsg => b"EBADMSG",
        Errno::Eopnotsupp => b"EOPNOTSUPP",
        Errno::Etimedout => b"ETIMEDOUT",
        Errno::Eremoteio => b"EREMOTEIO",
    }
}

// A word, a caller and a lock. Most numbers have one digit, and then no length has to be looked at on the way.
#[inline(always)]
#[tactic(auto, using(std::proofs::lemmas::Fmt::decimal_digit))]
fn put_held(room: &mut Room, word: [u8; 5], caller: u8, lock: [u8; 9], number: u16)
    requires { length room.old + 22 ≤ 512 }
    ensures text { room.new ≡ room.old ++ (word ++ (decimal caller ++ (lock ++ decimal number))) }
    ensures short { length room.new ≤ length room.old + 22 }
{
    if caller < 10 && number < 10 {
        put(room, word);
        room.push(b'0' + caller);
        put(room, lock);
        room.push(b'0' + number as u8);
    } else {
        put_front(room, &word, caller);
        put_numbered(room, lock, number);
    }
}

// .. whichever lock it is.
#[inline(always)]
fn put_lock_line(room: &mut Room, word: [u8; 5], caller: u8, lock: LockId)
    requires { length room.old + 22 ≤ 512 }
    ensures text { room.new ≡ room.old ++ (word ++ (decimal caller ++ (codes " " ++ lock_text lock))) }
    ensures short { length room.new ≤ length room.old + 22 }
{
    match lock {
        LockId::Bus(root) => put_held(room, word, caller, *b" buslock ", root.0),
        LockId::Mux(bus) => put_held(room, word, caller, *b" muxlock ", bus.0),
    }
}

// A purpose and a space.
#[inline(always)]
fn put_purpose(room: &mut Room, purpose: Purpose)
    requires { length room.old + 10 ≤ 512 }
    ensures text { room.new ≡ room.old ++ (purpose_text purpose ++ codes " ") }
    ensures short { length room.new ≤ length room.old + 10 }
{
    match purpose {
        Purpose::Call => put(room, *b"call "),
        Purpose::Control(mux) => {
            put_numbered(room, *b"mux ", mux.0);
            put(room, *b" ");
        }
    }
}

// A direction, an address, and the bracket before the bytes.
#[inline(always)]
fn put_address(room: &mut Room, addr: Addr, reading: bool)
    requires { length room.old + 8 ≤ 512 }
    ensures text { room.new ≡ room.old ++ (direction_text reading ++ (codes " 0x" ++ (two_digits addr ++ codes " ["))) }
    ensures short { length room.new ≤ length room.old + 8 }
{
    let way = if reading { b'r' } else { b'w' };
    let address = addr.get();
    let (high, low) = (hex_digit(address / 16), hex_digit(address % 16));
    room.extend(&[way, b' ', b'0', b'x', high, low, b' ', b'[']);
}

// A space, and how a message ended.
#[inline(always)]
fn put_end(room: &mut Room, end: End)
    requires { length room.old + 10 ≤ 512 }
    ensures text { room.new ≡ room.old ++ (codes " " ++ end_text end) }
    ensures short { length room.new ≤ length room.old + 10 }
{
    match end {
        End::Ok => put(room, *b" ok"),
        End::Nack => put(room, *b" nack"),
        End::Slow => put(room, *b" slow"),
        End::Refused => put(room, *b" refused"),
        End::Proto => put(room, *b" proto"),
        End::Cut(calls) => put_numbered(room, *b" cut ", calls),
    }
}

#[inline(always)]
fn put_cut(room: &mut Room, cut: Cut)
    requires { length room.old + 14 ≤ 512 }
    ensures text { room.new ≡ room.old ++ cut_text cut }
    ensures short { length room.new ≤ length room.old + 14 }
{
    match cut {
        Cut::No => {}
        Cut::Way => put(room, *b" cut way"),
        Cut::At { msg, call } => {
            put(room, *b" cut ");
            put_small(room, msg);
            put(room, *b".");
            put_number(room, call);
        }
    }
}

// The front of an entry's line: its word and its caller.
#[inline(always)]
fn put_front(room: &mut Room, word: &[u8], caller: u8)
    requires { length room.old + (length word.now + 3) ≤ 512 }
    ensures text { room.new ≡ room.old ++ (word.now ++ decimal caller) }
    ensures short { length room.new ≤ length room.old + (length word.now + 3) }
{
    room.extend(word);
    put_small(room, caller);
}

// The front of a message's line.
#[inline(always)]
fn put_place(room: &mut Room, caller: u8, bus: SegId)
    requires { length room.old + 18 ≤ 512 }
    ensures text { room.new ≡ room.old ++ place_text caller bus }
    ensures short { length room.new ≤ length room.old + 18 }
{
    put_front(room, b"msg ", caller);
    put_numbered(room, *b" bus ", bus.0);
    put(room, *b" ");
}

// Which message of how many, and a space.
#[inline(always)]
#[tactic(auto, using(std::proofs::lemmas::Fmt::decimal_digit))]
fn put_part_number(room: &mut Room, part: u8, parts: u8)
    requires { length room.old + 8 ≤ 512 }
    ensures text { room.new ≡ room.old ++ (decimal part ++ (codes "/" ++ (decimal parts ++ codes " "))) }
    ensures short { length room.new ≤ length room.old + 8 }
{
    if part < 10 && parts < 10 {
        room.extend(&[b'0' + part, b'/', b'0' + parts, b' ']);
    } else {
        put_small(room, part);
        put(room, *b"/");
        put_small(room, parts);
        put(room, *b" ");
    }
}

// Which message of how many, and why it is sent.
#[inline(always)]
fn put_part(room: &mut Room, purpose: Purpose, part: u8, parts: u8)
    requires { length room.old + 18 ≤ 512 }
    ensures text { room.new ≡ room.old ++ part_text purpose part parts }
    ensures short { length room.new ≤ length room.old + 18 }
{
    put_purpose(room, purpose);
    put_part_number(room, part, parts);
}

// The same of a caller's own message, where each number has one digit: most have.
#[inline(always)]
#[tactic(auto, using(std::proofs::lemmas::Fmt::decimal_digit))]
fn put_short_front(room: &mut Room, caller: u8, bus: u16, part: u8, parts: u8)
    requires room { length room.old + 21 ≤ 512 }
    requires digits { (caller < 10) × (bus < 10) × (part < 10) × (parts < 10) }
    ensures text { room.new ≡ room.old ++ (place_text caller bus ++ part_text Call part parts) }
    ensures short { length room.new ≡ length room.old + 21 }
{
    room.extend(&[
        b'm',
        b's',
        b'g',
        b' ',
        b'0' + caller,
        b' ',
        b'b',
        b'u',
        b's',
        b' ',
        b'0' + bus as u8,
        b' ',
        b'c',
        b'a',
        b'l',
        b'l',
        b' ',
        b'0' + part,
        b'/',
        b'0' + parts,
        b' ',
    ]);
}

// The front of a message's line, up to its direction.
#[inline(always)]
fn put_message_front(room: &mut Room, caller: u8, bus: SegId, purpose: Purpose, part: u8, parts: u8)
    requires { length room.old + 36 ≤ 512 }
    ensures text { room.new ≡ room.old ++ (place_text caller bus ++ part_text purpose part parts) }
    ensures short { length room.new ≤ length room.old + 36 }
{
    match purpose {
        Purpose::Call => {
            if caller < 10 && bus.0 < 10 && part < 10 && parts < 10 {
                put_short_front(room, caller, bus.0, part, parts);
                return;
            }
        }
        Purpose::Control(_) => {}
    }
    put_place(room, caller, bus);
    put_part(room, purpose, part, parts);
}

// It ended well.
#[inline(always)]
fn is_ok(end: End) -> bool
    ensures { result ≡ true → end ≡ end_of.Ok }
{
    matches!(end, End::Ok)
}

// A device heard a message, which ended so. Most have one digit, and most end well.
#[inline(always)]
#[tactic(auto, using(std::proofs::lemmas::Fmt::decimal_digit))]
fn put_device_result(room: &mut Room, device: u16, end: End)
    requires { length room.old + 22 ≤ 512 }
    ensures text { room.new ≡ room.old ++ result_text (Some (Device device)) end }
    ensures short { length room.new ≤ length room.old + 22 }
{
    if device < 10 && is_ok(end) {
        put(room, *b"heard d");
        room.push(b'0' + device as u8);
        put(room, *b" ok");
    } else {
        put_numbered(room, *b"heard d", device);
        put_end(room, end);
    }
}

// Who heard a message, and how it ended.
#[inline(always)]
fn put_result(room: &mut Room, heard: Option<Node>, end: End)
    requires { length room.old + 22 ≤ 512 }
    ensures text { room.new ≡ room.old ++ result_text heard end }
    ensures short { length room.new ≤ length room.old + 22 }
{
    match heard {
        None => {
            put(room, *b"heard none");
            put_end(room, end);
        }
        Some(node) => match node {
            Node::Device(device) => put_device_result(room, device.0, end),
            Node::Chip(mux) => {
                put_numbered(room, *b"heard m", mux.0);
                put_end(room, end);
            }
        },
    }
}

#[inline(always)]
fn put_level(room: &mut Room, mux: MuxId, level: u8, failed: bool)
    requires { length room.old + 19 ≤ 512 }
    ensures text { room.new ≡ room.old ++ level_text mux level failed }
    ensures short { length room.new ≤ length room.old + 19 }
{
    put_number(room, mux.0);
    put(room, *b" level ");
    put_small(room, level);
    room.extend(if failed { b" cut" } else { b" ok" });
}

// Puts what is in the room after the text, and empties the room.
#[inline(always)]
fn flush(out: &mut Vec<u8>, room: &mut Room) -> Result<(), NoMemory>
    ensures text { OnOk result ((out.new.items ≡ out.old.items ++ room.old) × (room.new ≡ [])) }
    ensures len { OnOk result (vec_len out.new ≡ vec_len out.old + length room.old) }
    ensures full { OnErr result (vec_capacity out.old < vec_len out.old + length room.old) }
    ensures room { vec_capacity out.old ≤ vec_capacity out.new }
{
    out.extend_from_slice(room.as_slice())?;
    room.clear();
    Ok(())
}

/// So many bytes are put into the room at once.
const MANY: usize = 128;

// Bytes with a space before each, after what is in the room. The text gets the front of it where the bytes are many.
fn push_spaced(out: &mut Vec<u8>, room: &mut Room, bytes: &[u8]) -> Result<(), NoMemory>
    requires { length room.old ≤ 46 }
    ensures text { OnOk result (out.new.items ++ room.new ≡ out.old.items ++ (room.old ++ spaced bytes.now)) }
    ensures short { OnOk result (length room.new ≤ 430) }
    ensures len { OnOk result (vec_len out.new + length room.new ≡ vec_len out.old + (length room.old + 3 * length bytes.now)) }
    ensures full { OnErr result (vec_capacity out.old < vec_len out.old + (length room.old + 3 * length bytes.now)) }
    ensures room { vec_capacity out.old ≤ vec_capacity out.new }
{
    if bytes.len() <= MANY {
        put_spaced(room, bytes);
        return Ok(());
    }
    let (front, rest) = bytes.split_at(MANY);
    put_spaced(room, front);
    flush(out, room)?;
    push_spaced(out, room, rest)
}

// .. with a space between each two.
#[inline(always)]
fn push_joined(out: &mut Vec<u8>, room: &mut Room, bytes: &[u8]) -> Result<(), NoMemory>
    requires { length room.old ≤ 44 }
    ensures text { OnOk result (out.new.items ++ room.new ≡ out.old.items ++ (room.old ++ joined bytes.now)) }
    ensures short { OnOk result (length room.new ≤ 430) }
    ensures len { OnOk result (vec_len out.new + length room.new ≤ vec_len out.old + (length room.old + 3 * length bytes.now)) }
    ensures full { OnErr result (vec_capacity out.old < vec_len out.old + (length room.old + 3 * length bytes.now)) }
    ensures room { vec_capacity out.old ≤ vec_capacity out.new }
{
    match bytes.split_first() {
        None => Ok(()),
        Some((first, rest)) => {
            put_hex(room, *first);
            // Most messages have few bytes, and a call costs more than these.
            if rest.len() <= MANY {
                put_spaced(room, rest);
                return Ok(());
            }
            push_spaced(out, room, rest)
        }
    }
}

// The direction, the address and the bytes of a message.
#[inline(always)]
fn push_data(
    out: &mut Vec<u8>,
    room: &mut Room,
    addr: Addr,
    reading: bool,
    bytes: &[u8],
) -> Result<(), NoMemory>
    requires { length room.old ≤ 36 }
    ensures text { OnOk result (out.new.items ++ room.new ≡ out.old.items ++ (room.old ++ data_text addr reading bytes.now)) }
    ensures short { OnOk result (length room.new ≤ 432) }
    ensures len { OnOk result (vec_len out.new + length room.new ≤ vec_len out.old + (length room.old + (10 + 3 * length bytes.now))) }
    ensures full { OnErr result (vec_capacity out.old < vec_len out.old + (length room.old + (10 + 3 * length bytes.now))) }
    ensures room { vec_capacity out.old ≤ vec_capacity out.new }
{
    put_address(room, addr, reading);
    push_joined(out, room, bytes)?;
    put(room, *b"] ");
    Ok(())
}

// A space and a reply.
#[inline(always)]
fn push_reply(
    out: &mut Vec<u8>,
    room: &mut Room,
    answer: ReplyHead,
    bytes: &[u8],
) -> Result<(), NoMemory>
    requires { length room.old ≤ 36 }
    ensures text { OnOk result (out.new.items ++ room.new ≡ out.old.items ++ (room.old ++ (codes " " ++ reply_text (reply_by answer bytes.now)))) }
    ensures short { OnOk result (length room.new ≤ 432) }
    ensures len { OnOk result (vec_len out.new + length room.new ≤ vec_len out.old + (length room.old + (11 + 3 * length bytes.now))) }
    ensures full { OnErr result (vec_capacity out.old < vec_len out.old + (length room.old + (11 + 3 * length bytes.now))) }
    ensures room { vec_capacity out.old ≤ vec_capacity out.new }
{
    match answer {
        ReplyHead::Done => {
            put(room, *b" done");
            Ok(())
        }
        ReplyHead::Read => {
            put(room, *b" read");
            if bytes.len() <= MANY {
                put_spaced(room, bytes);
                return Ok(());
            }
            push_spaced(out, room, bytes)
        }
        ReplyHead::Err(errno) => {
            put(room, *b" ");
            room.extend(errno_name(errno));
            Ok(())
        }
    }
}

/// Puts the line of an entry, without its line feed, after a text: the end of it into the room, which was empty.
#[inline(always)]
pub fn put_entry(out: &mut Vec<u8>, room: &mut Room, entry: &EntryRef<'_>) -> Result<(), NoMemory>
    requires { room.old ≡ [] }
    ensures text { OnOk result (out.new.items ++ room.new ≡ out.old.items ++ entry_line (entry_seen entry.now)) }
    ensures short { OnOk result (length room.new ≤ 500) }
    ensures len { OnOk result (vec_len out.new + length room.new ≤ vec_len out.old + (69 + 3 * length entry.now.bytes.now)) }
    ensures full { OnErr result (vec_capacity out.old < vec_len out.old + (69 + 3 * length entry.now.bytes.now)) }
    ensures room { vec_capacity out.old ≤ vec_capacity out.new }
{
    let bytes = entry.bytes;
    match entry.head {
        Head::Take { caller, lock } => {
            put_lock_line(room, *b"take ", caller, lock);
        }
        Head::Free { caller, lock } => {
            put_lock_line(room, *b"free ", caller, lock);
        }
        Head::Message {
            caller,
            bus,
            purpose,
            part,
            parts,
            addr,
            reading,
            heard,
            end,
        } => {
            put_message_front(room, caller, bus, purpose, part, parts);
            push_data(out, room, addr, reading, bytes)?;
            put_result(room, heard, end);
        }
        Head::Line {
            caller,
            mux,
            level,
            failed,
        } => {
            put_front(room, b"line ", caller);
            put(room, *b" mux ");
            put_level(room, mux, level, failed);
        }
        Head::Settle {
            caller,
            answer,
            cut,
        } => {
            put_front(room, b"settle ", caller);
            push_reply(out, room, answer, bytes)?;
            put_cut(room, cut);
        }
    }
    Ok(())
}

/// Puts the line of an entry at the end of a text, with its line feed. What was in the room is lost.
pub fn push_line(out: &mut Vec<u8>, room: &mut Room, entry: &EntryRef<'_>) -> Result<(), NoMemory>
    ensures text { OnOk result (out.new.items ≡ out.old.items ++ ended_line (entry_seen entry.now)) }
    ensures len { OnOk result (vec_len out.new ≤ vec_len out.old + (70 + 3 * length entry.now.bytes.now)) }
    ensures full { OnErr result (vec_capacity out.old < vec_len out.old + (70 + 3 * length entry.now.bytes.now)) }
    ensures room { vec_capacity out.old ≤ vec_capacity out.new }
{
    room.clear();
    put_entry(out, room, entry)?;
    room.push(b'\n');
    flush(out, room)
}

// The line of an entry at the end of a text, without its line feed.
fn push_entry(out: &mut Vec<u8>, entry: &EntryRef<'_>) -> Result<(), NoMemory>
    ensures { OnOk result (out.new.items ≡ out.old.items ++ entry_line (entry_seen entry.now)) }
{
    let mut room = Room::new();
    put_entry(out, &mut room, entry)?;
    flush(out, &mut room)
}

/// The line of an entry in the journal's text, without its line feed. It fails only when out of memory.
pub fn entry_text(alloc: Global, entry: &Entry) -> Result<Vec<u8>, NoMemory>
    ensures text { IfOk result (λ text. text.items ≡ entry_line entry.now) }
    ensures in_range { IsEntry entry.now }
{
    let seen = EntryRef::new(entry);
    entry_is_in_range(seen.head, seen.bytes);
    let mut out = Vec::new(alloc);
    push_entry(&mut out, &seen)?;
    Ok(out)
}
