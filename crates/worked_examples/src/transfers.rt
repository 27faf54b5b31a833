//! Transfers in the flat world, and their replies.

use case_parts::{Page, addr, byte, parted};
use flat_world::Flat;
use i2c_base::{Addr, ByteList, Cut, MOST_LENGTH, Reply, Transfer, TransferKind};
use i2c_board::Accepted;
use std::alloc::Global;

/// Does transfers with a semicolon between them, one after the other, on the devices of a board as they are opened, and
/// puts each reply. How a transfer is written stands at `read_transfer`.
pub fn answer_all(page: &mut Page, alloc: Global, board: &Accepted, transfers: &str) {
    match Flat::open(alloc, board) {
        Ok(mut flat) => answer_each(page, &mut flat, transfers),
        Err(_) => page.require(false),
    }
}

fn answer_each(page: &mut Page, flat: &mut Flat<'_>, transfers: &str) {
    for text in transfers.split(';') {
        page.put(" ");
        answer(page, flat, text);
    }
}

// Does a transfer, and puts its reply.
fn answer(page: &mut Page, flat: &mut Flat<'_>, text: &str) {
    let mut transfer = Transfer::new(0, TransferKind::Plain, false);
    match read_transfer(&mut transfer, text) {
        Some(cut) => put_reply(page, &flat.apply(&transfer, cut)),
        None => page.put("no transfer"),
    }
}

// Reads a plain transfer, and where it is cut off. It is written as its bus, then `@way` where it is cut off on the way,
// or `@M.C` where it is in message M after C calls; then its messages. `wADDR=BYTES` writes bytes, in hexadecimal digits
// as the address, `rADDR` reads one byte, and `cADDR` is a counted read.
fn read_transfer(transfer: &mut Transfer, text: &str) -> Option<Cut> {
    let mut words = text.split_whitespace();
    let (bus, cut) = front_of(words.next()?)?;
    transfer.restart(bus, TransferKind::Plain, false);
    for word in words {
        add(transfer, word)?;
    }
    Some(cut)
}

fn front_of(front: &str) -> Option<(u16, Cut)> {
    let (bus, place) = parted(front, '@');
    Some((bus.parse().ok()?, cut_of(place)?))
}

// The place of a cut, none where it is empty.
fn cut_of(place: &str) -> Option<Cut> {
    match place {
        "" => Some(Cut::No),
        "way" => Some(Cut::Way),
        _ => cut_in(place),
    }
}

// The place of a cut in a message.
fn cut_in(place: &str) -> Option<Cut> {
    let (msg, call) = parted(place, '.');
    Some(Cut::At {
        msg: msg.parse().ok()?,
        call: call.parse().ok()?,
    })
}

// Adds the message of a word.
fn add(transfer: &mut Transfer, word: &str) -> Option<()> {
    let (message, digits) = parted(word, '=');
    match message.strip_prefix('w') {
        Some(to) => add_write(transfer, addr(to)?, digits),
        None => add_read(transfer, message),
    }
}

fn add_read(transfer: &mut Transfer, message: &str) -> Option<()> {
    match message.strip_prefix('r') {
        Some(from) => transfer.add_read(addr(from)?, 1).ok(),
        None => transfer
            .add_counted(addr(message.strip_prefix('c')?)?, false)
            .ok(),
    }
}

// The byte that two digits spell.
fn spelt(digits: &[u8]) -> Option<u8> {
    byte(str::from_utf8(digits).ok()?)
}

// Adds a write of the bytes that these digits spell, two a byte.
fn add_write(transfer: &mut Transfer, to: Addr, digits: &str) -> Option<()> {
    let mut bytes = ByteList::new();
    for pair in digits.as_bytes().chunks(2) {
        if bytes.as_slice().len() == MOST_LENGTH {
            return None;
        }
        bytes.push(spelt(pair)?);
    }
    transfer.add_write(to, bytes.as_slice()).ok()
}

// A reply: the bytes that were read, `done`, or the error.
fn put_reply(page: &mut Page, reply: &Reply) {
    match reply {
        Reply::Done => page.put("done"),
        Reply::Read(bytes) => put_bytes(page, bytes.as_slice()),
        Reply::Err(errno) => page.put_debug(errno),
    }
}

fn put_bytes(page: &mut Page, bytes: &[u8]) {
    for byte in bytes {
        page.put_byte(*byte);
    }
}
