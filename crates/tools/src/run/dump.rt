//! Registers read one after the other, and printed as a table.

ghost use Rattle.std.specs.Prelude.{◌≡◌, ℕ, true, List, [], ◌∷◌, ◌+◌, ◌-◌, ◌*◌, ◌/◌, ◌<◌, ◌≤◌, ◌==◌, ◌&&◌, ◌++◌, slice_get, if◌then◌else◌};
ghost use Rattle.std.specs.List.{flat_map};
ghost use Rattle.std.specs.Option.{option_map};
ghost use Rattle.bus_journal.specs.Reports.{line_ended};
ghost use Rattle.i2c_base.specs.Replies.{reply_by};
ghost use Rattle.i2c_base.specs.declared.reply.Reply.TheVariants.{Err as Failed};
ghost use Rattle.smb_emul.specs.Calls.{HasBlock, messages_of_call, value_of_call};
ghost use Rattle.smb_emul.specs.Value.{outcome_seen};
ghost use Rattle.tools.specs.Dialogues.{AreAlike, AreReplies, next_place};
ghost use Rattle.tools.specs.DumpTables.{dump_places, dump_op, dump_call, is_refusal, is_end, place_of, register_read, byte_cell, byte_sign, dump_cell, dump_sign, byte_row, byte_table, word_cell, dump_word, word_row, word_table, rows, dumps};
ghost use Rattle.tools.specs.Tables.{parts, in_row};
ghost use Rattle.tools.specs.declared.command.dump.DumpMode.TheVariants as mode;

use crate::command::{Dump, DumpMode};
use crate::replies::Window;
use crate::run::call::Callee;
use crate::run::table::{push_digits_cell, push_row_front};
use crate::text::Text;
use crate::value::push_errno;
use bus_journal::hex_digit;
use i2c_base::{Errno, ReplyHead, Transfer};
use smb_emul::{SmbFail, SmbOp, SmbValue, put_messages, value_read};

/// How many places it has: a call for each register, one more where the number of the first is sent before, and eight of blocks.
pub fn places(dump: &Dump) -> u16
    ensures value { result ≡ dump_places dump.now.mode dump.now.first dump.now.last }
    ensures few { result ≤ 257 }
{
    let further = u16::from(dump.last.saturating_sub(dump.first));
    match dump.mode {
        DumpMode::Byte => further + 1,
        DumpMode::Word => further + 1,
        DumpMode::Receive => further + 2,
        DumpMode::I2cBlock => 8,
    }
}

// To whom its calls go.
fn callee(dump: &Dump) -> Callee
    ensures { result ≡ record { bus = dump.now.bus; addr = dump.now.addr; force = dump.now.force; pec = dump.now.pec } }
{
    Callee {
        bus: dump.bus,
        addr: dump.addr,
        force: dump.force,
        pec: dump.pec,
    }
}

// What the call at a place does.
fn op_at(dump: &Dump, place: u16) -> SmbOp<'static>
    requires { place < dump_places dump.now.mode dump.now.first dump.now.last }
    ensures value { result ≡ dump_op dump.now.mode dump.now.first place }
    ensures block { HasBlock result }
{
    match dump.mode {
        DumpMode::Byte => SmbOp::ReadByte(dump.first + place as u8),
        DumpMode::Word => SmbOp::ReadWord(dump.first + place as u8),
        DumpMode::Receive => {
            if place == 0 {
                SmbOp::SendByte(dump.first)
            } else {
                SmbOp::ReceiveByte
            }
        }
        DumpMode::I2cBlock => SmbOp::I2cBlockRead(32 * place as u8, 32),
    }
}

/// Puts the transfer at a place in place of another.
pub fn put(dump: &Dump, place: u16, transfer: &mut Transfer)
    requires { place < dump_places dump.now.mode dump.now.first dump.now.last }
    ensures { transfer.new ≡ messages_of_call (dump_call dump.now place) }
{
    let op = op_at(dump, place);
    let call = callee(dump).call(op);
    put_messages(&call, transfer);
}

/// Its call at a place asks for the same messages as the one before, but for the number of the register.
pub fn repeats(dump: &Dump, place: u16) -> bool
    ensures later { result ≡ true → 0 < place }
    ensures alike { result ≡ true → AreAlike (messages_of_call (dump_call dump.now (place - 1))) (messages_of_call (dump_call dump.now place)) }
{
    match dump.mode {
        DumpMode::Byte => place > 0,
        DumpMode::Word => place > 0,
        DumpMode::Receive => place > 1,
        DumpMode::I2cBlock => place > 0,
    }
}

// The bus isn't there, or a driver has the device.
fn is_refusal(errno: Errno) -> bool
    ensures { result ≡ is_refusal (Failed errno) }
{
    matches!(errno, Errno::Enodev | Errno::Ebusy)
}

// This first reply ends it.
fn is_end(mode: DumpMode, head: ReplyHead) -> bool
    ensures { (bytes : List ℕ) → result ≡ is_end mode (reply_by head bytes) }
{
    match head {
        ReplyHead::Err(errno) => matches!(mode, DumpMode::Receive) || is_refusal(errno),
        _ => false,
    }
}

/// The place after a reply: all places are passed over after a first one that ends it, and else none.
pub fn behind(dump: &Dump, place: u16, head: ReplyHead) -> u16
    requires { place < dump_places dump.now.mode dump.now.first dump.now.last }
    ensures { (bytes : List ℕ) → result ≡ next_place (dumps dump.now) place (reply_by head bytes) }
{
    let places = places(dump);
    if place == 0 && is_end(dump.mode, head) {
        place + 1 + places
    } else {
        place + 1
    }
}

// What the call at a place brings, where it was answered.
fn outcome_at<'r>(
    dump: &Dump,
    replies: &Window<'r>,
    place: u16,
) -> Option<Result<SmbValue<'r>, SmbFail>>
    requires fit { AreReplies (dumps dump.now) 0 replies.now }
    requires place { place < dump_places dump.now.mode dump.now.first dump.now.last }
    ensures { option_map outcome_seen result ≡ option_map (value_of_call (dump_call dump.now place)) (slice_get replies.now place) }
{
    let (head, bytes) = replies.get(usize::from(place))?;
    match head {
        ReplyHead::Done => Some(Ok(SmbValue::Done)),
        ReplyHead::Read => {
            let op = op_at(dump, place);
            let call = callee(dump).call(op);
            Some(value_read(&call, bytes))
        }
        ReplyHead::Err(errno) => Some(Err(SmbFail::Errno(errno))),
    }
}

// The place of the call that reads a register.
fn place_of(dump: &Dump, reg: u8) -> u16
    requires first { dump.now.first ≤ reg }
    requires last { reg ≤ dump.now.last }
    ensures value { result ≡ place_of dump.now.mode dump.now.first reg }
    ensures within { result < dump_places dump.now.mode dump.now.first dump.now.last }
{
    match dump.mode {
        DumpMode::Byte => u16::from(reg - dump.first),
        DumpMode::Word => u16::from(reg - dump.first),
        DumpMode::Receive => u16::from(reg - dump.first) + 1,
        DumpMode::I2cBlock => u16::from(reg / 32),
    }
}

// The byte in a register, where it could be read.
fn byte_at(dump: &Dump, replies: &Window<'_>, reg: u8) -> Option<u8>
    requires fit { AreReplies (dumps dump.now) 0 replies.now }
    requires bytes { ¬ (dump.now.mode ≡ mode.Word) }
    requires first { dump.now.first ≤ reg }
    requires last { reg ≤ dump.now.last }
    ensures { result ≡ register_read dump.now replies.now reg }
{
    match outcome_at(dump, replies, place_of(dump, reg)) {
        Some(Ok(SmbValue::Byte(byte))) => Some(byte),
        Some(Ok(SmbValue::Block(bytes))) => match bytes.get(usize::from(reg % 32)) {
            Some(byte) => Some(*byte),
            None => None,
        },
        _ => None,
    }
}

// The word in a register, where it could be read.
fn word_at(dump: &Dump, replies: &Window<'_>, reg: u8) -> Option<u16>
    requires fit { AreReplies (dumps dump.now) 0 replies.now }
    requires words { dump.now.mode ≡ mode.Word }
    requires first { dump.now.first ≤ reg }
    requires last { reg ≤ dump.now.last }
    ensures { result ≡ register_read dump.now replies.now reg }
{
    match outcome_at(dump, replies, place_of(dump, reg)) {
        Some(Ok(SmbValue::Word(word))) => Some(word),
        _ => None,
    }
}

// Prints the cell of a byte.
fn push_byte(out: &mut Text, byte: Option<u8>)
    requires { 3 ≤ out.old.room }
    ensures bytes { out.new.bytes ≡ out.old.bytes ++ byte_cell byte }
    ensures room { out.old.room ≤ out.new.room + 3 }
{
    match byte {
        Some(byte) => push_digits_cell(out, byte),
        None => out.push(b" XX"),
    }
}

// The sign of a byte.
fn sign_of(byte: Option<u8>) -> u8
    ensures { result ≡ byte_sign byte }
{
    match byte {
        Some(byte) => {
            if 32 <= byte && byte <= 126 {
                byte
            } else if byte == 0 || byte == 255 {
                b'.'
            } else {
                b'?'
            }
        }
        None => b'X',
    }
}

// Prints the cell of a register, and tells its sign.
fn push_byte_cell(dump: &Dump, replies: &Window<'_>, out: &mut Text, reg: u8) -> u8
    requires fit { AreReplies (dumps dump.now) 0 replies.now }
    requires bytes { ¬ (dump.now.mode ≡ mode.Word) }
    requires room { 3 ≤ out.old.room }
    ensures bytes { out.new.bytes ≡ out.old.bytes ++ dump_cell dump.now replies.now reg }
    ensures sign { dump_sign dump.now replies.now reg ≡ result ∷ [] }
    ensures room { out.old.room ≤ out.new.room + 3 }
{
    if dump.first <= reg && reg <= dump.last {
        let byte = byte_at(dump, replies, reg);
        push_byte(out, byte);
        sign_of(byte)
    } else {
        out.push(b"   ");
        b' '
    }
}

// Prints the cells of a row, and tells their signs.
#[tactic(auto, using(crate::proofs::TableLemmas::part_steps))]
fn push_byte_cells(dump: &Dump, replies: &Window<'_>, out: &mut Text, row: u8) -> [u8; 16]
    requires fit { AreReplies (dumps dump.now) 0 replies.now }
    requires bytes { ¬ (dump.now.mode ≡ mode.Word) }
    requires row { row ≤ 240 }
    requires room { 48 ≤ out.old.room }
    ensures bytes { out.new.bytes ≡ out.old.bytes ++ parts (in_row (dump_cell dump.now replies.now) row) 16 }
    ensures signs { result ≡ parts (in_row (dump_sign dump.now replies.now) row) 16 }
    ensures room { out.old.room ≤ out.new.room + 48 }
{
    let mut signs = [b' '; 16];
    for column in 0..16u8 {
        signs[usize::from(column)] = push_byte_cell(dump, replies, out, row + column);
    }
    signs
}

// Prints a row of bytes on a line.
fn push_byte_row(dump: &Dump, replies: &Window<'_>, out: &mut Text, row: u8)
    requires fit { AreReplies (dumps dump.now) 0 replies.now }
    requires bytes { ¬ (dump.now.mode ≡ mode.Word) }
    requires row { row ≤ 240 }
    requires room { 72 ≤ out.old.room }
    ensures bytes { out.new.bytes ≡ out.old.bytes ++ line_ended (byte_row dump.now replies.now row) }
    ensures room { out.old.room ≤ out.new.room + 72 }
{
    push_row_front(out, row);
    let signs = push_byte_cells(dump, replies, out, row);
    out.push(b"    ");
    out.push(&signs);
    out.trim();
    out.push_byte(b'\n');
}

// How many rows there are from one to another, or one where the other stands above it.
fn rows_between(first: u8, last: u8) -> u8
    requires { last ≤ 31 }
    ensures { result ≡ last - first + 1 }
{
    last.saturating_sub(first) + 1
}

// Prints the table of bytes.
fn push_byte_table(dump: &Dump, replies: &Window<'_>, out: &mut Text)
    requires fit { AreReplies (dumps dump.now) 0 replies.now }
    requires bytes { ¬ (dump.now.mode ≡ mode.Word) }
    requires room { 72 * (rows 16 dump.now.first dump.now.last + 1) ≤ out.old.room }
    ensures bytes { out.new.bytes ≡ out.old.bytes ++ flat_map line_ended (byte_table dump.now replies.now) }
    ensures room { out.old.room ≤ out.new.room + 72 * (rows 16 dump.now.first dump.now.last + 1) }
{
    out.push(b"     0  1  2  3  4  5  6  7  8  9  a  b  c  d  e  f    0123456789abcdef\n");
    let Dump { first, last, .. } = *dump;
    let begin = first / 16;
    let rows = rows_between(begin, last / 16);
    for row in 0..rows {
        push_byte_row(dump, replies, out, 16 * (begin + row));
    }
}

// Prints the cell of a word.
fn push_dumped_word(out: &mut Text, word: Option<u16>)
    requires { 5 ≤ out.old.room }
    ensures bytes { out.new.bytes ≡ out.old.bytes ++ word_cell word }
    ensures room { out.old.room ≤ out.new.room + 5 }
{
    match word {
        Some(word) => {
            let high = (word / 256) as u8;
            let low = (word % 256) as u8;
            out.push(&[
                b' ',
                hex_digit(high / 16),
                hex_digit(high % 16),
                hex_digit(low / 16),
                hex_digit(low % 16),
            ]);
        }
        None => out.push(b" XXXX"),
    }
}

// Prints the cell of a register.
fn push_word_cell(dump: &Dump, replies: &Window<'_>, out: &mut Text, reg: u8)
    requires fit { AreReplies (dumps dump.now) 0 replies.now }
    requires words { dump.now.mode ≡ mode.Word }
    requires room { 5 ≤ out.old.room }
    ensures bytes { out.new.bytes ≡ out.old.bytes ++ dump_word dump.now replies.now reg }
    ensures room { out.old.room ≤ out.new.room + 5 }
{
    if dump.first <= reg && reg <= dump.last {
        push_dumped_word(out, word_at(dump, replies, reg));
    } else {
        out.push(b"     ");
    }
}

// Prints the cells of a row.
#[tactic(auto, using(crate::proofs::TableLemmas::part_steps))]
fn push_word_cells(dump: &Dump, replies: &Window<'_>, out: &mut Text, row: u8)
    requires fit { AreReplies (dumps dump.now) 0 replies.now }
    requires words { dump.now.mode ≡ mode.Word }
    requires row { row ≤ 248 }
    requires room { 40 ≤ out.old.room }
    ensures bytes { out.new.bytes ≡ out.old.bytes ++ parts (in_row (dump_word dump.now replies.now) row) 8 }
    ensures room { out.old.room ≤ out.new.room + 40 }
{
    for column in 0..8u8 {
        push_word_cell(dump, replies, out, row + column);
    }
}

// Prints a row of words on a line.
fn push_word_row(dump: &Dump, replies: &Window<'_>, out: &mut Text, row: u8)
    requires fit { AreReplies (dumps dump.now) 0 replies.now }
    requires words { dump.now.mode ≡ mode.Word }
    requires row { row ≤ 248 }
    requires room { 44 ≤ out.old.room }
    ensures bytes { out.new.bytes ≡ out.old.bytes ++ line_ended (word_row dump.now replies.now row) }
    ensures room { out.old.room ≤ out.new.room + 44 }
{
    push_row_front(out, row);
    push_word_cells(dump, replies, out, row);
    out.trim();
    out.push_byte(b'\n');
}

// Prints the table of words.
fn push_word_table(dump: &Dump, replies: &Window<'_>, out: &mut Text)
    requires fit { AreReplies (dumps dump.now) 0 replies.now }
    requires words { dump.now.mode ≡ mode.Word }
    requires room { 44 * rows 8 dump.now.first dump.now.last ≤ out.old.room }
    ensures bytes { out.new.bytes ≡ out.old.bytes ++ flat_map line_ended (word_table dump.now replies.now) }
    ensures room { out.old.room ≤ out.new.room + 44 * rows 8 dump.now.first dump.now.last }
{
    let Dump { first, last, .. } = *dump;
    let begin = first / 8;
    let rows = rows_between(begin, last / 8);
    for row in 0..rows {
        push_word_row(dump, replies, out, 8 * (begin + row));
    }
}

/// Prints its table, or why there is none.
pub fn print(dump: &Dump, replies: Window<'_>, out: &mut Text)
    requires fit { AreReplies (dumps dump.now) 0 replies }
    requires room { (dumps dump.now).most ≤ out.old.room }
    ensures bytes { out.new.bytes ≡ out.old.bytes ++ flat_map line_ended ((dumps dump.now).lines replies.entry) }
    ensures room { out.old.room ≤ out.new.room + (dumps dump.now).most }
{
    if let Some((ReplyHead::Err(errno), _)) = replies.get(0) {
        if is_refusal(errno) {
            push_errno(out, errno);
            out.push_byte(b'\n');
            return;
        }
    }
    match dump.mode {
        DumpMode::Word => push_word_table(dump, &replies, out),
        _ => push_byte_table(dump, &replies, out),
    }
}

/// The most bytes that it prints.
pub fn most(dump: &Dump) -> usize
    ensures { result ≡ (dumps dump.now).most }
{
    let Dump { first, last, .. } = *dump;
    match dump.mode {
        DumpMode::Word => 44 * usize::from(rows_between(first / 8, last / 8)),
        _ => 72 * (usize::from(rows_between(first / 16, last / 16)) + 1),
    }
}
