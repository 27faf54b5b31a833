//! The one entry that a line of the journal could be, its bytes put into a list that lies elsewhere.
ghost use Rattle.std.specs.Prelude.{◌≡◌, ◌≤◌, [], length, take, drop, IfSome, Some};
ghost use Rattle.bus_journal.specs.Borrowed.{entry_by, most_bytes, read_as};
ghost use Rattle.bus_journal.specs.Guess.{caller_of, behind_number, bytes_of, lock_of, purpose_of, behind_purpose, heard_of, behind_heard, end_of, errno_of, reply_of, behind_reply, cut_of, behind_list, message_of, line_of, settle_of, entry_of};
ghost use Rattle.bus_journal.specs.Ranges.{IsEntry};
ghost use Rattle.i2c_base.specs.Limits.{MOST_LENGTH};
ghost use Rattle.i2c_base.specs.Replies.{reply_by, most_read};

use crate::borrowed::Head;
use crate::cursor::Cursor;
use crate::line::errno_name;
use i2c_base::{
    Addr, Bytes, Cut, DevId, End, Errno, LockId, MOST_BYTES, MOST_LENGTH, MuxId, Node, Purpose,
    ReplyHead, SegId,
};

#[tactic(auto, using(std::proofs::lemmas::Bool::Decides::nat_tests), unfolding(crate::specs::Guess::lock_of))]
fn read_lock(text: &mut Cursor) -> LockId
    ensures { result ≡ lock_of text.old }
{
    let root = text.byte(0) == b'b';
    text.skip(8);
    let bus = SegId(text.number());
    if root {
        LockId::Bus(bus)
    } else {
        LockId::Mux(bus)
    }
}

#[tactic(auto, using(std::proofs::lemmas::Bool::Decides::nat_tests), unfolding(crate::specs::Guess::purpose_of, crate::specs::Guess::behind_purpose))]
fn read_purpose(text: &mut Cursor) -> Purpose
    ensures purpose { result ≡ purpose_of text.old }
    ensures rest { text.new ≡ behind_purpose text.old }
{
    if text.byte(0) == b'c' {
        text.skip(5);
        return Purpose::Call;
    }
    text.skip(4);
    let mux = MuxId(text.number());
    text.skip(1);
    Purpose::Control(mux)
}

#[tactic(auto, using(std::proofs::lemmas::Bool::Decides::nat_tests), unfolding(crate::specs::Guess::heard_of, crate::specs::Guess::behind_heard))]
fn read_heard(text: &mut Cursor) -> Option<Node>
    ensures heard { result ≡ heard_of text.old }
    ensures rest { text.new ≡ behind_heard text.old }
{
    let kind = text.byte(0);
    if kind == b'n' {
        text.skip(5);
        return None;
    }
    text.skip(1);
    let number = text.number();
    text.skip(1);
    if kind == b'd' {
        Some(Node::Device(DevId(number)))
    } else {
        Some(Node::Chip(MuxId(number)))
    }
}

#[tactic(auto, using(std::proofs::lemmas::Bool::Decides::nat_tests), unfolding(crate::specs::Guess::end_of))]
fn read_end(text: &mut Cursor) -> End
    ensures { result ≡ end_of text.old }
{
    match text.byte(0) {
        b'o' => End::Ok,
        b'n' => End::Nack,
        b's' => End::Slow,
        b'r' => End::Refused,
        b'p' => End::Proto,
        _ => {
            text.skip(4);
            End::Cut(text.number())
        }
    }
}

// The names differ in their second letter, or else in the third or the fifth.
#[tactic(auto, using(std::proofs::lemmas::Bool::Decides::nat_tests), unfolding(crate::specs::Guess::errno_of))]
fn read_errno(text: &Cursor) -> Errno
    ensures { result ≡ errno_of text.now }
{
    match text.byte(1) {
        b'I' if text.byte(2) == b'O' => Errno::Eio,
        b'I' => Errno::Einval,
        b'N' if text.byte(2) == b'X' => Errno::Enxio,
        b'N' => Errno::Enodev,
        b'B' if text.byte(2) == b'U' => Errno::Ebusy,
        b'B' if text.byte(4) == b'F' => Errno::Ebadf,
        b'B' => Errno::Ebadmsg,
        b'P' => Errno::Eproto,
        b'O' => Errno::Eopnotsupp,
        b'T' => Errno::Etimedout,
        _ => Errno::Eremoteio,
    }
}

#[tactic(auto, using(std::proofs::lemmas::Bool::Decides::nat_tests), unfolding(crate::specs::Guess::reply_of, crate::specs::Guess::behind_reply))]
fn read_reply(text: &mut Cursor, bytes: &mut Bytes) -> ReplyHead
    requires { bytes.old ≡ [] }
    ensures reply { reply_by result bytes.new ≡ reply_of text.old }
    ensures rest { text.new ≡ behind_reply text.old }
    ensures few { length bytes.new ≤ most_read result }
{
    match text.byte(0) {
        b'd' => {
            text.skip(4);
            ReplyHead::Done
        }
        b'r' => {
            text.skip(4);
            text.bytes(MOST_BYTES, bytes);
            ReplyHead::Read
        }
        _ => {
            let errno = read_errno(text);
            text.skip(errno_name(errno).len());
            ReplyHead::Err(errno)
        }
    }
}

#[tactic(auto, using(std::proofs::lemmas::Bool::Decides::nat_tests), unfolding(crate::specs::Guess::cut_of))]
fn read_cut(text: &mut Cursor) -> Cut
    ensures { result ≡ cut_of text.old }
{
    if text.byte(0) != b' ' {
        return Cut::No;
    }
    text.skip(5);
    let msg = text.small();
    if text.byte(0) != b'.' {
        return Cut::Way;
    }
    text.skip(1);
    let call = text.number();
    Cut::At { msg, call }
}

// The bytes of a message, from their bracket on.
#[tactic(auto, using(std::proofs::lemmas::Bool::Decides::nat_tests), unfolding(crate::specs::Guess::behind_list))]
fn read_list(text: &mut Cursor, bytes: &mut Bytes)
    requires { bytes.old ≡ [] }
    ensures bytes { bytes.new ≡ take MOST_LENGTH (bytes_of text.old) }
    ensures rest { text.new ≡ behind_list text.old }
    ensures few { length bytes.new ≤ MOST_LENGTH }
{
    text.bytes(MOST_LENGTH, bytes);
    if text.byte(0) == b'[' {
        text.skip(1);
    }
}

// The message whose line goes on with its caller, or none where its address is no target's.
#[tactic(auto, unfolding(crate::specs::Guess::message_of))]
fn read_message(text: &mut Cursor, bytes: &mut Bytes) -> Option<Head>
    requires { bytes.old ≡ [] }
    ensures read { IsEntry (message_of text.old) → read_as result bytes.new ≡ Some (message_of text.old) }
    ensures few { IfSome result (λ h. length bytes.new ≤ most_bytes h) }
{
    let caller = text.small();
    text.skip(5);
    let bus = SegId(text.number());
    text.skip(1);
    let purpose = read_purpose(text);
    let part = text.small();
    text.skip(1);
    let parts = text.small();
    text.skip(1);
    let reading = text.byte(0) == b'r';
    text.skip(3);
    let addr = Addr::new(text.hex()?)?;
    text.skip(4);
    read_list(text, bytes);
    text.skip(8);
    let heard = read_heard(text);
    let end = read_end(text);
    Some(Head::Message {
        caller,
        bus,
        purpose,
        part,
        parts,
        addr,
        reading,
        heard,
        end,
    })
}

#[tactic(auto, using(std::proofs::lemmas::Bool::Decides::nat_tests), unfolding(crate::specs::Guess::line_of))]
fn read_level(text: &mut Cursor) -> Head
    ensures line { entry_by result [] ≡ line_of text.old }
    ensures none { most_bytes result ≡ 0 }
{
    let caller = text.small();
    text.skip(5);
    let mux = MuxId(text.number());
    text.skip(7);
    let level = text.small();
    let failed = text.byte(1) == b'c';
    Head::Line {
        caller,
        mux,
        level,
        failed,
    }
}

#[tactic(auto, using(std::proofs::lemmas::Bool::Decides::nat_tests), unfolding(crate::specs::Guess::settle_of))]
fn read_settle(text: &mut Cursor, bytes: &mut Bytes) -> Head
    requires { bytes.old ≡ [] }
    ensures settle { entry_by result bytes.new ≡ settle_of text.old }
    ensures few { length bytes.new ≤ most_bytes result }
{
    let caller = text.small();
    text.skip(1);
    let answer = read_reply(text, bytes);
    let cut = read_cut(text);
    Head::Settle {
        caller,
        answer,
        cut,
    }
}

fn read_held(text: &mut Cursor) -> (u8, LockId)
    ensures caller { result.0 ≡ caller_of (drop 5 text.old) }
    ensures lock { result.1 ≡ lock_of (drop 1 (behind_number (drop 5 text.old))) }
{
    text.skip(5);
    let caller = text.small();
    text.skip(1);
    (caller, read_lock(text))
}

/// The one entry that the line could be, without its bytes, which are put into a list that was empty.
#[tactic(auto, using(std::proofs::lemmas::Bool::Decides::nat_tests), unfolding(crate::specs::Guess::entry_of))]
pub fn guess_entry(line: &[u8], bytes: &mut Bytes) -> Option<Head>
    requires { bytes.old ≡ [] }
    ensures read { IsEntry (entry_of line.now) → read_as result bytes.new ≡ Some (entry_of line.now) }
    ensures few { IfSome result (λ h. length bytes.new ≤ most_bytes h) }
{
    let mut text = Cursor::new(line);
    match text.byte(0) {
        b't' => {
            let (caller, lock) = read_held(&mut text);
            Some(Head::Take { caller, lock })
        }
        b'f' => {
            let (caller, lock) = read_held(&mut text);
            Some(Head::Free { caller, lock })
        }
        b'm' => {
            text.skip(4);
            read_message(&mut text, bytes)
        }
        b'l' => {
            text.skip(5);
            Some(read_level(&mut text))
        }
        _ => {
            text.skip(7);
            Some(read_settle(&mut text, bytes))
        }
    }
}
