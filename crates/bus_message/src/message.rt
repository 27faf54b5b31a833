//! One message on a port: a start, its bytes, and how it ended.
ghost use Rattle.std.specs.Prelude.{◌≡◌, ℕ, ◌+◌, ◌<◌, ◌≤◌, ◌==◌, ◌||◌, nat_lt, true, false, List, [], None, length, if◌then◌else◌};
ghost use Rattle.i2c_base.specs.Fitting.{count_of};
ghost use Rattle.i2c_base.specs.Limits.{LARGEST_BLOCK, MOST_LENGTH};
ghost use Rattle.i2c_base.specs.Phases.{MayStart, MayStop, AnswersStart, phase_started};
ghost use Rattle.i2c_base.specs.declared.port.Phase.{Phase};
ghost use Rattle.i2c_base.specs.declared.entry.End.{End};
ghost use Rattle.i2c_base.specs.declared.event.Answer.{Answer};
ghost use Rattle.i2c_spec.specs.Messages.{bytes_most};
ghost use Rattle.i2c_spec.specs.World.{has_heard};
ghost use Rattle.bus_spec.specs.Past.{cut_of};
ghost use Rattle.bus_message.specs.Ports.{HasRoom, IsStarted, MessageSent, root_port};
ghost use Rattle.bus_message.specs.Talks.{HasFailed, HasMoved, IsSendable, MessageEnded, answered, counting, ending, getting, moving, over_limit, putting};

use i2c_base::{Addr, Answer, ByteList, End, Node};
use ports::{Failed, Port};
use std::marker::Model;

/// A message with its bytes, as it goes over the wires. A contract sees the record of these parts.
#[derive(Drop)]
pub struct Message<'a> {
    pub addr: Addr,
    pub reading: bool,
    /// It is a read whose first byte says how many more come.
    pub counted: bool,
    /// How many bytes it moves; of a counted read those beside the ones that it counts.
    pub len: u16,
    /// The bytes that it writes.
    pub bytes: &'a [u8],
}

impl<'a> Model for Message<'a> {
    ghost use Rattle.i2c_spec.specs.Messages.{MessageView};

    ghost Value = { MessageView };

    ghost view = { λ m. record { addr = m.addr; reading = m.reading; counted = m.counted; len = m.len; bytes = m.bytes.now } };
}

/// What came of a message, beside its bytes.
#[derive(Clone, Copy)]
pub struct MsgResult {
    pub addr: Addr,
    pub reading: bool,
    /// Who acknowledged the address, or held the clock to do so.
    pub heard: Option<Node>,
    pub end: End,
}

// The end of a message that ended early, or is the last of its transfer: with a stop after so many calls.
#[inline(always)]
fn stopped<P: Port>(port: &mut P, calls: u16, end: End) -> End
    requires phase { MayStop (P.phase port.old) }
    requires room { HasRoom P.Port port.old 1 }
    requires not_cut { cut_of end ≡ None }
    ensures ended { (got : List ℕ) → MessageEnded P.Port true (ending true end) calls 0 got port.old port.new got result }
    ensures good { result ≡ End.Ok → end ≡ End.Ok }
{
    match port.stop() {
        Ok(()) => end,
        Err(Failed) => End::Cut(calls),
    }
}

// The end of a message that went through.
fn through<P: Port>(port: &mut P, calls: u16, last: bool) -> End
    requires start { MayStart (P.phase port.old) }
    requires stop { MayStop (P.phase port.old) }
    requires room { HasRoom P.Port port.old 1 }
    ensures { (got : List ℕ) → MessageEnded P.Port last (ending last End.Ok) calls 0 got port.old port.new got result }
{
    if last {
        stopped(port, calls, End::Ok)
    } else {
        End::Ok
    }
}

// Puts one byte after the other, until one isn't acknowledged.
fn put_all<P: Port>(port: &mut P, bytes: &[u8], last: bool, sent: &mut ByteList) -> End
    requires phase { P.phase port.old ≡ Phase.Writing }
    requires none { sent.old ≡ [] }
    requires short { length bytes.now ≤ MOST_LENGTH }
    requires room { HasRoom P.Port port.old (length bytes.now + 1) }
    ensures ended { MessageEnded P.Port last (putting last bytes.now) 1 (length bytes.now) [] port.old port.new sent.new result }
    ensures whole { result ≡ End.Ok → sent.new ≡ bytes.now }
{
    let mut calls = 1u16;
    for byte in bytes {
        match port.put(*byte) {
            Err(Failed) => return End::Cut(calls),
            Ok(false) => return stopped(port, calls + 1, End::Refused),
            Ok(true) => sent.push(*byte),
        }
        calls += 1;
    }
    through(port, calls, last)
}

// Gets so many bytes after those that came, one after the other, and acknowledges each but the last. The message has
// made so many calls before.
fn get_all<P: Port>(port: &mut P, calls: u16, len: u16, last: bool, got: &mut ByteList) -> End
    requires phase { P.phase port.old ≡ Phase.Reading }
    requires some { 0 < len }
    requires calls { calls ≤ 2 }
    requires short { length got.old + len ≤ MOST_LENGTH }
    requires room { HasRoom P.Port port.old (len + 1) }
    ensures ended { MessageEnded P.Port last (getting last len) calls len got.old port.old port.new got.new result }
    ensures whole { result ≡ End.Ok → length got.new ≡ length got.old + len }
    ensures first { 0 < length got.old → count_of got.new ≡ count_of got.old }
{
    for count in 0..len {
        match port.get(count + 1 < len) {
            Err(Failed) => return End::Cut(calls + count),
            Ok(byte) => got.push(byte),
        }
    }
    through(port, calls + len, last)
}

// Gets one byte more after a count that no block has, and ends there.
fn get_one_more<P: Port>(port: &mut P, got: &mut ByteList) -> End
    requires phase { P.phase port.old ≡ Phase.Reading }
    requires one { length got.old ≡ 1 }
    requires room { HasRoom P.Port port.old 2 }
    ensures ended { MessageEnded P.Port true over_limit 2 1 got.old port.old port.new got.new result }
    ensures bad { result ≡ End.Ok → ⊥ }
{
    match port.get(false) {
        Err(Failed) => End::Cut(2),
        Ok(byte) => {
            got.push(byte);
            stopped(port, 3, End::Proto)
        }
    }
}

// No block has this count: it is 0 or above the limit.
fn is_bad_count(count: u8, limit: u16) -> bool
    ensures test { result ≡ ((count == 0) || nat_lt limit count) }
    ensures within { result ≡ false → (1 ≤ count) × (count ≤ limit) }
{
    count == 0 || u16::from(count) > limit
}

// A counted read gets its count first, and then what that counts and the bytes beside.
fn get_counted<P: Port>(port: &mut P, limit: u16, len: u16, last: bool, got: &mut ByteList) -> End
    requires phase { P.phase port.old ≡ Phase.Reading }
    requires none { got.old ≡ [] }
    requires some { 0 < len }
    requires limit { (1 ≤ limit) × (limit ≤ LARGEST_BLOCK) }
    requires short { limit + len ≤ MOST_LENGTH }
    requires room { HasRoom P.Port port.old (limit + len + 1) }
    ensures ended { MessageEnded P.Port last (counting last limit len) 1 (limit + len) [] port.old port.new got.new result }
    ensures whole { result ≡ End.Ok → (1 ≤ count_of got.new) × (count_of got.new ≤ limit) × (length got.new ≡ len + count_of got.new) }
{
    match port.get(true) {
        Err(Failed) => End::Cut(1),
        Ok(count) => {
            got.push(count);
            if is_bad_count(count, limit) {
                get_one_more(port, got)
            } else {
                get_all(port, 2, u16::from(count) + len - 1, last, got)
            }
        }
    }
}

// The data of a message whose address was acknowledged.
fn move_data<P: Port>(
    port: &mut P,
    limit: u16,
    message: &Message<'_>,
    last: bool,
    bytes: &mut ByteList,
) -> End
    requires phase { P.phase port.old ≡ phase_started message.now.reading Answer.Ack }
    requires started { IsStarted P.Port limit message.now port.old bytes.old }
    ensures ended { MessageEnded P.Port last (moving last limit message.now) 1 (bytes_most limit message.now) [] port.old port.new bytes.new result }
    ensures moved { HasMoved limit message.now bytes.new result }
{
    if !message.reading {
        put_all(port, message.bytes, last, bytes)
    } else if message.counted {
        get_counted(port, limit, message.len, last, bytes)
    } else {
        get_all(port, 1, message.len, last, bytes)
    }
}

// What follows a start, by its answer.
fn after_start<P: Port>(
    port: &mut P,
    limit: u16,
    message: &Message<'_>,
    last: bool,
    answer: Answer,
    bytes: &mut ByteList,
) -> End
    requires phase { P.phase port.old ≡ phase_started message.now.reading answer }
    requires answers { AnswersStart answer }
    requires started { IsStarted P.Port limit message.now port.old bytes.old }
    ensures ended { MessageEnded P.Port last (answered last limit message.now answer) 1 (bytes_most limit message.now) [] port.old port.new bytes.new result }
    ensures moved { HasMoved limit message.now bytes.new result }
{
    match answer {
        Answer::Ack => move_data(port, limit, message, last, bytes),
        Answer::Slow => stopped(port, 1, End::Slow),
        _ => stopped(port, 1, End::Nack),
    }
}

// Who has heard a start with this answer: an acknowledge, or a clock that is held to make one.
fn heard_by(hearer: Option<Node>, answer: Answer) -> Option<Node>
    ensures { result ≡ (if has_heard answer then hearer else None) }
{
    match answer {
        Answer::Ack | Answer::Slow => hearer,
        _ => None,
    }
}

/// Sends one message: a start, its bytes, and a stop where it is the last of its transfer or ends early. A failed
/// call on the port ends it there, with the number of the calls before it. A counted read brings at most `limit`
/// bytes beside its count and those that it asks for. `bytes` is cleared, and gets of a write the bytes that were
/// acknowledged, of a read all that came. `hearer` is told to have heard it where its start is acknowledged.
pub fn send_message<P: Port>(
    port: &mut P,
    limit: u16,
    message: &Message<'_>,
    hearer: Option<Node>,
    last: bool,
    bytes: &mut ByteList,
) -> MsgResult
    requires start { MayStart (P.phase port.old) }
    requires sendable { IsSendable limit message.now }
    requires room { HasRoom P.Port port.old (bytes_most limit message.now + 2) }

    // Its calls, bytes and end are those of the conversation with the world, a failed call in its place.
    ensures sent { (root : ℕ) → MessageSent P.tells limit message.now hearer last (root_port P.Port (root, port.old)) (root_port P.Port (root, port.new)) bytes.new result }

    // Over any port: the place and cause of a failed call.
    ensures fails { HasFailed 0 (bytes_most limit message.now + 1) (P.faults port.old) (P.faults port.new) result.end }
    ensures later { P.faults port.old ≤ P.faults port.new }
{
    bytes.clear();
    let (addr, reading) = (message.addr, message.reading);
    match port.start(addr, reading) {
        Err(Failed) => MsgResult {
            addr,
            reading,
            heard: None,
            end: End::Cut(0),
        },
        Ok(answer) => MsgResult {
            addr,
            reading,
            heard: heard_by(hearer, answer),
            end: after_start(port, limit, message, last, answer, bytes),
        },
    }
}
