//! One message of a transfer, as the calls that it makes.

ghost use Rattle.std.specs.Prelude.{◌≡◌, ◌+◌, ◌^◌, ◌<◌, ◌≤◌, true, false, length, IfSome};
ghost use Rattle.i2c_base.specs.Limits.{MOST_BYTES, MOST_DEVICES, MOST_LENGTH};
ghost use Rattle.i2c_base.specs.Transfer.{IsMessage, is_read, size_of, written_of};
ghost use Rattle.i2c_base.specs.declared.entry.End.TheVariants as end;
ghost use Rattle.i2c_spec.specs.Conversation.{is_it};
ghost use Rattle.i2c_spec.specs.Messages.{message_with};
ghost use Rattle.flat_world.specs.Devices.{behind_start};
ghost use Rattle.flat_world.specs.Sending as spec;

use crate::devices::Devices;
use i2c_base::{Answer, Bytes, End, Msg};

/// The call after so many fails.
fn is_cut(cut: Option<u16>, calls: u16) -> bool
    ensures { result ≡ is_it cut calls }
{
    match cut {
        Some(place) => place == calls,
        None => false,
    }
}

/// The call after so many fails, which acts as a stop.
fn fail(now: &mut Devices, calls: u16) -> End
    ensures { record { now = now.new; end = result } ≡ spec.failed behind_start calls now.old }
{
    now.stop();
    End::Cut(calls)
}

/// The end of a message, with a stop where it is the last of its transfer, or ended early.
fn finish(now: &mut Devices, cut: Option<u16>, calls: u16, stops: bool, end: End) -> End
    ensures { record { now = now.new; end = result } ≡ spec.ended behind_start cut calls stops now.old end }
{
    if !stops {
        return end;
    }
    if is_cut(cut, calls) {
        return fail(now, calls);
    }
    now.stop();
    end
}

/// Puts one byte after the other, until one isn't acknowledged.
#[tactic(auto, using(crate::proofs::SendingLemmas::puts_cut))]
fn put_all(now: &mut Devices, cut: Option<u16>, last: bool, bytes: &[u8]) -> End
    requires { length bytes.now ≤ MOST_LENGTH }
    ensures { record { now = now.new; end = result } ≡ spec.puts behind_start cut last bytes.now 1 now.old }
{
    let mut calls = 1u16;
    for byte in bytes {
        if is_cut(cut, calls) {
            return fail(now, calls);
        }
        calls += 1;
        if !now.put(*byte) {
            return finish(now, cut, calls, true, End::Refused);
        }
    }
    finish(now, cut, calls, last, End::Ok)
}

/// Gets so many bytes, and acknowledges each but the last. The message has made so many calls before.
fn get_all(
    now: &mut Devices,
    cut: Option<u16>,
    last: bool,
    len: u16,
    calls: u16,
    got: &mut Bytes,
) -> End
    requires few { calls + len < 2 ^ 16 }
    requires room { length got.old + len ≤ MOST_BYTES }
    ensures { spec.all_with got.new now.new result ≡ spec.gets behind_start cut last len calls got.old now.old }
{
    let mut left = len;
    let mut made = calls;
    while left > 0 {
        if is_cut(cut, made) {
            return fail(now, made);
        }
        left -= 1;
        made += 1;
        got.push(now.get(left > 0));
    }
    finish(now, cut, made, last, End::Ok)
}

/// Gets the byte after a count that no block has, and ends there.
fn get_one_more(now: &mut Devices, cut: Option<u16>, got: &mut Bytes) -> End
    requires { length got.old < MOST_BYTES }
    ensures { spec.all_with got.new now.new result ≡ spec.gets_one_more behind_start cut got.old now.old }
{
    if is_cut(cut, 2) {
        return fail(now, 2);
    }
    got.push(now.get(false));
    finish(now, cut, 3, true, End::Proto)
}

/// Gets the count of a block, and then what that counts and the bytes beside. No block has a count of 0, or one above the
/// limit.
fn get_counted(
    now: &mut Devices,
    cut: Option<u16>,
    last: bool,
    limit: u8,
    len: u16,
    got: &mut Bytes,
) -> End
    requires len { (1 ≤ len) × (len ≤ 2) }
    requires room { length got.old + 258 ≤ MOST_BYTES }
    ensures { spec.all_with got.new now.new result ≡ spec.gets_counted behind_start cut last limit len got.old now.old }
{
    if is_cut(cut, 1) {
        return fail(now, 1);
    }
    let count = now.get(true);
    got.push(count);
    if count == 0 || count > limit {
        get_one_more(now, cut, got)
    } else {
        get_all(now, cut, last, u16::from(count) + len - 1, 2, got)
    }
}

/// Moves the data of a message whose address was acknowledged.
fn move_data(
    now: &mut Devices,
    cut: Option<u16>,
    last: bool,
    limit: u8,
    msg: &Msg,
    bytes: &[u8],
    got: &mut Bytes,
) -> End
    requires message { IsMessage msg.now }
    requires bytes { length bytes.now ≤ MOST_LENGTH }
    requires room { is_read msg.now ≡ true → length got.old + size_of msg.now ≤ MOST_BYTES }
    ensures { spec.all_with got.new now.new result ≡ spec.moved behind_start cut last limit (message_with msg.now bytes.now) got.old now.old }
{
    if !msg.is_read() {
        put_all(now, cut, last, bytes)
    } else if msg.is_counted() {
        get_counted(now, cut, last, limit, msg.len, got)
    } else {
        get_all(now, cut, last, msg.len, 1, got)
    }
}

/// What follows a start, by its answer.
fn go_on(
    now: &mut Devices,
    cut: Option<u16>,
    last: bool,
    limit: u8,
    msg: &Msg,
    bytes: &[u8],
    answer: Answer,
    got: &mut Bytes,
) -> End
    requires message { IsMessage msg.now }
    requires bytes { length bytes.now ≤ MOST_LENGTH }
    requires room { is_read msg.now ≡ true → length got.old + size_of msg.now ≤ MOST_BYTES }
    ensures { spec.all_with got.new now.new result ≡ spec.by_answer behind_start cut last limit (message_with msg.now bytes.now) answer got.old now.old }
{
    match answer {
        Answer::Ack => move_data(now, cut, last, limit, msg, bytes, got),
        Answer::Slow => finish(now, cut, 1, true, End::Slow),
        Answer::Nack | Answer::Byte(_) | Answer::Nothing => finish(now, cut, 1, true, End::Nack),
    }
}

/// Sends one message, whose address leads to the device `granted`, or to nobody: `last` says that its transfer ends with
/// it, `cut` after how many of its calls one fails, and `limit` how many bytes a block has at most. What it reads is put at
/// the end of `got`.
pub fn send(
    now: &mut Devices,
    granted: Option<u16>,
    cut: Option<u16>,
    last: bool,
    limit: u8,
    msg: &Msg,
    bytes: &[u8],
    got: &mut Bytes,
) -> End
    requires granted { IfSome granted (λ d. d < MOST_DEVICES) }
    requires message { IsMessage msg.now }
    requires bytes { length bytes.now ≤ MOST_LENGTH }
    requires room { is_read msg.now ≡ true → length got.old + size_of msg.now ≤ MOST_BYTES }
    ensures { spec.all_with got.new now.new result ≡ spec.sent granted cut last limit (message_with msg.now bytes.now) got.old now.old }
{
    if is_cut(cut, 0) {
        return fail(now, 0);
    }
    let answer = now.start(granted, msg.is_read());
    go_on(now, cut, last, limit, msg, bytes, answer, got)
}
