//! Bytes as text, 16 a line, and what the replies of a command brought.

ghost use Rattle.std.specs.Prelude.{◌≡◌, ◌+◌, ◌*◌, ◌<◌, ◌≤◌, ◌++◌, length};
ghost use Rattle.std.specs.List.{flat_map};
ghost use Rattle.bus_journal.specs.Reports.{line_ended};
ghost use Rattle.bus_spec.specs.Lines.{two_digits};
ghost use Rattle.i2c_drivers.specs.Rows.{before_cell, byte_lines, bytes_at, all_bytes_read, cells};

use bus_journal::hex_digit;
use i2c_base::ReplyHead;
use tools::{Text, Window};

/// How many replies there are.
#[tactic(auto, using(tools::proofs::WindowLemmas::many))]
pub fn count(replies: &Window<'_>) -> usize
    ensures { result ≡ length replies.now }
{
    replies.replies.len().saturating_sub(replies.from)
}

/// The bytes that the reply at a place brings.
pub fn bytes_at<'a>(replies: &Window<'a>, place: usize) -> &'a [u8]
    ensures { result.now ≡ bytes_at replies.now place }
{
    match replies.get(place) {
        Some((ReplyHead::Read, bytes)) => bytes,
        _ => &[],
    }
}

// Prints what stands before byte `n`: a space, or the end of the line before.
fn push_before(out: &mut Text, n: usize)
    requires { 1 ≤ out.old.room }
    ensures bytes { out.new.bytes ≡ out.old.bytes ++ before_cell n }
    ensures room { out.old.room ≤ out.new.room + 1 }
{
    if n % 16 != 0 {
        out.push_byte(b' ');
    } else if n > 0 {
        out.push_byte(b'\n');
    }
}

// Prints byte `n` as two digits.
fn push_cell(out: &mut Text, n: usize, byte: u8)
    requires { 3 ≤ out.old.room }
    ensures bytes { out.new.bytes ≡ out.old.bytes ++ (before_cell n ++ two_digits byte) }
    ensures room { out.old.room ≤ out.new.room + 3 }
{
    push_before(out, n);
    out.push(&[hex_digit(byte / 16), hex_digit(byte % 16)]);
}

// Prints bytes from byte `n` on, and tells the number behind them.
fn push_cells(out: &mut Text, n: usize, bytes: &[u8]) -> usize
    requires few { n + length bytes.now ≤ 32768 }
    requires room { 3 * length bytes.now ≤ out.old.room }
    ensures behind { result ≡ n + length bytes.now }
    ensures bytes { out.new.bytes ≡ out.old.bytes ++ cells n bytes.now }
    ensures room { out.old.room ≤ out.new.room + 3 * length bytes.now }
{
    let mut next = n;
    for byte in bytes {
        push_cell(out, next, *byte);
        next += 1;
    }
    next
}

/// Prints all bytes that were read.
#[tactic(auto, using(crate::proofs::RowLemmas::lengths_more, crate::proofs::RowLemmas::none_left))]
pub fn push_byte_lines(out: &mut Text, replies: &Window<'_>)
    requires few { length (all_bytes_read replies.now) ≤ 32768 }
    requires room { 3 * length (all_bytes_read replies.now) < out.old.room }
    ensures bytes { out.new.bytes ≡ out.old.bytes ++ flat_map line_ended (byte_lines (all_bytes_read replies.now)) }
    ensures room { out.old.room ≤ out.new.room + 3 * length (all_bytes_read replies.now) + 1 }
{
    let mut next = 0usize;
    for place in 0..count(replies) {
        next = push_cells(out, next, bytes_at(replies, place));
    }
    if next > 0 {
        out.push_byte(b'\n');
    }
}
