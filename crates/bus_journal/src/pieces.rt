//! Pieces of a line, put at the end of a room of fixed size: none of them asks for memory.
ghost use Rattle.std.specs.Prelude.{◌≡◌, ◌+◌, ◌*◌, ◌≤◌, ◌++◌, length};
ghost use Rattle.std.specs.Fmt.{decimal};
ghost use Rattle.bus_spec.specs.Lines.{two_digits, spaced};

use crate::text::hex_digit;
use i2c_base::Row;

/// The room in which a line is made, or the end of a long one.
pub type Room = Row<u8, 512>;

/// Puts a word at the end. It is taken by value, so that the compiler sees that it lies elsewhere, and writes it at once.
#[inline(always)]
pub fn put<const N: usize>(room: &mut Room, word: [u8; N])
    requires { length room.old + N ≤ 512 }
    ensures { room.new ≡ room.old ++ word.entry }
{
    room.extend(&word);
}

/// Puts a number in decimal at the end.
#[inline(always)]
#[tactic(auto, using(std::proofs::lemmas::Fmt::decimal_digit, crate::proofs::Decimal::wide_digits, crate::proofs::Decimal::wide_behind))]
pub fn put_number(room: &mut Room, number: u16)
    requires { length room.old + 5 ≤ 512 }
    ensures text { room.new ≡ room.old ++ decimal number }
    ensures short { length room.new ≤ length room.old + 5 }
{
    if number < 10 {
        room.push(b'0' + number as u8);
    } else {
        put_digits(room, number);
    }
}

/// The same for a number of 8 bits.
#[inline(always)]
#[tactic(auto, using(std::proofs::lemmas::Fmt::decimal_digit, crate::proofs::Decimal::small_digits, crate::proofs::Decimal::small_behind))]
pub fn put_small(room: &mut Room, number: u8)
    requires { length room.old + 3 ≤ 512 }
    ensures text { room.new ≡ room.old ++ decimal number }
    ensures short { length room.new ≤ length room.old + 3 }
{
    if number < 10 {
        room.push(b'0' + number);
    } else {
        put_digits(room, u16::from(number));
    }
}

// .. digit by digit.
#[tactic(auto, using(std::proofs::lemmas::Fmt::decimal_digit, crate::proofs::Decimal::digits_more, crate::proofs::Decimal::room_for_first, crate::proofs::Decimal::room_for_last))]
fn put_digits(room: &mut Room, number: u16)
    requires { length room.old + length (decimal number) ≤ 512 }
    ensures { room.new ≡ room.old ++ decimal number }
{
    if number < 10 {
        room.push(b'0' + number as u8);
    } else {
        put_digits(room, number / 10);
        room.push(b'0' + (number % 10) as u8);
    }
}

/// Puts a word and a number at the end.
#[inline(always)]
pub fn put_numbered<const N: usize>(room: &mut Room, word: [u8; N], number: u16)
    requires { length room.old + (N + 5) ≤ 512 }
    ensures text { room.new ≡ room.old ++ (word.entry ++ decimal number) }
    ensures short { length room.new ≤ length room.old + (N + 5) }
{
    put(room, word);
    put_number(room, number);
}

/// Puts a byte in two hexadecimal digits at the end.
#[inline(always)]
pub fn put_hex(room: &mut Room, byte: u8)
    requires { length room.old + 2 ≤ 512 }
    ensures text { room.new ≡ room.old ++ two_digits byte }
    ensures short { length room.new ≡ length room.old + 2 }
{
    room.extend(&[hex_digit(byte / 16), hex_digit(byte % 16)]);
}

/// Puts bytes at the end, with a space before each.
#[inline(always)]
pub fn put_spaced(room: &mut Room, bytes: &[u8])
    requires { length room.old + 3 * length bytes.now ≤ 512 }
    ensures text { room.new ≡ room.old ++ spaced bytes.now }
    ensures short { length room.new ≡ length room.old + 3 * length bytes.now }
{
    for byte in bytes {
        room.extend(&[b' ', hex_digit(*byte / 16), hex_digit(*byte % 16)]);
    }
}
