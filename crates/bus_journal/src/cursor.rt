//! A text that is read from its front, byte by byte and number by number.
ghost use Rattle.std.specs.Prelude.{◌≡◌, ◌<◌, ◌≤◌, ◌-◌, ◌%◌, true, false, [], ◌∷◌, length, take, drop, None, IfSome, OnSome};
ghost use Rattle.bus_journal.specs.Guess.{byte_at, is_hex, hex_value, number_from, number_of, behind_number, bytes_of, behind_bytes};

use crate::front::{digit_value, rest_after};
use i2c_base::Bytes;
use std::marker::Model;

/// A text that is read from its front. A contract sees what is left of it.
#[derive(Drop)]
pub struct Cursor<'a> {
    rest: &'a [u8],
}

impl<'a> Model for Cursor<'a> {
    ghost use Rattle.std.specs.Prelude.{ℕ, List};

    ghost Value = { List ℕ };

    ghost view = { λ c. c.rest.now };
}

// The value of a hexadecimal digit, or none where it is no such digit.
fn hex_digit_value(digit: u8) -> Option<u8>
    ensures some { IfSome result (λ v. (v ≡ hex_value digit) × (v < 16)) }
    ensures is { OnSome result (is_hex digit ≡ true) }
    ensures none { result ≡ None → is_hex digit ≡ false }
{
    if b'a' <= digit && digit <= b'f' {
        Some(digit - b'a' + 10)
    } else {
        digit_value(digit)
    }
}

impl<'a> Cursor<'a> {
    pub fn new(text: &'a [u8]) -> Self
        ensures { result ≡ text.now }
    {
        Cursor { rest: text }
    }

    /// The byte at a place, 0 past the end.
    pub fn byte(&self, place: usize) -> u8
        ensures { result ≡ byte_at place self.now }
    {
        if place < self.rest.len() {
            self.rest[place]
        } else {
            0
        }
    }

    pub fn skip(&mut self, count: usize)
        ensures { self.new ≡ drop count self.old }
    {
        self.rest = rest_after(self.rest, count);
    }

    // The number with the digit that stands next, if one does.
    #[tactic(auto, using(crate::proofs::Nexts::number_next, crate::proofs::Nexts::number_end, crate::proofs::Nexts::behind_number_next, crate::proofs::Nexts::behind_number_end, crate::proofs::Nexts::digit_is_first))]
    fn longer(&self, number: u32) -> Option<u32>
        requires { number < 65536 }
        ensures small { IfSome result (λ n. n < 65536) }
        ensures some { IfSome result (λ n. number_from number self.now ≡ number_from n (drop 1 self.now)) }
        ensures behind { OnSome result (behind_number self.now ≡ behind_number (drop 1 self.now)) }
        ensures shorter { OnSome result (length (drop 1 self.now) < length self.now) }
        ensures none { result ≡ None → number_from number self.now ≡ number }
        ensures stays { result ≡ None → behind_number self.now ≡ self.now }
    {
        let digit = digit_value(self.byte(0))?;
        Some((10 * number + u32::from(digit)) % 65536)
    }

    /// Reads the digits that stand next as a number of 16 bits.
    pub fn number(&mut self) -> u16
        ensures number { result ≡ number_of self.old }
        ensures rest { self.new ≡ behind_number self.old }
    {
        let mut number = 0;
        while let Some(longer) = self.longer(number) {
            number = longer;
            self.skip(1);
        }
        number as u16
    }

    /// Reads the digits that stand next as a number of 8 bits.
    pub fn small(&mut self) -> u8
        ensures number { result ≡ number_of self.old % 256 }
        ensures rest { self.new ≡ behind_number self.old }
    {
        (self.number() % 256) as u8
    }

    /// The byte whose two hexadecimal digits stand behind a mark.
    #[tactic(auto, using(crate::proofs::Nexts::bytes_next, crate::proofs::Nexts::bytes_end, crate::proofs::Nexts::bytes_end_low, crate::proofs::Nexts::behind_bytes_next, crate::proofs::Nexts::behind_bytes_end, crate::proofs::Nexts::behind_bytes_end_low, crate::proofs::Nexts::hex_is_third))]
    pub fn hex(&self) -> Option<u8>
        ensures some { IfSome result (λ b. bytes_of self.now ≡ b ∷ bytes_of (drop 3 self.now)) }
        ensures behind { OnSome result (behind_bytes self.now ≡ behind_bytes (drop 3 self.now)) }
        ensures shorter { OnSome result (length (drop 3 self.now) < length self.now) }
        ensures none { result ≡ None → bytes_of self.now ≡ [] }
        ensures stays { result ≡ None → behind_bytes self.now ≡ self.now }
    {
        let high = hex_digit_value(self.byte(1))?;
        let low = hex_digit_value(self.byte(2))?;
        Some(16 * high + low)
    }

    /// Reads the bytes that stand next, each after a mark, into a list that was empty. Those past so many are dropped.
    #[tactic(auto, using(crate::proofs::Nexts::take_one_more, crate::proofs::Nexts::take_when_full, crate::proofs::Nexts::take_at_end))]
    pub fn bytes(&mut self, most: usize, bytes: &mut Bytes)
        requires empty { bytes.old ≡ [] }
        requires most { most ≤ 4096 }
        ensures bytes { bytes.new ≡ take most (bytes_of self.old) }
        ensures few { length bytes.new ≤ most }
        ensures rest { self.new ≡ behind_bytes self.old }
    {
        while let Some(byte) = self.hex() {
            if bytes.as_slice().len() < most {
                bytes.push(byte);
            }
            self.skip(3);
        }
    }
}
