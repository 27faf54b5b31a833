//! What stands at the front of a text.
ghost use Rattle.std.specs.Prelude.{◌≡◌, ◌-◌, ◌<◌, ◌≤◌, ◌∷◌, ◌++◌, true, false, ℕ, List, length, take, drop, None, IfSome, OnSome};
ghost use Rattle.bus_journal.specs.Guess.{byte_at, is_digit, is_hex, behind_number, bytes_of};
ghost use Rattle.bus_journal.specs.Reports.{IsLine};
ghost use Rattle.bus_journal.specs.Fronts.{begins_with_byte};
ghost use Rattle.i2c_base.specs.Limits.{MOST_BYTES};

use i2c_base::MOST_BYTES;
use memchr::memchr;

/// The byte at a place, 0 past the end.
pub fn byte_at(text: &[u8], place: usize) -> u8
    ensures { result ≡ byte_at place text.now }
{
    if place < text.len() { text[place] } else { 0 }
}

/// The text after its first so many bytes.
pub fn rest_after(text: &[u8], count: usize) -> &[u8]
    ensures { result.now ≡ drop count text.now }
{
    if count < text.len() {
        &text[count..]
    } else {
        b""
    }
}

/// The value of a digit, or none where it is no digit.
pub fn digit_value(digit: u8) -> Option<u8>
    ensures some { IfSome result (λ v. (v ≡ digit - 48) × (v < 10)) }
    ensures is { OnSome result (is_digit digit ≡ true) }
    ensures none { result ≡ None → is_digit digit ≡ false }
{
    if b'0' <= digit && digit <= b'9' {
        Some(digit - b'0')
    } else {
        None
    }
}

fn is_digit(byte: u8) -> bool
    ensures { result ≡ is_digit byte }
{
    b'0' <= byte && byte <= b'9'
}

fn is_hex(byte: u8) -> bool
    ensures { result ≡ is_hex byte }
{
    is_digit(byte) || (b'a' <= byte && byte <= b'f')
}

/// The text after the digits that stand at its front.
#[tactic(auto, using(crate::proofs::Nexts::behind_number_next, crate::proofs::Nexts::behind_number_end, crate::proofs::Nexts::digit_is_first))]
pub fn behind_number(text: &[u8]) -> &[u8]
    ensures { result.now ≡ behind_number text.now }
{
    let mut rest = text;
    while is_digit(byte_at(rest, 0)) {
        rest = rest_after(rest, 1);
    }
    rest
}

// A byte stands at the front: a mark and two digits.
fn begins_with_byte(text: &[u8]) -> bool
    ensures { result ≡ begins_with_byte text.now }
{
    is_hex(byte_at(text, 1)) && is_hex(byte_at(text, 2))
}

/// How many bytes stand at the front, of which a transfer has at most so many.
#[tactic(auto, using(crate::proofs::FrontLemmas::one_byte_more, crate::proofs::FrontLemmas::no_byte_more, crate::proofs::FrontLemmas::taken))]
pub fn bytes_at(text: &[u8]) -> u64
    ensures { result ≡ length (take MOST_BYTES (bytes_of text.now)) }
{
    let mut rest = text;
    let mut count = 0usize;
    while begins_with_byte(rest) {
        rest = rest_after(rest, 3);
        count += 1;
    }
    count.min(MOST_BYTES) as u64
}

/// The first line of a text, without its line feed, and the text after it.
pub fn split_line(text: &[u8]) -> (&[u8], &[u8])
    ensures parts { (line more : List ℕ) → IsLine line → text.now ≡ line ++ (10 ∷ more) → (result.0.now ≡ line) × (result.1.now ≡ more) }
    ensures shorter { length result.1.now ≤ length text.now }
{
    let feed = memchr(b'\n', text).unwrap_or(text.len());
    (&text[..feed], rest_after(text, feed + 1))
}
