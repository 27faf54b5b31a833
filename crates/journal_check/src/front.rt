//! What stands at the front of a text.
ghost use Rattle.std.specs.Prelude.{◌≡◌, ◌<◌, ◌≤◌, ◌++◌, ◌∷◌, ◌%◌, true, false, ℕ, List, length, drop, None, IfSome, OnSome};
ghost use Rattle.i2c_base.specs.declared.entry.Entry.{Entry};
ghost use Rattle.bus_spec.specs.Readings.{caller_of};
ghost use Rattle.bus_spec.specs.Report.{ended_line};
ghost use Rattle.bus_journal.specs.Guess.{entry_of, number_from, number_of};
ghost use Rattle.bus_journal.specs.Ranges.{IsEntry};
ghost use Rattle.bus_journal.specs.Reports.{IsLine};

use bus_journal::{byte_at, digit_value, rest_after};
use memchr::memchr;

/// A text begins with another.
#[inline(always)]
pub fn begins_with(text: &[u8], front: &[u8]) -> bool
    ensures yes { result ≡ true → text.now ≡ front.now ++ drop (length front.now) text.now }
    ensures no { result ≡ false → (more : List ℕ) → text.now ≡ front.now ++ more → ⊥ }
    ensures within { result ≡ true → length front.now ≤ length text.now }
{
    text.starts_with(front)
}

/// The first line of a text, without its line feed.
pub fn first_line(text: &[u8]) -> &[u8]
    ensures { (line more : List ℕ) → IsLine line → text.now ≡ line ++ (10 ∷ more) → result.now ≡ line }
{
    let feed = memchr(b'\n', text).unwrap_or(text.len());
    &text[..feed]
}

// The number with the digit that stands next, if one does.
#[tactic(auto, using(bus_journal::proofs::Nexts::number_next, bus_journal::proofs::Nexts::number_end, bus_journal::proofs::Nexts::digit_is_first))]
fn longer(text: &[u8], number: u32) -> Option<u32>
    requires { number < 65536 }
    ensures small { IfSome result (λ n. n < 65536) }
    ensures some { IfSome result (λ n. number_from number text.now ≡ number_from n (drop 1 text.now)) }
    ensures shorter { OnSome result (length (drop 1 text.now) < length text.now) }
    ensures none { result ≡ None → number_from number text.now ≡ number }
{
    let digit = digit_value(byte_at(text, 0))?;
    Some((10 * number + u32::from(digit)) % 65536)
}

// The number at the front of a text, of 8 bits.
fn small_at(text: &[u8]) -> u8
    ensures { result ≡ number_of text.now % 256 }
{
    let mut rest = text;
    let mut number = 0;
    while let Some(longer) = longer(rest, number) {
        number = longer;
        rest = rest_after(rest, 1);
    }
    (number % 256) as u8
}

/// The caller of the entry that a line could be.
#[tactic(auto, using(std::proofs::lemmas::Bool::Decides::nat_tests), unfolding(bus_journal::specs::Guess::entry_of, bus_journal::specs::Guess::message_of, bus_journal::specs::Guess::line_of, bus_journal::specs::Guess::settle_of))]
pub fn caller_of_line(line: &[u8]) -> u8
    ensures { result ≡ caller_of (entry_of line.now) }
{
    match byte_at(line, 0) {
        b't' | b'f' | b'l' => small_at(rest_after(line, 5)),
        b'm' => small_at(rest_after(line, 4)),
        _ => small_at(rest_after(line, 7)),
    }
}

/// The caller of the entry whose line stands at the front of a text.
pub fn caller_told(text: &[u8]) -> u8
    ensures { (e : Entry) (more : List ℕ) → IsEntry e → text.now ≡ ended_line e ++ more → result ≡ caller_of e }
{
    caller_of_line(first_line(text))
}
