//! The counts of one line.
ghost use Rattle.std.specs.Prelude.{◌≡◌, [], ◌∷◌};
ghost use Rattle.bus_journal.specs.Guess.{reply_of, settle_of, entry_of};
ghost use Rattle.bus_journal.specs.Tallies.{errors_of, bytes_of, tally_of};

use crate::Tally;
use crate::front::{behind_number, byte_at, bytes_at, rest_after};

/// No count.
pub const NONE: Tally = Tally {
    transfers: 0,
    messages: 0,
    locks: 0,
    errors: 0,
    bytes: 0,
};

// Whether a reply is an error, and how many bytes it gives.
#[tactic(auto, using(std::proofs::lemmas::Bool::Decides::nat_tests), unfolding(crate::specs::Guess::reply_of))]
fn reply_counts(text: &[u8]) -> (u64, u64)
    ensures errors { result.0 ≡ errors_of (reply_of text.now) }
    ensures bytes { result.1 ≡ bytes_of (reply_of text.now) }
{
    match byte_at(text, 0) {
        b'd' => (0, 0),
        b'r' => (0, bytes_at(rest_after(text, 4))),
        _ => (1, 0),
    }
}

// The line of a settle, after its first word.
#[tactic(auto, unfolding(crate::specs::Guess::settle_of))]
fn settle_counts(text: &[u8]) -> Tally
    ensures { result ≡ tally_of (settle_of text.now ∷ []) }
{
    let (errors, bytes) = reply_counts(rest_after(behind_number(text), 1));
    Tally {
        transfers: 1,
        errors,
        bytes,
        ..NONE
    }
}

/// What the entry of a line counts.
#[tactic(auto, using(std::proofs::lemmas::Bool::Decides::nat_tests), unfolding(crate::specs::Guess::entry_of, crate::specs::Guess::message_of, crate::specs::Guess::line_of))]
pub fn tally_of_line(line: &[u8]) -> Tally
    ensures { result ≡ tally_of (entry_of line.now ∷ []) }
{
    match byte_at(line, 0) {
        b't' => Tally { locks: 1, ..NONE },
        b'm' => Tally {
            messages: 1,
            ..NONE
        },
        b'f' | b'l' => NONE,
        _ => settle_counts(rest_after(line, 7)),
    }
}
