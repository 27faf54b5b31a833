//! The words of a line by their places: a given word, a number, or none.

ghost use Rattle.std.specs.Prelude.{◌≡◌, ◌≤◌, Some, None, slice_get, IfOk, MatchResult};
ghost use Rattle.std.specs.Str.{bytes_eq};
ghost use Rattle.tools.specs.Numbers.{number_in};
ghost use Rattle.tools.specs.Readers.{texts, one_at, is_at, is_past, over_at};

use crate::fault::WordRefused;
use crate::number::number_in;

/// The word is that text.
pub fn is_text(word: &[u8], text: &[u8]) -> bool
    ensures { result ≡ bytes_eq word.now text.now }
{
    word == text
}

/// The word at a place is that text.
pub fn is_at(words: &[&[u8]], at: u16, text: &[u8]) -> bool
    ensures { result ≡ is_at text.now (texts words.now) at }
{
    match words.get(usize::from(at)) {
        Some(word) => *word == text,
        None => false,
    }
}

/// No word stands at a place.
pub fn is_past(words: &[&[u8]], at: u16) -> bool
    ensures { result ≡ is_past (texts words.now) at }
{
    words.len() <= usize::from(at)
}

/// A value that was read before a place, where the line ends there.
pub fn over_at<T: Drop>(words: &[&[u8]], at: u16, value: T) -> Result<T, WordRefused>
    ensures { result ≡ over_at value (texts words.now) at }
{
    if is_past(words, at) {
        Ok(value)
    } else {
        Err(WordRefused(at))
    }
}

/// The word at a place.
pub fn word_at<'a>(words: &[&'a [u8]], at: u16) -> Result<&'a [u8], WordRefused>
    ensures { MatchResult result (λ w. slice_get (texts words.now) at ≡ Some w.now) (λ k. (slice_get (texts words.now) at ≡ None) × (k ≡ at)) }
{
    match words.get(usize::from(at)) {
        Some(word) => Ok(*word),
        None => Err(WordRefused(at)),
    }
}

/// The number of the word at a place, from `low` to `high`.
pub fn number_at(words: &[&[u8]], at: u16, low: u16, high: u16) -> Result<u16, WordRefused>
    ensures gives { result ≡ one_at (number_in low high) (texts words.now) at }
    ensures high { IfOk result (λ n. n ≤ high) }
{
    let word = word_at(words, at)?;
    number_in(word, low, high).ok_or(WordRefused(at))
}
