//! A text split into lines, a line split into words, and its words joined again.

ghost use Rattle.std.specs.Prelude.{◌≡◌, ◌<◌, ◌≤◌, ◌==◌, ◌&&◌, nat_lt, ◌∷◌, ◌++◌, true, length, take, drop, OnOk};
ghost use Rattle.std.specs.List.{flat_map};
ghost use Rattle.tools.specs.Splits.{is_blank, words_of, behind_space, joined_words, is_spaced, lines_of, feed_at};
ghost use Rattle.tools.specs.Readers.{texts};

use crate::words::{Gap, first_word, skip_gaps};
use i2c_base::NoMemory;
use memchr::memchr;
use std::alloc::Global;

// The blanks between the words of a line.
struct Blank;

impl Gap for Blank {
    ghost gaps = { is_blank };

    fn is_gap(byte: u8) -> bool {
        byte == b' ' || byte == b'\t'
    }
}

/// The first words of a line.
#[derive(Drop)]
pub struct LineWords<'a> {
    pub words: Vec<&'a [u8]>,
    /// The line is nothing but these with one space between each two, so that it is printed as it is.
    pub joined: bool,
}

impl<'a> LineWords<'a> {
    /// None yet.
    pub fn new(alloc: Global) -> Self {
        LineWords {
            words: Vec::new(alloc),
            joined: false,
        }
    }

    /// Puts the first words of a line, which stand between spaces and tabs, in place of those that are there: at most so many.
    /// No word after them is looked at.
    pub(crate) fn split_front(&mut self, line: &'a [u8], most: usize) -> Result<(), NoMemory>
        ensures split { OnOk result (texts self.new.words.items ≡ take most (words_of line.now)) }
        ensures kept { length self.new.words.items ≤ most }
        ensures joined { OnOk result (self.new.joined ≡ true → joined_words (words_of line.now) ≡ line.now) }
    {
        self.words.clear();
        let mut rest = skip_gaps::<Blank>(line);
        let mut joined = is_whole(line, rest);
        while self.words.len() < most && !rest.is_empty() {
            let (word, behind) = first_word::<Blank>(rest);
            self.words.push(word)?;
            rest = skip_gaps::<Blank>(behind);
            joined &= is_spaced(behind, rest);
        }
        self.joined = joined & rest.is_empty();
        Ok(())
    }
}

// No gap stands before the first word, of which there is one.
fn is_whole(line: &[u8], rest: &[u8]) -> bool
    ensures { result ≡ (nat_lt 0 (length rest.now) && (length rest.now == length line.now)) }
{
    !rest.is_empty() && rest.len() == line.len()
}

// Nothing stands behind a word, or one space, and then what begins with the next word.
fn is_spaced(behind: &[u8], next: &[u8]) -> bool
    ensures { result ≡ is_spaced behind.now next.now }
{
    match behind.split_first() {
        None => true,
        Some((first, rest)) => *first == b' ' && !next.is_empty() && rest.len() == next.len(),
    }
}

// Puts the words of a text at the end, with a space before each.
fn push_spaced(out: &mut Vec<u8>, text: &[u8]) -> Result<(), NoMemory>
    ensures { OnOk result (out.new.items ≡ out.old.items ++ flat_map behind_space (words_of text.now)) }
{
    let mut rest = skip_gaps::<Blank>(text);
    while !rest.is_empty() {
        let (word, behind) = first_word::<Blank>(rest);
        out.push(b' ')?;
        out.extend_from_slice(word)?;
        rest = skip_gaps::<Blank>(behind);
    }
    Ok(())
}

/// Puts the words of a line at the end, with one space between each two.
pub fn push_echo(out: &mut Vec<u8>, line: &[u8]) -> Result<(), NoMemory>
    ensures { OnOk result (out.new.items ≡ out.old.items ++ joined_words (words_of line.now)) }
{
    let rest = skip_gaps::<Blank>(line);
    if rest.is_empty() {
        return Ok(());
    }
    let (word, behind) = first_word::<Blank>(rest);
    out.extend_from_slice(word)?;
    push_spaced(out, behind)
}

// How many bytes stand before the first line feed of a text.
#[tactic(auto, using(crate::proofs::SplitLemmas::first_feed, crate::proofs::SplitLemmas::first_within))]
fn feed_at(text: &[u8]) -> usize
    ensures value { result ≡ feed_at text.now }
    ensures within { result ≤ length text.now }
{
    memchr(b'\n', text).unwrap_or(text.len())
}

/// How long the first line of a text is, without its end and with it.
#[tactic(auto, using(crate::proofs::SplitLemmas::cut_over, crate::proofs::SplitLemmas::cut_plain, crate::proofs::SplitLemmas::cut_returned))]
pub fn cut_line(text: &[u8]) -> (usize, usize)
    requires { 0 < length text.now }
    ensures split { lines_of text.now ≡ take result.0 text.now ∷ lines_of (drop result.1 text.now) }
    ensures inside { result.0 ≤ result.1 }
    ensures some { 0 < result.1 }
    ensures within { result.1 ≤ length text.now }
{
    let feed = feed_at(text);
    if feed == text.len() {
        return (feed, feed);
    }
    if feed > 0 && text[feed - 1] == b'\r' {
        (feed - 1, feed + 1)
    } else {
        (feed, feed + 1)
    }
}
