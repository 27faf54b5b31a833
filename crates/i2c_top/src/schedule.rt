//! The schedule, read as the callers that its words name.
ghost use Rattle.std.specs.Prelude.{◌≡◌, ◌<◌, ◌≤◌, ◌∷◌, true, length, All, Some, None, Ok, OnOk, OnErr, IfOk, IfErr, IfSome};
ghost use Rattle.i2c_top.specs.Schedules.{is_white, caller_named, WordsAreNumbers, caller_at, schedule_read, MOST_ENTRIES, IsScheduleFault};
ghost use Rattle.i2c_top.specs.declared.schedule.ScheduleFault.TheVariants as schedule_fault;

use std::alloc::{AllocFailed, Global};
use tools::{Gap, first_word, skip_gaps};

/// The most words of a schedule.
const MOST_ENTRIES: usize = 1_000_000;

/// Why a schedule was not read.
#[derive(Clone, Copy)]
pub enum ScheduleFault {
    /// The first word, from 0, that is no caller's number, or one word too many.
    Word(u32),
    Memory,
}

impl<T: Drop> From<AllocFailed<T>> for ScheduleFault {
    ghost from_gives = { λ _ e. e ≡ schedule_fault.Memory };

    fn from(_error: AllocFailed<T>) -> Self {
        ScheduleFault::Memory
    }
}

/// The white space between the words of a list.
pub struct White;

impl Gap for White {
    ghost gaps = { is_white };

    fn is_gap(byte: u8) -> bool {
        byte == b' ' || byte == b'\t' || byte == b'\n' || byte == b'\r'
    }
}

// The caller that a word names, among so many.
fn caller_named(callers: u8, word: &[u8]) -> Option<u8>
    ensures value { result ≡ caller_named callers word.now }
    ensures below { IfSome result (λ c. c < callers) }
{
    if word.len() != 1 {
        return None;
    }
    let digit = word[0];
    if b'0' <= digit && digit - b'0' < callers {
        Some(digit - b'0')
    } else {
        None
    }
}

// The caller that a word after so many names; one word too many names none.
fn caller_at(callers: u8, index: usize, word: &[u8]) -> Option<u8>
    ensures value { result ≡ caller_at callers index word.now }
    ensures below { IfSome result (λ c. c < callers) }
    ensures room { IfSome result (λ c. index < MOST_ENTRIES) }
{
    if index >= MOST_ENTRIES {
        None
    } else {
        caller_named(callers, word)
    }
}

// The next caller of a schedule, after those that are there, or the fault of its word.
fn next_caller(callers: u8, index: usize, word: &[u8]) -> Result<u8, ScheduleFault>
    requires { index ≤ MOST_ENTRIES }
    ensures ok { IfOk result (λ c. caller_at callers index word.now ≡ Some c) }
    ensures below { IfOk result (λ c. c < callers) }
    ensures room { OnOk result (index < MOST_ENTRIES) }
    ensures err { OnErr result (caller_at callers index word.now ≡ None) }
    ensures fault { IfErr result (λ e. e ≡ schedule_fault.Word index) }
{
    match caller_at(callers, index, word) {
        None => Err(ScheduleFault::Word(index as u32)),
        Some(caller) => Ok(caller),
    }
}

/// The callers that the words of a schedule name, in order. `Word` comes exactly at the first that names none of so
/// many callers, or that is one too many.
pub fn read_schedule(alloc: Global, text: &[u8], callers: u8) -> Result<Vec<u8>, ScheduleFault>
    ensures callers { IfOk result (λ words. schedule_read callers text.now ≡ Ok words.items) }
    ensures below { IfOk result (λ words. All (λ c. c < callers) words.items) }
    ensures fault { IfErr result (IsScheduleFault (schedule_read callers text.now)) }
{
    let mut words = Vec::new(alloc);
    let mut rest = skip_gaps::<White>(text);
    while !rest.is_empty() {
        let (word, behind) = first_word::<White>(rest);
        words.push(next_caller(callers, words.len(), word)?)?;
        rest = skip_gaps::<White>(behind);
    }
    Ok(words)
}

/// A word of a schedule names a caller exactly where it is the caller's number in decimal digits.
pub fn each_word_is_a_number()
    ensures { WordsAreNumbers }
{}
