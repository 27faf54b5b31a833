//! The five counts of a journal.
ghost use Rattle.std.specs.Prelude.{◌≡◌, ◌+◌, ◌<◌, ◌^◌};
ghost use Rattle.bus_journal.specs.Tallies.{tally_of, Fits, plus};

use crate::Journal;
use crate::counts::{NONE, tally_of_line};
use crate::front::split_line;

/// The five counts of a journal.
#[derive(Clone, Copy)]
pub struct Tally {
    /// How many transfers are decided.
    pub transfers: u64,
    /// How many messages are on the bus, also those that switch a mux.
    pub messages: u64,
    /// How often a lock is taken.
    pub locks: u64,
    /// How many transfers end with an error.
    pub errors: u64,
    /// How many bytes the replies give.
    pub bytes: u64,
}

impl Tally {
    // Both together.
    fn plus(self, other: Tally) -> Tally
        requires { Fits (plus self other) }
        ensures { result ≡ plus self other }
    {
        Tally {
            transfers: self.transfers + other.transfers,
            messages: self.messages + other.messages,
            locks: self.locks + other.locks,
            errors: self.errors + other.errors,
            bytes: self.bytes + other.bytes,
        }
    }
}

/// What a journal comes to.
pub fn tally_of(journal: &Journal) -> Tally
    ensures { result ≡ tally_of journal.now.entries }
{
    journal.entries_are_in_range();
    let mut tally = NONE;
    let mut rest = journal.text();
    while !rest.is_empty() {
        let (line, behind) = split_line(rest);
        tally = tally.plus(tally_of_line(line));
        rest = behind;
    }
    tally
}
