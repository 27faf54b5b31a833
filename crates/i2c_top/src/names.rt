//! The names of the files of a replay, taken from the words.
ghost use Rattle.std.specs.Prelude.{◌≡◌, ◌+◌, ◌≤◌, true, length, map, string_bytes};
ghost use Rattle.i2c_base.specs.Limits.{MOST_CALLERS};
ghost use Rattle.i2c_top.specs.forms.Caches.{is_cached};
ghost use Rattle.i2c_top.specs.forms.Replays.{first_script, is_replay, is_run, names_told, replay_names, run_names, ArePlaced};

use crate::words::{BOARD, word_at, words_from};

/// The place of the schedule among the words of a replay.
pub const SCHEDULE: u8 = 2;

/// The places of the first script: of a run, which has no schedule, and of a replay.
pub const SCRIPT_OF_RUN: u8 = 2;

pub const SCRIPT_OF_REPLAY: u8 = 3;

/// The names of the files of a replay. A run is one without a schedule.
#[derive(Clone, Copy)]
pub struct ReplayNames<'a> {
    pub board: &'a str,
    pub schedule: Option<&'a str>,
    pub scripts: &'a [String],
}

impl<'a> ReplayNames<'a> {
    /// Those among the words of a replay.
    pub fn of_replay(words: &'a [String]) -> Self
        requires { is_replay (map string_bytes words.now) ≡ true }
        ensures value { names_told result ≡ replay_names (map string_bytes words.now) }
        ensures placed { ArePlaced (map string_bytes words.now) (names_told result) }
    {
        Self::scheduled(words)
    }

    /// Those among the words of a run.
    pub fn of_run(words: &'a [String]) -> Self
        requires { is_run (map string_bytes words.now) ≡ true }
        ensures value { names_told result ≡ run_names (map string_bytes words.now) }
        ensures placed { ArePlaced (map string_bytes words.now) (names_told result) }
    {
        ReplayNames {
            board: word_at(words, BOARD as usize),
            schedule: None,
            scripts: words_from(words, SCRIPT_OF_RUN as usize),
        }
    }

    /// Those among the words of a replay with register caches, which stand at the same places.
    pub fn of_cached(words: &'a [String]) -> Self
        requires { is_cached (map string_bytes words.now) ≡ true }
        ensures value { names_told result ≡ replay_names (map string_bytes words.now) }
        ensures placed { ArePlaced (map string_bytes words.now) (names_told result) }
    {
        Self::scheduled(words)
    }

    // Those at the places of a board, a schedule and 1 to `MOST_CALLERS` scripts.
    fn scheduled(words: &'a [String]) -> Self
        requires least { 4 ≤ length words.now }
        requires most { length words.now ≤ 3 + MOST_CALLERS }
        ensures value { names_told result ≡ replay_names (map string_bytes words.now) }
        ensures placed { ArePlaced (map string_bytes words.now) (names_told result) }
    {
        ReplayNames {
            board: word_at(words, BOARD as usize),
            schedule: Some(word_at(words, SCHEDULE as usize)),
            scripts: words_from(words, SCRIPT_OF_REPLAY as usize),
        }
    }

    /// The place of the first script among the words.
    pub fn first_script(&self) -> u8
        ensures { result ≡ first_script (names_told self.now).schedule }
    {
        match self.schedule {
            None => SCRIPT_OF_RUN,
            Some(_) => SCRIPT_OF_REPLAY,
        }
    }
}
