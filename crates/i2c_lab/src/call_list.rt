//! A list of calls that fail, as one file more of a replay.
ghost use Rattle.std.specs.Prelude.{◌≡◌, false, ◌<◌, ◌≤◌, ◌==◌, ◌⊎◌, Some, None, Ok, Err, OnOk, OnErr, IfOk, IfErr, IfSome};
ghost use Rattle.std.specs.List.{position};
ghost use Rattle.i2c_top.specs.Runs.{HasRun};
ghost use Rattle.i2c_top.specs.declared.status.Status.TheVariants as status;
ghost use Rattle.i2c_lab.specs.CallLists.{call_around, call_at, call_list, call_named, IsBadWord, IsListFault, ListsCalls, MOST_WORDS};

use crate::number::number_in;
use i2c_base::SegId;
use i2c_board::Accepted;
use i2c_top::extra::ExtraFile;
use i2c_top::{Status, White};
use std::alloc::Global;
use std::marker::Model;
use tools::{first_word, skip_gaps};

/// The most words of a list.
const MOST_WORDS: usize = 1_000_000;

/// The calls that fail, by root and number, the first call on a port being 0. A contract sees them in the list's order.
#[derive(Drop)]
pub struct CallList {
    calls: Vec<(SegId, u32)>,
}

impl Model for CallList {
    ghost use Rattle.std.specs.Prelude.{ℕ, List};

    ghost Value = { List (ℕ × ℕ) };

    ghost view = { λ l. l.calls.items };
}

impl CallList {
    pub fn into_calls(self) -> Vec<(SegId, u32)>
        ensures { result.items ≡ self }
    {
        self.calls
    }
}

// Where the first colon stands.
fn colon_in(word: &[u8]) -> Option<usize>
    ensures { result ≡ position (λ b. b == 58) word.now }
{
    word.iter().position(|byte| *byte == b':')
}

// The call that the numbers before and after a colon name.
fn call_around(roots: u16, root: &[u8], call: &[u8]) -> Option<(SegId, u32)>
    ensures { result ≡ call_around roots root.now call.now }
{
    let root = number_in(root, u32::MAX)?;
    let call = number_in(call, u32::MAX)?;
    if root < u32::from(roots) {
        Some((SegId(root as u16), call))
    } else {
        None
    }
}

// The call that a word names.
fn call_named(roots: u16, word: &[u8]) -> Option<(SegId, u32)>
    ensures { result ≡ call_named roots word.now }
{
    let colon = colon_in(word)?;
    call_around(roots, &word[..colon], &word[colon + 1..])
}

// The call that a word after so many names; one word too many names none.
fn call_at(roots: u16, index: usize, word: &[u8]) -> Option<(SegId, u32)>
    ensures value { result ≡ call_at roots index word.now }
    ensures room { IfSome result (λ _. index < MOST_WORDS) }
{
    if index >= MOST_WORDS {
        None
    } else {
        call_named(roots, word)
    }
}

// The next call of a list, after those that are there, or the refusal of its word.
fn next_call(roots: u16, index: usize, word: &[u8]) -> Result<(SegId, u32), Status>
    requires { index ≤ MOST_WORDS }
    ensures ok { IfOk result (λ c. call_at roots index word.now ≡ Some c) }
    ensures room { OnOk result (index < MOST_WORDS) }
    ensures err { OnErr result (call_at roots index word.now ≡ None) }
    ensures fault { IfErr result (λ e. e ≡ status.Faults index) }
{
    match call_at(roots, index, word) {
        None => Err(Status::Faults(index as u32)),
        Some(call) => Ok(call),
    }
}

// The calls that a text lists, on a board with so many roots, or the refusal of its first word that names none.
fn read_calls(alloc: Global, roots: u16, text: &[u8]) -> Result<Vec<(SegId, u32)>, Status>
    ensures calls { IfOk result (λ calls. call_list roots text.now ≡ Ok calls.items) }
    ensures refused { IfErr result (λ e. (e ≡ status.Memory) ⊎ IsBadWord (call_list roots text.now) e) }
{
    let mut calls = Vec::new(alloc);
    let mut rest = skip_gaps::<White>(text);
    while !rest.is_empty() {
        let (word, behind) = first_word::<White>(rest);
        calls.push(next_call(roots, calls.len(), word)?)?;
        rest = skip_gaps::<White>(behind);
    }
    Ok(calls)
}

impl ExtraFile for CallList {
    ghost in_word = { false };

    ghost spells = { ListsCalls };

    ghost fails = { IsListFault };

    ghost runs = { λ b calls texts words bytes logs states counts. HasRun b texts (Some words) bytes logs states counts };

    fn in_word() -> bool {
        false
    }

    fn read(alloc: Global, board: &Accepted, text: &[u8]) -> Result<Self, Status>
        ensures calls { IfOk result (ListsCalls board.now text.now) }
        ensures refused { IfErr result (λ e. (e ≡ status.Memory) ⊎ IsListFault board.now text.now e) }
    {
        let roots = board.board().roots().len() as u16;
        let calls = read_calls(alloc, roots, text)?;
        Ok(CallList { calls })
    }
}
