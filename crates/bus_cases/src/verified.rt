//! What the checker of journals says of the report that a call wrote.

use crate::case::{Call, Case, Files, add_each, add_word};
use std::alloc::{AllocError, Global};
use std::sync::Wait;
use std::thread::Threads;

/// The name of the file of a report. No file of a table has it, since a word has no space.
const REPORT: &str = "the report";

/// The words by which the report of a call is verified: over its board, with its scripts.
fn verify_words(alloc: Global, call: &Call) -> Result<Vec<String>, AllocError> {
    let mut words = Vec::new(alloc);
    add_word(&mut words, alloc, "verify")?;
    add_word(&mut words, alloc, call.word(1))?;
    add_word(&mut words, alloc, REPORT)?;
    add_each(&mut words, alloc, call.words_from(call.first_script()))?;
    Ok(words)
}

/// These files, and the report that a call wrote.
fn with_report(alloc: Global, files: &Files, call: &Call) -> Option<Files> {
    let mut all = files.clone().ok()?;
    let report = Vec::from_slice(alloc, call.outside.sink.bytes()).ok()?;
    all.insert(String::from_str(alloc, REPORT).ok()?, report)
        .ok()?;
    Some(all)
}

/// How many entries a call of `verify` told to be verified.
fn entries_told(check: &Call) -> Option<usize> {
    let line = str::from_utf8(check.outside.sink.bytes()).ok()?;
    line.strip_prefix("verified ")?
        .strip_suffix(" entries\n")?
        .parse()
        .ok()
}

/// Whether the report that a call of `run` or `replay` wrote is verified, with an entry for each line of its journal. None where
/// there is no memory.
pub fn is_verified<H: Threads + Wait + Sync>(
    rt: &H,
    alloc: Global,
    files: &Files,
    call: &Call,
) -> Option<bool> {
    let mut check = Call::new(alloc)?;
    check.words = verify_words(alloc, call).ok()?;
    let files = with_report(alloc, files, call)?;
    check.make(rt, alloc, &Case::new(alloc), &files)?;
    let (_, journal) = call.report()?;
    Some(entries_told(&check) == Some(journal.lines().count()))
}
