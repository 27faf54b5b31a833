//! Callers whose entries come before those of all others.

use crate::case::{Call, Case, Files};
use case_parts::{Page, parted};
use std::alloc::Global;
use std::sync::Wait;
use std::thread::Threads;

/// The caller of a line of a journal, which is its second word.
fn caller_of(line: &str) -> Option<u8> {
    let (_, behind) = parted(line, ' ');
    let (caller, _) = parted(behind, ' ');
    caller.parse().ok()
}

/// The line is an entry of one of the first so many callers.
fn is_of_first(line: &str, many: u8) -> bool {
    match caller_of(line) {
        Some(caller) => caller < many,
        None => false,
    }
}

/// Each entry of the first so many callers comes before all those of the others.
fn are_before(journal: &str, many: u8) -> bool {
    let mut others = false;
    for line in journal.lines() {
        if !is_of_first(line, many) {
            others = true;
        } else if others {
            return false;
        }
    }
    others
}

/// Makes a call so many times, and puts in how many of its runs each entry of the first so many callers comes before all those of
/// the others.
pub fn put_behind<H: Threads + Wait + Sync>(
    rt: &H,
    page: &mut Page,
    alloc: Global,
    files: &Files,
    call: &mut Call,
    many: u8,
    times: u32,
) {
    let mut runs: u64 = 0;
    for _ in 0..times {
        page.require(call.make(rt, alloc, &Case::new(alloc), files).is_some());
        let (_, journal) = call.report().unwrap_or(("", ""));
        if are_before(journal, many) {
            runs = runs.saturating_add(1);
        }
    }
    page.put_number("the others come behind in ", runs);
    page.put_number(" of ", u64::from(times));
    page.put(" runs\n");
}
