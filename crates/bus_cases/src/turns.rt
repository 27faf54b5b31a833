//! Two callers as running threads that take turns at a gate.

use crate::case::{Call, Case, Files};
use crate::show::put_lines;
use case_parts::Page;
use i2c_base::{LockId, SegId};
use i2c_outside::{Point, TurnGate};
use std::alloc::Global;
use std::sync::Wait;
use std::thread::Threads;

/// The place of a line of a journal, from 0: of those that begin so, of the one behind so many others.
fn place_of(journal: &str, front: &str, before: u32) -> Option<u64> {
    let mut left = before;
    let mut place: u64 = 0;
    for line in journal.lines() {
        if line.starts_with(front) {
            if left == 0 {
                return Some(place);
            }
            left = left.saturating_sub(1);
        }
        place = place.saturating_add(1);
    }
    None
}

/// The line of an entry of a caller begins so.
fn front_of(alloc: Global, what: &str, caller: u8) -> Option<String> {
    format!(in alloc; "{what} {caller} ").ok()
}

/// The second settle of the other stands behind the first free of the held caller and before its settle.
fn is_between(alloc: Global, journal: &str, held: u8, other: u8) -> Option<bool> {
    let free = place_of(journal, front_of(alloc, "free", held)?.as_str(), 0)?;
    let settle = place_of(journal, front_of(alloc, "settle", held)?.as_str(), 0)?;
    let second = place_of(journal, front_of(alloc, "settle", other)?.as_str(), 1)?;
    Some(free < second && second < settle)
}

/// The sections of a report, and where in its journal the other caller settled.
fn put_report(page: &mut Page, alloc: Global, call: &Call, held: u8, other: u8) {
    let (sections, journal) = call.report().unwrap_or(("", ""));
    put_lines(page, sections);
    page.put(match is_between(alloc, journal, held, other) {
        Some(true) => "the second settle stands between the free and the settle\n",
        _ => "the second settle stands elsewhere\n",
    });
}

/// Makes a call with a gate at the free of the first root, where `held` is held until `other` has settled twice. Puts
/// whether a hold was in vain, the sections, and whether the second settle of the other stands behind the first free of
/// the held caller and before its settle.
pub fn put_turns<H: Threads + Wait + Sync>(
    rt: &H,
    page: &mut Page,
    alloc: Global,
    files: &Files,
    call: &mut Call,
    held: u8,
    other: u8,
) {
    let gate = TurnGate::new(held, other, Point::Freed(LockId::Bus(SegId(0))));
    page.require(
        call.make_under(rt, alloc, &Case::new(alloc), files, &gate)
            .is_some(),
    );
    page.put(if gate.gave_up() {
        "the gate gave up\n"
    } else {
        "in turns\n"
    });
    put_report(page, alloc, call, held, other);
}
