//! A call with register caches beside the same call without them.

use crate::case::{Call, Case, Files, add_each, add_word};
use case_parts::{Page, same_registers};
use std::alloc::{AllocError, Global};
use std::sync::Wait;
use std::thread::Threads;

/// The words of a call, as those of a replay.
fn replay_words(alloc: Global, call: &Call) -> Result<Vec<String>, AllocError> {
    let mut words = Vec::new(alloc);
    add_word(&mut words, alloc, "replay")?;
    add_each(&mut words, alloc, call.words_from(1))?;
    Ok(words)
}

/// Makes a call, and makes it as a replay, in the same case. Puts whether the sections are the same, and the devices but for their
/// pointers; and how many entries the journals of both have.
pub fn put_replayed<H: Threads + Wait + Sync>(
    rt: &H,
    page: &mut Page,
    alloc: Global,
    case: &Case,
    files: &Files,
    call: &mut Call,
) -> Option<()> {
    call.make(rt, alloc, case, files)?;
    let mut replay = Call::new(alloc)?;
    replay.words = replay_words(alloc, call).ok()?;
    replay.make(rt, alloc, case, files)?;
    let (sections, journal) = call.report()?;
    let (others, whole) = replay.report()?;
    page.put(if sections == others {
        "the same sections"
    } else {
        "other sections"
    });
    let devices = call.outside.rig.states();
    page.put(if same_registers(alloc, devices, replay.outside.rig.states()) {
        ", the same registers"
    } else {
        ", other registers"
    });
    page.put_number(", ", journal.lines().count() as u64);
    page.put_number(" entries for ", whole.lines().count() as u64);
    page.put("\n");
    Some(())
}
