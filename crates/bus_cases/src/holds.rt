//! Two callers on two roots, whose ports wait for each other.

use crate::case::{Case, Files, shelf_of, sink_of};
use crate::show::put_lines;
use case_parts::Page;
use i2c_base::SegId;
use i2c_outside::OpenGate;
use i2c_physics::HoldRig;
use i2c_top::top;
use std::alloc::Global;
use std::sync::Wait;
use std::thread::Threads;

/// Makes a call with these words over a rig whose ports of two roots wait for each other. Puts whether a wait was in vain, and
/// what was written. None where there is no memory.
pub fn put_holds<H: Threads + Wait + Sync>(
    rt: &H,
    page: &mut Page,
    alloc: Global,
    files: &Files,
    words: &[String],
    held: u16,
    other: u16,
) -> Option<()> {
    let case = Case::new(alloc);
    let mut shelf = shelf_of(alloc, &case, files, words)?;
    let mut sink = sink_of(alloc, &case)?;
    let mut rig = HoldRig::new(SegId(held), SegId(other));
    let _ = top(rt, alloc, words, &mut shelf, &mut sink, &mut rig, &OpenGate);
    page.put(if rig.gave_up() {
        "a wait gave up\n"
    } else {
        "at once\n"
    });
    put_lines(page, str::from_utf8(sink.bytes()).ok()?);
    Some(())
}
