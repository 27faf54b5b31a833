//! The text of a value change dump.
ghost use Rattle.std.specs.Prelude.{◌≡◌, ◌++◌, IfOk, OnOk};
ghost use Rattle.bus_waves.specs.Dumps.{BOTH_HIGH, change_lines, dump_of, head_of, is_start, lines_from, scope_text, scl_line, sda_line, start_line, started_line, starts_by, starts_from, time_line};

use bus_journal::{push_bytes, push_number};
use i2c_base::{NoMemory, SegId};
use std::alloc::Global;

/// What a step is told as, in nanoseconds.
const STEP_NS: u64 = 1250;

/// The levels before the first step.
const BOTH_HIGH: u8 = 3;

/// The head of a dump: the unit of its times, its root, and the wires.
const TIMESCALE: &[u8] = b"$timescale 1 ns $end\n";

const SCOPE: &[u8] = b"$scope module root";

const WIRES: &[u8] = b"$var wire 1 ! scl $end\n$var wire 1 \" sda $end\n$upscope $end\n";

/// The end of the definitions, and the levels before the first step.
const DEFINED: &[u8] = b"$enddefinitions $end\n#0\n$dumpvars\n1!\n1\"\n$end\n";

// SDA has fallen while SCL was high.
fn is_start(was: u8, is: u8) -> bool
    ensures { result ≡ is_start was is }
{
    was == BOTH_HIGH && is == 1
}

// How many starts there were, with this step.
fn starts_by(was: u8, is: u8, starts: u64) -> u64
    ensures { result ≡ starts_by was is starts }
{
    if is_start(was, is) {
        starts.saturating_add(1)
    } else {
        starts
    }
}

fn push_time(out: &mut Vec<u8>, time: u64) -> Result<(), NoMemory>
    ensures { OnOk result (out.new.items ≡ out.old.items ++ time_line time) }
{
    push_bytes(out, b"#")?;
    push_number(out, time)?;
    push_bytes(out, b"\n")
}

fn push_start(out: &mut Vec<u8>, time: u64, starts: u64) -> Result<(), NoMemory>
    ensures { OnOk result (out.new.items ≡ out.old.items ++ start_line time starts) }
{
    push_bytes(out, b"$comment start ")?;
    push_number(out, starts)?;
    push_bytes(out, b" at ")?;
    push_number(out, time)?;
    push_bytes(out, b" $end\n")
}

// The comment of a start, where the step is one.
fn push_started(out: &mut Vec<u8>, was: u8, is: u8, time: u64, starts: u64) -> Result<(), NoMemory>
    ensures { OnOk result (out.new.items ≡ out.old.items ++ started_line was is time starts) }
{
    if is_start(was, is) {
        push_start(out, time, starts)
    } else {
        Ok(())
    }
}

// The comments of all starts.
fn push_starts(out: &mut Vec<u8>, steps: &[u8]) -> Result<(), NoMemory>
    ensures { OnOk result (out.new.items ≡ out.old.items ++ starts_from BOTH_HIGH 0 0 steps.now) }
{
    let mut was = BOTH_HIGH;
    let mut time: u64 = 0;
    let mut starts: u64 = 0;
    for (_number, step) in steps.iter().enumerate() {
        let is = *step;
        time = time.saturating_add(STEP_NS);
        starts = starts_by(was, is, starts);
        push_started(out, was, is, time, starts)?;
        was = is;
    }
    Ok(())
}

// The level of SCL, where it isn't what it was.
fn scl_line(was: u8, is: u8) -> &'static [u8]
    ensures { result.now ≡ scl_line was is }
{
    if was % 2 == is % 2 {
        &[]
    } else if is % 2 == 1 {
        b"1!\n"
    } else {
        b"0!\n"
    }
}

// That of SDA.
fn sda_line(was: u8, is: u8) -> &'static [u8]
    ensures { result.now ≡ sda_line was is }
{
    if was / 2 == is / 2 {
        &[]
    } else if is / 2 == 1 {
        b"1\"\n"
    } else {
        b"0\"\n"
    }
}

// A step at which a level changes.
fn push_change(out: &mut Vec<u8>, was: u8, is: u8, time: u64) -> Result<(), NoMemory>
    ensures { OnOk result (out.new.items ≡ out.old.items ++ change_lines was is time) }
{
    if was == is {
        return Ok(());
    }
    push_time(out, time)?;
    push_bytes(out, scl_line(was, is))?;
    push_bytes(out, sda_line(was, is))
}

// All steps, and the end of the last.
fn push_steps(out: &mut Vec<u8>, steps: &[u8]) -> Result<(), NoMemory>
    ensures { OnOk result (out.new.items ≡ out.old.items ++ lines_from BOTH_HIGH 0 steps.now) }
{
    let mut was = BOTH_HIGH;
    let mut time: u64 = 0;
    for (_number, step) in steps.iter().enumerate() {
        let is = *step;
        time = time.saturating_add(STEP_NS);
        push_change(out, was, is, time)?;
        was = is;
    }
    push_time(out, time.saturating_add(STEP_NS))
}

fn push_scope(out: &mut Vec<u8>, root: SegId) -> Result<(), NoMemory>
    ensures { OnOk result (out.new.items ≡ out.old.items ++ scope_text root) }
{
    push_bytes(out, SCOPE)?;
    push_number(out, u64::from(root.0))?;
    push_bytes(out, b" $end\n")
}

fn push_head(out: &mut Vec<u8>, root: SegId) -> Result<(), NoMemory>
    ensures { OnOk result (out.new.items ≡ out.old.items ++ head_of root) }
{
    push_bytes(out, TIMESCALE)?;
    push_scope(out, root)?;
    push_bytes(out, WIRES)
}

/// The text of a value change dump of the two wires of a root (IEEE Std 1364-2005, section 18), by the levels behind each step of its
/// controller, as numbers: 1 where SCL is high, and 2 where SDA is; both are high before the first step. A step is told as 1,250 ns.
/// A comment for each start, with its number and its time, stands among the definitions, since viewers are known that end a dump at a
/// comment among its changes.
pub fn dump_text(alloc: Global, root: SegId, steps: &[u8]) -> Result<Vec<u8>, NoMemory>
    ensures { IfOk result (λ text. text.items ≡ dump_of root steps.now) }
{
    let mut out = Vec::new(alloc);
    push_head(&mut out, root)?;
    push_starts(&mut out, steps)?;
    push_bytes(&mut out, DEFINED)?;
    push_steps(&mut out, steps)?;
    Ok(out)
}
