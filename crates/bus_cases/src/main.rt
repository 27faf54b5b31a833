//! The program of cases: what no row of the program shows, in whole calls of the top over files, an output and a rig in memory. It reads a
//! table from the standard input, and prints what each line asks for:
//!
//! - `file NAME`: the lines up to a line `.` are a file of every call after it
//! - `case NAME`: a new case, whose output has room for 4,096 bytes, and in which nothing fails
//! - `reads N..` and `writes N..`: the reads and the writes that fail, from 0
//! - `room N`: the output has room for so many bytes
//! - `stuck`: the rig is never plugged
//! - `fails ROOT.NUMBER..`: the calls on the ports that fail, from 0 on each root
//! - `call WORD..`: calls the top with these words, and prints the status, what was written, each count of faults that
//!   isn't 0, and how often the rig was plugged and unplugged
//!   Where it wrote a report, `verify` is asked of it with the same board and scripts, and a line says so where it isn't verified.
//!   Where no call on a port fails and no plug, the same call is made over ports that drive two wires, and a line says so where
//!   the status, the output or a device is another then
//! - `edges`: prints how often SCL rose in that call, on all roots
//! - `fronts`: makes the call again for each smaller output, and prints whether each time it ends with one fault of
//!   the output, which holds the front of what was written; the case is left with the last of these outputs and its call
//! - `calls`: prints the calls on each port, as the rig kept them
//! - `device N EVENT..`: prints what device N, as the rig kept it, answers to these events
//! - `mute`: what the program's own output answers where what is behind it takes nothing
//! - `entry LINE`: reads a line of a journal back, and prints the line of its entry, or that it tells none
//! - `interleavings`: replays the two scripts of the last call, also of one behind address translators, by each schedule of 1 to 12
//!   words, and by their own with each call on the first port failing in turn; those by a schedule of 1 to 9 words over two wires too.
//!   `verify` is asked of the reports of the latter and of those with a failing call, but of no report of `atr`. The flat world is that
//!   of the board as it is written. Prints of both, in a line, how many runs there were, how many of their
//!   journals are different, how many replies they have, how many of the runs aren't those of the flat world, or are another over
//!   two wires, and how many of the reports are verified
//! - `replayed`: makes the last call, one of `cached`, and makes it as a replay. Prints whether the sections are the same, and the
//!   devices but for their pointers, and how many entries the journals of both have
//! - `words WORD..`: the words of a call that isn't made yet, for those that follow
//! - `again N`: makes the call of two callers so many times, and prints how many replies the runs have, and how many of them
//!   aren't those of the flat world
//! - `apart N`: the same of callers that share no device, and of how many kinds their sections are
//! - `turns HELD OTHER`: makes the call with a gate at the free of the first root, where caller HELD is held until caller OTHER
//!   has settled twice. Prints whether a hold was in vain, the sections, and where the second settle of OTHER stands
//! - `holds HELD OTHER`: makes the call over a rig whose port of root HELD waits at its first start until that of root OTHER has
//!   made a stop, and that of OTHER until that of HELD has come to its own. Prints whether a wait was in vain, and what was written
//! - `behind N TIMES`: makes the call so many times, and prints in how many of the runs each entry of the first N callers comes
//!   before all those of the others
//!
//! Lines that are empty or begin with `#` are for the reader. The file `stdout` has what is due, by hand, from the rules. The journals of
//! calls that fail one by one, and of several callers, are those of a model of the rules apart from the program. None is taken from what the
//! program printed.
#![tactic(auto)]

mod asker;
mod behind;
mod case;
mod entries;
mod holds;
mod interleavings;
mod mute;
mod on_wires;
mod replayed;
mod show;
mod table;
mod turns;
mod verified;

use case_parts::Page;
use std::alloc::AllocError;
use std::io;
use std::sync::Wait;
use std::thread::Threads;
use table::Table;

// Takes a line that was read, and prints what it asks for.
fn take<H: Print + AllocGlobal + Threads + Wait + Sync>(
    rt: &H,
    table: &mut Table,
    page: &mut Page,
    line: io::Result<String>,
) -> io::Result<()> {
    table.take(rt, page, line?.as_str());
    page.print(rt)
}

// Takes each line of the table.
fn take_all<H: Input + Print + AllocGlobal + Threads + Wait + Sync>(
    rt: &H,
    table: &mut Table,
    page: &mut Page,
) -> io::Result<()> {
    for line in rt.lines(rt.alloc()) {
        take(rt, table, page, line)?;
    }
    Ok(())
}

fn main(rt: HostRuntime) -> io::Result<()> {
    let mut page = Page::new(rt.alloc());
    match Table::new(rt.alloc()) {
        Some(mut table) => take_all(&rt, &mut table, &mut page),
        None => Err(io::Error::from(AllocError)),
    }
}
