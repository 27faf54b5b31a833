//! The program of worked examples, of what stands below the core. It reads a table from the standard input. Each line is a front, a
//! colon and words, and is answered by a line of the same front with an answer for each word:
//!
//! - `chip KIND:` events for the chip of a mux (`chips::answer_all`)
//! - `tree BOARD:` questions on the tree of a board of `data/` (`trees::answer_all`)
//! - `wires BOARD:` calls on the wires of its first root (`wires::answer_all`)
//! - `held LOOKS..:` calls on a port over two wires of no board, with register devices that hold the clock (`held::answer_all`)
//! - `edges BOARD:` reads of registers on its first root, and how often SCL rises in each (`reads::answer_all`)
//! - `flat BOARD:` transfers in the flat world, with a semicolon between them (`transfers::answer_all`)
//! - `line LIMIT:` lines of a script over a board with this block limit, with a semicolon between them (`lines::answer_all`)
//!
//! Lines that are empty or begin with `#` are for the reader. The file `stdout` has what is due, by hand: the answers of chips by the data
//! sheets of NXP, of trees by Linux i2c-topology, of wires by UM10204 section 3.1, of transfers by SMBus 3.2, Linux fault-codes and the
//! tables of the devices, of lines by docs/manual/scripts.md. None is taken from what the program printed.
#![tactic(auto)]

mod bench;
mod chips;
mod driver;
mod held;
mod lines;
mod reads;
mod transfers;
mod trees;
mod watched;
mod wires;

use bench::answer_line;
use case_parts::Page;
use std::io;
use std::rt::Files;

// Takes a line that was read, and prints its answers.
fn take<H: Files + Print + AllocGlobal>(
    rt: &H,
    page: &mut Page,
    line: io::Result<String>,
) -> io::Result<()> {
    let line = line?;
    if !line.is_empty() && !line.starts_with('#') {
        answer_line(rt, page, line.as_str());
    }
    page.print(rt)
}

fn main(rt: HostRuntime) -> io::Result<()> {
    let mut page = Page::new(rt.alloc());
    for line in rt.lines(rt.alloc()) {
        take(&rt, &mut page, line)?;
    }
    Ok(())
}
