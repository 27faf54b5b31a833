//! A caller without a core: what its script asks for next.

use case_parts::parted;
use i2c_base::{Reply, Transfer, TransferKind};
use i2c_board::Accepted;
use std::alloc::Global;
use tools::{Cmd, LineWords, ToolRun, each_field_is_in_range, each_line_is_read, read_line};

/// What is left of a script, how many transfers of its first line were replied to, and its board.
#[derive(Clone, Copy)]
pub struct Asker<'s> {
    rest: &'s str,
    taken: u16,
    board: &'s Accepted,
}

/// The transfer at a place, from 0, of those that the line of a tool asks for.
fn transfer_at(alloc: Global, line: &str, board: &Accepted, place: u16) -> Option<Transfer> {
    each_line_is_read();
    each_field_is_in_range();
    let limit = board.board().limit();
    let mut words = LineWords::new(alloc);
    let Ok(Some(command)) = read_line(alloc, &mut words, line.as_bytes(), limit) else {
        return None;
    };
    let Cmd::Tool(tool) = command else {
        return None;
    };
    let run = ToolRun::open(alloc, board, tool).ok()?;
    if place >= run.places() {
        return None;
    }
    let mut transfer = Transfer::new(0, TransferKind::Smbus, false);
    run.put(place, &mut transfer);
    Some(transfer)
}

impl<'s> Asker<'s> {
    /// A script whose lines were not asked yet, each of which asks for something.
    pub fn of(script: &'s str, board: &'s Accepted) -> Self {
        Asker {
            rest: script,
            taken: 0,
            board,
        }
    }

    /// What it asks for next, none where its script is used up.
    pub fn next(&self, alloc: Global) -> Option<Transfer> {
        let (line, _) = self.rest.split_once('\n')?;
        transfer_at(alloc, line, self.board, self.taken)
    }

    /// Takes a reply. A line is over with its last transfer, and with one that fails.
    pub fn take(&mut self, alloc: Global, reply: &Reply) {
        self.taken = self.taken.saturating_add(1);
        if matches!(reply, Reply::Err(_)) || self.next(alloc).is_none() {
            self.taken = 0;
            let (_, rest) = parted(self.rest, '\n');
            self.rest = rest;
        }
    }
}
