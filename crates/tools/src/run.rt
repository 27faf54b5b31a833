//! Commands as they run, a row a form.

ghost use Rattle.std.specs.Prelude.{◌≡◌, ℕ, true, List, ◌+◌, ◌-◌, ◌<◌, ◌≤◌, ◌++◌, IfOk};
ghost use Rattle.std.specs.List.{flat_map};
ghost use Rattle.bus_journal.specs.Reports.{line_ended};
ghost use Rattle.i2c_base.specs.Replies.{reply_by};
ghost use Rattle.tools.specs.Commands.{IsToolInRange, tool_run};
ghost use Rattle.tools.specs.Dialogues.{MOST_PLACES, AreAlike, AreReplies, next_place};
ghost use Rattle.tools.specs.Runs.{dialogue_of};

pub(crate) mod call;
pub(crate) mod chain;
pub(crate) mod dump;
pub(crate) mod lines;
pub(crate) mod messages;
mod scan;
mod table;

use crate::command::{Detect, Dump, ToolCmd, run_of};
use crate::replies::Window;
use crate::text::Text;
use call::HeldCall;
use chain::{Chain, skips};
use i2c_base::{NoMemory, ReplyHead, Transfer};
use i2c_board::Accepted;
use lines::KnownLines;
use messages::Messages;
use scan::MOST_SCANNED;
use std::alloc::Global;

/// A command as it runs: what the board's answers leave of it. How far it has come, and the replies, are its caller's.
#[derive(Drop)]
pub enum ToolRun {
    /// Asks for nothing, and prints these lines.
    Says(KnownLines),
    /// Makes a call, and prints its value.
    Calls(HeldCall),
    /// Sends a byte, then receives one, and prints that.
    Chains(Chain),
    /// Reads registers one after the other, and prints them as a table.
    Dumps(Dump),
    /// Makes one plain transfer, and prints what its messages read.
    Transfers(Messages),
    /// Probes the addresses of a bus, and prints a table of who answers.
    Scans(Detect),
}

impl ToolRun {
    /// A tool that begins over a board.
    pub fn open(alloc: Global, board: &Accepted, tool: ToolCmd) -> Result<Self, NoMemory>
        requires { (limit : ℕ) × IsToolInRange limit tool }
        ensures { IfOk result (λ r. r ≡ tool_run board.now tool) }
    {
        run_of(alloc, board.board(), tool)
    }

    /// How many places it has.
    #[inline(always)]
    pub fn places(&self) -> u16
        ensures value { result ≡ (dialogue_of self.now).places }
        ensures few { result ≤ MOST_PLACES }
    {
        match self {
            ToolRun::Says(_) => 0,
            ToolRun::Calls(_) => 1,
            ToolRun::Chains(_) => 2,
            ToolRun::Dumps(dump) => dump::places(dump),
            ToolRun::Transfers(_) => 1,
            ToolRun::Scans(detect) => detect.probes(),
        }
    }

    /// Puts the transfer at a place in place of another.
    #[inline(always)]
    pub fn put(&self, place: u16, transfer: &mut Transfer)
        requires { place < (dialogue_of self.now).places }
        ensures { transfer.new ≡ (dialogue_of self.now).at place }
    {
        match self {
            ToolRun::Says(_) => {}
            ToolRun::Calls(call) => call.put(transfer),
            ToolRun::Chains(chain) => chain.put(place, transfer),
            ToolRun::Dumps(dump) => dump::put(dump, place, transfer),
            ToolRun::Transfers(messages) => messages.put(transfer),
            ToolRun::Scans(detect) => detect.put(place, transfer),
        }
    }

    /// The transfer at a place asks for the same as the one before, but for the bytes that it writes: what it costs and what it
    /// may bring needn't be asked again. It may do so where none is said to.
    #[inline(always)]
    pub fn repeats(&self, place: u16) -> bool
        ensures later { result ≡ true → 0 < place }
        ensures alike { result ≡ true → AreAlike ((dialogue_of self.now).at (place - 1)) ((dialogue_of self.now).at place) }
    {
        match self {
            ToolRun::Says(_) => false,
            ToolRun::Calls(_) => false,
            ToolRun::Chains(_) => false,
            ToolRun::Dumps(dump) => dump::repeats(dump, place),
            ToolRun::Transfers(_) => false,
            ToolRun::Scans(_) => false,
        }
    }

    /// The place after a reply, whatever bytes it brings.
    #[inline(always)]
    pub fn behind(&self, place: u16, head: ReplyHead) -> u16
        requires { place < (dialogue_of self.now).places }
        ensures { (bytes : List ℕ) → result ≡ next_place (dialogue_of self.now) place (reply_by head bytes) }
    {
        match self {
            ToolRun::Says(_) => place + 1,
            ToolRun::Calls(_) => place + 1,
            ToolRun::Chains(_) => place + 1 + skips(head),
            ToolRun::Dumps(dump) => dump::behind(dump, place, head),
            ToolRun::Transfers(_) => place + 1,
            ToolRun::Scans(detect) => place + 1 + detect.skips(head),
        }
    }

    /// Prints its lines.
    pub fn print(&self, replies: Window<'_>, out: &mut Text)
        requires fit { AreReplies (dialogue_of self.now) 0 replies }
        requires room { (dialogue_of self.now).most ≤ out.old.room }
        ensures bytes { out.new.bytes ≡ out.old.bytes ++ flat_map line_ended ((dialogue_of self.now).lines replies.entry) }
        ensures room { out.old.room ≤ out.new.room + (dialogue_of self.now).most }
    {
        match self {
            ToolRun::Says(lines) => lines.print(out),
            ToolRun::Calls(call) => call.print(replies, out),
            ToolRun::Chains(chain) => chain.print(replies, out),
            ToolRun::Dumps(dump) => dump::print(dump, replies, out),
            ToolRun::Transfers(messages) => messages.print(replies, out),
            ToolRun::Scans(detect) => detect.print(replies, out),
        }
    }

    /// The most bytes that it prints.
    pub fn most(&self) -> usize
        ensures { result ≡ (dialogue_of self.now).most }
    {
        match self {
            ToolRun::Says(lines) => lines.size(),
            ToolRun::Calls(call) => call.most(),
            ToolRun::Chains(_) => MOST_CHAINED,
            ToolRun::Dumps(dump) => dump::most(dump),
            ToolRun::Transfers(messages) => messages.most(),
            ToolRun::Scans(_) => MOST_SCANNED,
        }
    }
}

// The most bytes of the line of a chain.
const MOST_CHAINED: usize = 27;
