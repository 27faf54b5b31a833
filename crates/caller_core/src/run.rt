//! Commands as they run: tools, drivers, and what handles are used for.

ghost use Rattle.std.specs.Prelude.{◌≡◌, ℕ, true, List, ◌+◌, ◌-◌, ◌<◌, ◌≤◌, ◌++◌, length, IfOk, OnOk};
ghost use Rattle.std.specs.List.{flat_map};
ghost use Rattle.bus_journal.specs.Reports.{line_ended};
ghost use Rattle.i2c_base.specs.Replies.{reply_by};
ghost use Rattle.dev_handle.specs.Handles.{AreOnBoard, MOST_HANDLES};
ghost use Rattle.tools.specs.Commands.{IsInRange};
ghost use Rattle.tools.specs.Dialogues.{MOST_PLACES, AreAlike, AreReplies, next_place};
ghost use Rattle.caller_core.specs.Runs.{command_dialogue, handles_behind, command_run};

use crate::handle::open_handle;
use dev_handle::Handles;
use i2c_base::{NoMemory, ReplyHead, Transfer};
use i2c_board::Accepted;
use i2c_drivers::DriverRun;
use std::alloc::Global;
use tools::{Cmd, Text, ToolRun, Window};

/// A command as it runs. How far it has come, and the replies, are its script's.
#[derive(Drop)]
pub enum CommandRun {
    /// A tool, or what a handle is used for.
    Tool(ToolRun),
    /// A line of a driver.
    Driver(DriverRun),
}

impl CommandRun {
    /// A command that begins over a board, with the handles that are open before it.
    pub fn open(
        alloc: Global,
        board: &Accepted,
        handles: &mut Handles,
        cmd: Cmd,
    ) -> Result<Self, NoMemory>
        requires range { (limit : ℕ) × IsInRange limit cmd }
        requires few { length handles.old < MOST_HANDLES }
        requires on_board { AreOnBoard board.now handles.old }
        ensures run { IfOk result (λ r. r ≡ command_run board.now handles.old cmd) }
        ensures handles { OnOk result (handles.new ≡ handles_behind board.now handles.old cmd) }
        ensures count { length handles.new ≤ length handles.old + 1 }
        ensures on_board { AreOnBoard board.now handles.new }
    {
        match cmd {
            Cmd::Tool(tool) => Ok(CommandRun::Tool(ToolRun::open(alloc, board, tool)?)),
            Cmd::Driver(line) => Ok(CommandRun::Driver(DriverRun::open(
                alloc,
                board.board(),
                line,
            )?)),
            Cmd::Handle(line) => Ok(CommandRun::Tool(open_handle(alloc, board, handles, line)?)),
        }
    }

    /// How many places it has.
    #[inline(always)]
    pub fn places(&self) -> u16
        ensures value { result ≡ (command_dialogue self.now).places }
        ensures few { result ≤ MOST_PLACES }
    {
        match self {
            CommandRun::Tool(run) => run.places(),
            CommandRun::Driver(run) => run.places(),
        }
    }

    /// Puts the transfer at a place in place of another.
    #[inline(always)]
    pub fn put(&self, place: u16, transfer: &mut Transfer)
        requires { place < (command_dialogue self.now).places }
        ensures { transfer.new ≡ (command_dialogue self.now).at place }
    {
        match self {
            CommandRun::Tool(run) => run.put(place, transfer),
            CommandRun::Driver(run) => run.put(place, transfer),
        }
    }

    /// The transfer at a place asks for the same as the one before, but for the bytes that it writes. It may do so where none is
    /// said to.
    #[inline(always)]
    pub fn repeats(&self, place: u16) -> bool
        ensures later { result ≡ true → 0 < place }
        ensures alike { result ≡ true → AreAlike ((command_dialogue self.now).at (place - 1)) ((command_dialogue self.now).at place) }
    {
        match self {
            CommandRun::Tool(run) => run.repeats(place),
            CommandRun::Driver(run) => run.repeats(place),
        }
    }

    /// The place after a reply, whatever bytes it brings.
    #[inline(always)]
    pub fn behind(&self, place: u16, head: ReplyHead) -> u16
        requires { place < (command_dialogue self.now).places }
        ensures { (bytes : List ℕ) → result ≡ next_place (command_dialogue self.now) place (reply_by head bytes) }
    {
        match self {
            CommandRun::Tool(run) => run.behind(place, head),
            CommandRun::Driver(run) => run.behind(place, head),
        }
    }

    /// Prints its lines.
    pub fn print(&self, replies: Window<'_>, out: &mut Text)
        requires fit { AreReplies (command_dialogue self.now) 0 replies }
        requires room { (command_dialogue self.now).most ≤ out.old.room }
        ensures bytes { out.new.bytes ≡ out.old.bytes ++ flat_map line_ended ((command_dialogue self.now).lines replies.entry) }
        ensures room { out.old.room ≤ out.new.room + (command_dialogue self.now).most }
    {
        match self {
            CommandRun::Tool(run) => run.print(replies, out),
            CommandRun::Driver(run) => run.print(replies, out),
        }
    }

    /// The most bytes that it prints.
    #[inline(always)]
    pub fn most(&self) -> usize
        ensures { result ≡ (command_dialogue self.now).most }
    {
        match self {
            CommandRun::Tool(run) => run.most(),
            CommandRun::Driver(run) => run.most(),
        }
    }
}
