//! `Session`, which answers lines one after the other.
ghost use Rattle.std.specs.Prelude.{◌≡◌, ◌<◌, ◌++◌, ℕ, Ok, IfOk, MatchResult, codes};
ghost use Rattle.std.specs.Fmt.{decimal};
ghost use Rattle.std.specs.List.{flat_map};
ghost use Rattle.bus_journal.specs.Reports.{line_ended};
ghost use Rattle.tools.specs.Commands.{IsInRange};
ghost use Rattle.tools.specs.Dialogues.{AreReplies};
ghost use Rattle.tools.specs.Readers.{FaultIs};
ghost use Rattle.tools.specs.Replies.{replies_of};
ghost use Rattle.caller_core.specs.Runs.{command_dialogue, command_run, handles_behind};
ghost use Rattle.i2c_session.specs.Sessions.{IsAnswered, IsCommandAnswered, number_line, opening, read_of, word_line};

use crate::talk::replies_to;
use bus_journal::{push_bytes, push_number};
use caller_core::{CommandRun, MOST_COST, cost_of_command, read_behind};
use dev_handle::Handles;
use flat_world::Flat;
use i2c_base::{NoMemory, ReplyHead, Transfer, TransferKind};
use i2c_board::Accepted;
use packed::Packed;
use std::alloc::Global;
use std::marker::Model;
use tools::{Cmd, LineFault, LineWords, Text, Window};

/// Lines of a script over a board, each answered before the next one comes. A contract sees what it has come to: the open handles, the
/// devices, and how many commands there were and what they cost.
#[derive(Drop)]
pub struct Session<'b> {
    board: &'b Accepted,
    flat: Flat<'b>,
    handles: Handles,
    commands: usize,
    cost: u64,
    /// Room for a transfer.
    transfer: Transfer,
}

impl<'b> Model for Session<'b> {
    ghost use Rattle.std.specs.Prelude.{◌≡◌, ◌≤◌, length};
    ghost use Rattle.dev_handle.specs.Handles.{AreOnBoard};
    ghost use Rattle.caller_core.specs.Scripts.{MOST_COST};
    ghost use Rattle.i2c_session.specs.Sessions.{SessionView};

    ghost Value = { SessionView };

    ghost view = { λ s. record { board = s.board.now; handles = s.handles; states = s.flat.states; commands = s.commands; cost = s.cost } };

    ghost invariant = { λ s. (s.flat.board ≡ s.board.now) × (length s.handles ≤ s.commands) × (s.commands ≤ 1000) × AreOnBoard s.board.now s.handles × (s.cost ≤ MOST_COST) };
}

// A number in decimal behind a text, and the end of its line.
fn numbered_line(alloc: Global, before: &[u8], number: u64) -> Result<Vec<u8>, NoMemory>
    ensures { IfOk result (λ line. line.items ≡ before.now ++ (decimal number ++ codes "\n")) }
{
    let mut line = Vec::new(alloc);
    push_bytes(&mut line, before)?;
    push_number(&mut line, number)?;
    push_bytes(&mut line, b"\n")?;
    Ok(line)
}

// A text of these bytes.
fn text_of(alloc: Global, bytes: &[u8]) -> Result<Text, NoMemory>
    ensures { IfOk result (λ text. text.bytes ≡ bytes.now) }
{
    let mut text = Text::new(alloc);
    text.reserve(bytes.len())?;
    text.push(bytes);
    Ok(text)
}

// The answer to a line whose word is refused.
fn word_text(alloc: Global, word: u16) -> Result<Text, NoMemory>
    ensures { IfOk result (λ text. text.bytes ≡ word_line word) }
{
    let line = numbered_line(alloc, b"word ", u64::from(word))?;
    text_of(alloc, line.as_slice())
}

// The answer to a line without a command, after so many.
fn number_text(alloc: Global, commands: usize) -> Result<Text, NoMemory>
    ensures { IfOk result (λ text. text.bytes ≡ number_line commands) }
{
    let line = numbered_line(alloc, b"command ", commands as u64)?;
    text_of(alloc, line.as_slice())
}

// The answer to a command: what it prints of the replies, and its number.
fn command_text(
    alloc: Global,
    run: &CommandRun,
    replies: &Packed<ReplyHead>,
    number: usize,
) -> Result<Text, NoMemory>
    requires { AreReplies (command_dialogue run.now) 0 (replies_of replies.now.items) }
    ensures { IfOk result (λ text. text.bytes ≡ flat_map line_ended ((command_dialogue run.now).lines (replies_of replies.now.items)) ++ number_line number) }
{
    let line = numbered_line(alloc, b"command ", number as u64)?;
    let room = run.most().checked_add(line.len()).ok_or(NoMemory)?;
    let mut text = Text::new(alloc);
    text.reserve(room)?;
    run.print(Window { replies, from: 0 }, &mut text);
    text.push(line.as_slice());
    Ok(text)
}

impl<'b> Session<'b> {
    /// No line has come yet. The devices are as the board says that they are opened.
    pub fn open(alloc: Global, board: &'b Accepted) -> Result<Self, NoMemory>
        ensures { IfOk result (λ s. s ≡ opening board.now) }
    {
        Ok(Session {
            board,
            flat: Flat::open(alloc, board)?,
            handles: Handles::new(alloc),
            commands: 0,
            cost: 0,
            transfer: Transfer::new(0, TransferKind::Smbus, false),
        })
    }

    /// Answers a line: `word N` where its word N, from 0, is refused, and else what a script prints of its command, if it has one, and
    /// `command N`, the number of commands so far. A refused line leaves all as it is; so do one command above 1,000, and one whose cost
    /// with those before it is above 1,000,000, which are refused at word 0. It fails only when out of memory, and then the session is
    /// over.
    pub fn answer(&mut self, alloc: Global, line: &[u8]) -> Result<Text, NoMemory>
        ensures { IfOk result (λ text. IsAnswered self.old line.now text.bytes self.new) }
    {
        match self.read(alloc, line) {
            Ok(Some(cmd)) => self.run(alloc, cmd),
            Ok(None) => number_text(alloc, self.commands),
            Err(LineFault::Word(word)) => word_text(alloc, word),
            Err(LineFault::Memory) => Err(NoMemory),
        }
    }

    // Reads a line.
    fn read(&self, alloc: Global, line: &[u8]) -> Result<Option<Cmd>, LineFault>
        ensures { MatchResult result (λ o. read_of self.now line.now ≡ Ok o) (FaultIs (read_of self.now line.now)) }
    {
        let mut words = LineWords::new(alloc);
        let limit = self.board.board().limit();
        read_behind(alloc, &mut words, line, limit, self.commands)
    }

    // Runs a command, unless it costs too much.
    fn run(&mut self, alloc: Global, cmd: Cmd) -> Result<Text, NoMemory>
        requires range { (limit : ℕ) × IsInRange limit cmd }
        requires few { self.old.commands < 1000 }
        ensures { IfOk result (λ text. IsCommandAnswered self.old (command_run self.old.board self.old.handles cmd) (handles_behind self.old.board self.old.handles cmd) text.bytes self.new) }
    {
        self.commands += 1;
        let run = CommandRun::open(alloc, self.board, &mut self.handles, cmd)?;
        let cost = cost_of_command(self.board, &run, &mut self.transfer);
        if self.cost + cost > MOST_COST {
            self.commands -= 1;
            return word_text(alloc, 0);
        }
        let replies = replies_to(alloc, &run, &mut self.flat, &mut self.transfer)?;
        self.cost += cost;
        command_text(alloc, &run, &replies, self.commands)
    }
}
