//! The text of a script: its commands, or the first word of it that is refused.

ghost use Rattle.std.specs.Prelude.{◌≡◌, ◌+◌, ◌^◌, ◌<◌, ◌≤◌, true, [], ◌∷◌, ◌++◌, Ok, length, take, drop, All, IfOk, IfErr, OnOk, MatchResult};
ghost use Rattle.dev_handle.specs.Handles.{AreOnBoard};
ghost use Rattle.tools.specs.Lines.{line_read};
ghost use Rattle.tools.specs.Splits.{words_of, joined_words, lines_of};
ghost use Rattle.tools.specs.Readers.{FaultIs};
ghost use Rattle.caller_core.specs.Reach.{commands_in, HasReach, HasReachedOn};
ghost use Rattle.caller_core.specs.Scripts.{text_read, at_most, ScriptFaultIs, fault_at};
ghost use Rattle.caller_core.specs.ScriptSteps.{IsStep, IsRefused};
ghost use Rattle.caller_core.specs.declared.script.ScriptFault.TheVariants.{Memory as NoRoomForScript};

use crate::commands::Commands;
use crate::reach::Reach;
use crate::run::CommandRun;
use dev_handle::Handles;
use i2c_base::NoMemory;
use i2c_board::Accepted;
use std::alloc::{AllocError, Global};
use tools::{Cmd, LineFault, LineWords, cut_line, push_echo, read_line};

/// The most commands of a script.
const MOST_COMMANDS: usize = 1000;

/// No line of a command is shorter, with its end: `open 0`.
const SHORTEST_LINE: usize = 7;

/// Why a script was not read.
#[derive(Clone, Copy)]
pub enum ScriptFault {
    /// The first line, from 1, that is not in the grammar, and its refused word, from 0.
    Bad { line: u32, word: u16 },
    Memory,
}

impl From<AllocError> for ScriptFault {
    ghost from_gives = { λ _ e. e ≡ NoRoomForScript };

    fn from(_error: AllocError) -> Self {
        ScriptFault::Memory
    }
}

impl From<NoMemory> for ScriptFault {
    ghost from_gives = { λ _ e. e ≡ NoRoomForScript };

    fn from(_error: NoMemory) -> Self {
        ScriptFault::Memory
    }
}

// A fault of a line, at its place.
fn fault_at(fault: LineFault, line: u32) -> ScriptFault
    ensures { result ≡ fault_at fault line }
{
    match fault {
        LineFault::Word(word) => ScriptFault::Bad { line, word },
        LineFault::Memory => ScriptFault::Memory,
    }
}

/// Reads a line after so many commands, over a board with this block limit. One more than the most is refused at its first word.
pub fn read_behind<'a>(
    alloc: Global,
    words: &mut LineWords<'a>,
    line: &'a [u8],
    limit: u8,
    count: usize,
) -> Result<Option<Cmd>, LineFault>
    requires { 1 ≤ limit }
    ensures read { MatchResult result (λ o. at_most count (line_read limit line.now) ≡ Ok o) (FaultIs (at_most count (line_read limit line.now))) }
    ensures joined { OnOk result (words.new.joined ≡ true → joined_words (words_of line.now) ≡ line.now) }
{
    let is_full = count >= MOST_COMMANDS;
    match read_line(alloc, words, line, limit) {
        Ok(None) => Ok(None),
        Ok(Some(_)) | Err(LineFault::Word(_)) if is_full => Err(LineFault::Word(0)),
        read => read,
    }
}

// Puts a command with the words of its line at the end. Where that has more than these, with one space between each two, they are put
// together in place of those of the line before.
fn keep_command(
    echo: &mut Vec<u8>,
    commands: &mut Commands,
    run: CommandRun,
    line: &[u8],
    is_joined: bool,
) -> Result<(), ScriptFault>
    requires { is_joined ≡ true → joined_words (words_of line.now) ≡ line.now }
    ensures ok { OnOk result (commands.new ≡ commands.old ++ record { echo = joined_words (words_of line.now); run = run } ∷ []) }
    ensures err { IfErr result (λ fault. fault ≡ NoRoomForScript) }
{
    if is_joined {
        return Ok(commands.push(run, line)?);
    }
    echo.clear();
    push_echo(echo, line)?;
    commands.push(run, echo.as_slice())?;
    Ok(())
}

/// What is read of a text: its commands, and what its lines reach.
#[derive(Drop)]
pub struct ReadScript {
    pub commands: Commands,
    pub reach: Reach,
}

// Reads a further line, of this number.
#[tactic(auto, using(crate::proofs::ScriptLemmas::is_step_some, crate::proofs::ScriptLemmas::is_step_none, crate::proofs::ScriptLemmas::is_refused, crate::proofs::ReachLemmas::reached_none))]
fn take_line<'a>(
    alloc: Global,
    words: &mut LineWords<'a>,
    echo: &mut Vec<u8>,
    read: &mut ReadScript,
    handles: &mut Handles,
    board: &Accepted,
    line: &'a [u8],
    number: u32,
) -> Result<(), ScriptFault>
    requires few { length handles.old ≤ length read.old.commands }
    requires on_board { AreOnBoard board.now handles.old }
    ensures ok { OnOk result (IsStep board.now number read.old.commands read.new.commands line.now handles.old handles.new) }
    ensures reach { OnOk result (HasReachedOn board.now line.now read.old.reach read.new.reach) }
    ensures err { IfErr result (IsRefused board.now number read.old.commands line.now handles.old) }
    ensures few { OnOk result (length handles.new ≤ length read.new.commands) }
    ensures on_board { AreOnBoard board.now handles.new }
{
    let limit = board.board().limit();
    match read_behind(alloc, words, line, limit, read.commands.len()) {
        Err(fault) => Err(fault_at(fault, number)),
        Ok(None) => Ok(()),
        Ok(Some(cmd)) => {
            read.reach.mark(board.board(), &cmd);
            let run = CommandRun::open(alloc, board, handles, cmd)?;
            keep_command(echo, &mut read.commands, run, line, words.joined)
        }
    }
}

// How long the line at a place of a text is, without its end and with it.
fn cut_at(text: &[u8], at: usize) -> (usize, usize)
    requires { at < length text.now }
    ensures split { lines_of (drop at text.now) ≡ take result.0 (drop at text.now) ∷ lines_of (drop result.1 (drop at text.now)) }
    ensures inside { result.0 ≤ result.1 }
    ensures some { 0 < result.1 }
    ensures within { at + result.1 ≤ length text.now }
{
    cut_line(&text[at..])
}

// No text of this length has more commands.
fn most_commands(text: &[u8]) -> usize {
    (text.len() / SHORTEST_LINE + 1).min(MOST_COMMANDS)
}

/// Reads the commands of a script over a board.
pub fn read_script(alloc: Global, board: &Accepted, text: &[u8]) -> Result<ReadScript, ScriptFault>
    requires { length text.now ≤ 2 ^ 28 }
    ensures commands { MatchResult result (λ x. text_read board.now text.now ≡ Ok x.commands) (ScriptFaultIs (text_read board.now text.now)) }
    ensures reach { IfOk result (λ x. HasReach board.now (commands_in board.now text.now) x.reach) }
{
    let mut words = LineWords::new(alloc);
    let mut echo = Vec::new(alloc);
    let commands = Commands::with_room(alloc, most_commands(text))?;
    let mut read = ReadScript {
        commands,
        reach: Reach::of_no_line(board.board()),
    };
    let mut handles = Handles::new(alloc);
    let mut at = 0;
    let mut number = 0u32;
    while at < text.len() {
        let (len, skip) = cut_at(text, at);
        number += 1;
        let line = &text[at..at + len];
        let step = take_line(
            alloc,
            &mut words,
            &mut echo,
            &mut read,
            &mut handles,
            board,
            line,
            number,
        );
        if let Err(fault) = step {
            return Err(fault);
        }
        at += skip;
    }
    Ok(read)
}
