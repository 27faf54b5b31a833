//! The form `session BOARD`: the lines of an input, each answered before the next one is taken.
ghost use Rattle.std.specs.Prelude.{◌≡◌, ◌<◌, ◌≤◌, ◌⊎◌, ◌++◌, true, Ok, map, string_bytes, IfOk, IfErr, IfSome, OnOk, IsTrue};
ghost use Rattle.ports.specs.Causes.{Rose};
ghost use Rattle.tools.specs.Readers.{word_at};
ghost use Rattle.i2c_session.specs.Inputs.{IsNext, lines_in};
ghost use Rattle.i2c_top.specs.Traces.{RigView, beside};
ghost use Rattle.i2c_top.specs.Written.{HasFront};
ghost use Rattle.i2c_top.specs.declared.status.Status.TheVariants as status;
ghost use Rattle.i2c_lab.specs.SessionForm.{HasEndedSession, HasStopped, IsStopCause, is_session};

use i2c_board::Accepted;
use i2c_outside::{ReadFail, Shelf, Sink};
use i2c_session::{LineInput, Session};
use i2c_top::{Status, is_name, read_accepted, word_at, write_all, write_outcome};
use std::alloc::Global;
use std::io::BufRead;

/// Whether the words are in this form.
pub fn is_session(words: &[String]) -> bool
    ensures { result ≡ is_session (map string_bytes words.now) }
{
    words.len() == 2 && word_at(words, 0) == "session" && is_name(word_at(words, 1))
}

// Takes the next line of an input; false where there is none.
fn take_line<R: BufRead + Drop>(
    input: &mut LineInput<R>,
    line: &mut Vec<u8>,
) -> Result<bool, Status>
    ensures line { IfSome (lines_in (R.remaining input.old.reader)) (λ lines. IfOk result (λ there. IsNext there line.new.items lines (lines_in (R.remaining input.new.reader)))) }
    ensures falls { result ≡ Ok true → input.new.left < input.old.left }
    ensures failed { IfErr result (λ e. ((e ≡ status.Input) × Rose input.old.faults input.new.faults) ⊎ (e ≡ status.Memory)) }
    ensures later { input.old.faults ≤ input.new.faults }
{
    match input.next_line(line) {
        Ok(there) => Ok(there),
        Err(ReadFail::Failed) => Err(Status::Input),
        Err(ReadFail::Memory) => Err(Status::Memory),
    }
}

// Writes an answer, whole; or a front of it, and then it is `Write`.
fn say<K: Sink>(sink: &mut K, text: &[u8]) -> Result<(), Status>
    ensures whole { IsTrue K.tells → OnOk result (K.bytes sink.new ≡ K.bytes sink.old ++ text.now) }
    ensures later { K.faults sink.old ≤ K.faults sink.new }
    ensures cut { IfErr result (λ e. (e ≡ status.Write) × Rose (K.faults sink.old) (K.faults sink.new)) }
    ensures front { IsTrue K.tells → HasFront (K.bytes sink.old) text.now (K.bytes sink.new) }
{
    if write_all(sink, text) {
        Ok(())
    } else {
        Err(Status::Write)
    }
}

// Answers the lines of an input, one after the other, until none is left or something fails.
fn answer_lines<R: BufRead + Drop, K: Sink>(
    alloc: Global,
    board: &Accepted,
    input: &mut LineInput<R>,
    sink: &mut K,
) -> Result<(), Status>
    ensures later { K.faults sink.old ≤ K.faults sink.new }
    ensures caused { IfErr result (IsStopCause (K.faults sink.old) (K.faults sink.new) input.old.faults input.new.faults) }
    ensures said { HasStopped board.now (lines_in (R.remaining input.old.reader)) K.tells (K.bytes sink.old) (K.bytes sink.new) result }
{
    let mut session = Session::open(alloc, board)?;
    let mut line = Vec::new(alloc);
    while take_line(input, &mut line)? {
        let answer = session.answer(alloc, line.as_slice())?;
        say(sink, answer.as_slice())?;
    }
    Ok(())
}

/// Answers the lines of an input over a board, one after the other: what a replay of the lines so far would print of the command of
/// the last one, and `command N`, the number of commands; or `word N`, where the line is refused and no part of the session. Each answer
/// is written whole before the next line is taken. The words are those of the form, and the shelf's; no rig is plugged.
///
/// It ends where no line is left, or the input or the output fails; where the board is refused it ends as `check` does, and takes no
/// line. What it fails at leaves the answers before it.
pub fn session_call<S: Shelf, R: BufRead + Drop, K: Sink>(
    alloc: Global,
    words: &[String],
    shelf: &mut S,
    input: &mut LineInput<R>,
    sink: &mut K,
) -> Status
    requires words { S.words shelf.old ≡ map string_bytes words.now }
    requires form { is_session (map string_bytes words.now) ≡ true }
    ensures ended { (rig : RigView) → HasEndedSession (word_at (map string_bytes words.now) 1)
        (beside rig S.Shelf K.Sink shelf.old sink.old) (beside rig S.Shelf K.Sink shelf.new sink.new)
        (record { lines = lines_in (R.remaining input.old.reader); faults = input.old.faults })
        (record { lines = lines_in (R.remaining input.new.reader); faults = input.new.faults }) result }
{
    let board = match read_accepted(alloc, shelf, word_at(words, 1)) {
        Ok(board) => board,
        Err(refusal) => return write_outcome(alloc, words, Err(refusal), sink),
    };
    match answer_lines(alloc, &board, input, sink) {
        Ok(()) => Status::Ok,
        Err(Status::Input) => write_outcome(alloc, words, Err(Status::Input), sink),
        Err(stopped) => stopped,
    }
}
