//! The form `check BOARD`: what a board has, or why it is refused.
ghost use Rattle.std.specs.Prelude.{◌≡◌, ◌++◌, true, Some, map, slice_get, string_bytes, OnOk, IfOk, IfErr, IsTrue};
ghost use Rattle.std.specs.Fmt.{decimal};
ghost use Rattle.tools.specs.Readers.{word_at};
ghost use Rattle.i2c_top.specs.Endings.{CameToSuccess, CameToRefusal, HasEndedAs};
ghost use Rattle.i2c_top.specs.Traces.{RigView, shelf_view, beside};
ghost use Rattle.i2c_top.specs.forms.Checks.{is_check, check_form, HasChecked, accepted_text};
ghost use Rattle.i2c_top.specs.declared.status.Status.TheVariants as status;

use crate::Status;
use crate::ending::write_outcome;
use crate::files::read_accepted;
use crate::text::ReportText;
use crate::words::{BOARD, is_name, word_at};
use bus_journal::{push_bytes, push_number};
use i2c_base::NoMemory;
use i2c_board::Board;
use i2c_outside::{Shelf, Sink};
use std::alloc::Global;

/// Whether the words are in this form.
pub fn is_check(words: &[String]) -> bool
    ensures { result ≡ is_check (map string_bytes words.now) }
{
    words.len() == 2 && word_at(words, 0) == "check" && is_name(word_at(words, BOARD as usize))
}

// A number and what it counts.
fn push_count(out: &mut Vec<u8>, count: usize, what: &[u8]) -> Result<(), NoMemory>
    ensures { OnOk result (out.new.items ≡ out.old.items ++ (decimal count ++ what.now)) }
{
    push_number(out, count as u64)?;
    push_bytes(out, what)
}

// The line of an accepted board, with its end.
fn accepted_line(alloc: Global, board: &Board) -> Result<ReportText, NoMemory>
    ensures { IfOk result (λ text. text ≡ accepted_text board.now) }
{
    let mut out = Vec::new(alloc);
    push_bytes(&mut out, b"accepted: ")?;
    push_count(&mut out, board.roots().len(), b" roots ")?;
    push_count(&mut out, board.muxes().len(), b" muxes ")?;
    push_count(&mut out, board.devices().len(), b" devices ")?;
    push_count(&mut out, usize::from(board.buses()), b" buses\n")?;
    Ok(ReportText::whole(alloc, out))
}

// Reads the board: its line, or the refusal.
fn check_board<S: Shelf>(alloc: Global, board: &str, shelf: &mut S) -> Result<ReportText, Status>
    requires board { slice_get (S.words shelf.old) 1 ≡ Some board.now }
    ensures done { IfOk result (λ text. (rig : RigView)
        → CameToSuccess (check_form board.now) (shelf_view S.Shelf shelf.old) (shelf_view S.Shelf shelf.new) rig rig text) }
    ensures refused { IfErr result (λ e. (rig : RigView)
        → CameToRefusal (check_form board.now) (shelf_view S.Shelf shelf.old) (shelf_view S.Shelf shelf.new) rig rig e) }
{
    let accepted = read_accepted(alloc, shelf, board)?;
    Ok(accepted_line(alloc, accepted.board())?)
}

/// Reads a board and says what it has, `accepted: R roots M muxes D devices B buses`; a refusal writes its line. No rig
/// is plugged. The words are those of a check, and the shelf's.
///
/// It returns on every input. `Board` is told exactly where the text has that first fault, or where that is the first
/// broken rule; `Read(1)` only where the shelf counted a fault of that file; `Write` where the sink did.
pub fn check_call<S: Shelf, K: Sink>(
    alloc: Global,
    words: &[String],
    shelf: &mut S,
    sink: &mut K,
) -> Status
    requires words { S.words shelf.old ≡ map string_bytes words.now }
    requires form { is_check (map string_bytes words.now) ≡ true }

    // The cause of each status and each status of a cause, what was written, and what is kept; beside any rig.
    ensures ended { (rig : RigView) → HasEndedAs (check_form (word_at (map string_bytes words.now) 1))
        (beside rig S.Shelf K.Sink shelf.old sink.old) (beside rig S.Shelf K.Sink shelf.new sink.new) result }

    // The line of the board.
    ensures success { IsTrue S.tells → IsTrue K.tells → result ≡ status.Ok
        → HasChecked (S.file shelf.old) (word_at (map string_bytes words.now) 1) (K.bytes sink.old) (K.bytes sink.new) }
{
    let outcome = check_board(alloc, word_at(words, BOARD as usize), shelf);
    write_outcome(alloc, words, outcome, sink)
}
