//! The form `verify BOARD JOURNAL SCRIPT...`: whether a file is the report of a run of the scripts over the board.
ghost use Rattle.std.specs.Prelude.{◌≡◌, ◌≤◌, ◌^◌, true, ℕ, length, map, string_bytes, OnOk, IfOk, IfErr, IsTrue};
ghost use Rattle.i2c_base.specs.Limits.{MOST_CALLERS};
ghost use Rattle.i2c_spec.specs.Plain.{IsPlainBoard};
ghost use Rattle.i2c_top.specs.Endings.{CameToSuccess, CameToRefusal, HasEndedAs};
ghost use Rattle.i2c_top.specs.Readings.{HasReadJournal, HasReadSomeJournal};
ghost use Rattle.i2c_top.specs.Runs.{AreOpened, texts_of, cost_of_texts, MOST_COST};
ghost use Rattle.i2c_top.specs.Traces.{RigView, KeepsBut, shelf_view, beside};
ghost use Rattle.i2c_top.specs.forms.Replays.{ArePlaced, IsPlaceIn};
ghost use Rattle.i2c_top.specs.forms.Verifies.{as_replayed, fault_status, is_verify, verify_form, verify_names, verify_told, verified_text, HasVerified};
ghost use Rattle.i2c_top.specs.declared.status.Status.TheVariants as status;

use crate::Status;
use crate::check_journal::check_journal;
use crate::cost::check_cost;
use crate::ending::write_outcome;
use crate::files::{bytes_at, read_accepted, scripts_in};
use crate::text::ReportText;
use crate::words::{BOARD, are_names, word_at, words_from};
use bus_journal::{push_bytes, push_number};
use caller_core::{Script, no_section_has_a_journal_line, scripts_are_fair};
use i2c_base::{MOST_CALLERS, NoMemory};
use i2c_board::Accepted;
use i2c_outside::{Shelf, Sink};
use journal_check::{CheckFault, a_report_has_one_answer};
use std::alloc::Global;

// The places of the journal and of the first script among the words.
const JOURNAL: u8 = 2;

const FIRST_SCRIPT: u8 = 3;

/// The names of the files, taken from the words.
#[derive(Clone, Copy)]
pub struct VerifyWords<'a> {
    pub board: &'a str,
    pub journal: &'a str,
    pub scripts: &'a [String],
}

// What the files say.
#[derive(Drop)]
struct VerifyFiles {
    board: Accepted,
    scripts: Vec<Script>,
    journal: Vec<u8>,
}

/// Whether the words are in this form, with a board, a journal, and 1 to `MOST_CALLERS` scripts.
pub fn is_verify(words: &[String]) -> bool
    ensures { result ≡ is_verify (map string_bytes words.now) }
{
    4 <= words.len()
        && words.len() <= FIRST_SCRIPT as usize + MOST_CALLERS as usize
        && word_at(words, 0) == "verify"
        && are_names(words)
}

// The names among the words.
fn names_in<'a>(words: &'a [String]) -> VerifyWords<'a>
    requires { is_verify (map string_bytes words.now) ≡ true }
    ensures value { verify_told result ≡ verify_names (map string_bytes words.now) }
    ensures placed { ArePlaced (map string_bytes words.now) (as_replayed (verify_told result)) }
{
    VerifyWords {
        board: word_at(words, BOARD as usize),
        journal: word_at(words, JOURNAL as usize),
        scripts: words_from(words, FIRST_SCRIPT as usize),
    }
}

// Reads the files in the order board, scripts, journal, and tests the cost: what they say, or the first refusal.
fn read_files<S: Shelf>(
    alloc: Global,
    names: &VerifyWords<'_>,
    shelf: &mut S,
) -> Result<VerifyFiles, Status>
    requires placed { ArePlaced (S.words shelf.old) (as_replayed (verify_told names.now)) }
    ensures kept { KeepsBut (IsPlaceIn (as_replayed (verify_told names.now))) (shelf_view S.Shelf shelf.old) (shelf_view S.Shelf shelf.new) }
    ensures plain { IfOk result (λ f. IsPlainBoard f.board) }
    ensures opened { IfOk result (λ f. AreOpened f.board f.scripts.items) }
    ensures few { IfOk result (λ f. length f.scripts.items ≤ MOST_CALLERS) }
    ensures cheap { IfOk result (λ f. cost_of_texts f.board (texts_of f.scripts.items) ≤ MOST_COST) }
    ensures short { IfOk result (λ f. length f.journal.items ≤ 2 ^ 28) }
    ensures read { IsTrue S.tells → IfOk result (λ f. HasReadJournal (S.file shelf.old) (verify_told names.now) f.board (texts_of f.scripts.items) f.journal.items) }
    ensures some { IfOk result (λ f. HasReadSomeJournal (verify_told names.now) f.board (texts_of f.scripts.items) f.journal.items) }
    ensures refused { IfErr result (λ e. (rig : RigView)
        → CameToRefusal (verify_form (verify_told names.now)) (shelf_view S.Shelf shelf.old) (shelf_view S.Shelf shelf.new) rig rig e) }
{
    let board = read_accepted(alloc, shelf, names.board)?;
    let scripts = scripts_in(alloc, &board, shelf, FIRST_SCRIPT, names.scripts)?;
    let journal = bytes_at(alloc, shelf, JOURNAL, names.journal)?;
    check_cost(&board, scripts.as_slice())?;
    board.board().roots();
    Ok(VerifyFiles {
        board,
        scripts,
        journal,
    })
}

// The line of a journal that is verified, with its end.
fn verified_line(alloc: Global, entries: u32) -> Result<ReportText, NoMemory>
    ensures { IfOk result (λ text. text ≡ verified_text entries) }
{
    let mut out = Vec::new(alloc);
    push_bytes(&mut out, b"verified ")?;
    push_number(&mut out, u64::from(entries))?;
    push_bytes(&mut out, b" entries\n")?;
    Ok(ReportText::whole(alloc, out))
}

// The status that tells a fault.
fn refusal_of(fault: CheckFault) -> Status
    ensures { result ≡ fault_status fault }
{
    match fault {
        CheckFault::Memory => Status::Memory,
        CheckFault::Form(_) | CheckFault::Entry(_) | CheckFault::Open(_) | CheckFault::Text(_) =>
            Status::Verify(fault),
    }
}

// Reads the files and checks the journal: its line, or the refusal.
fn verify<S: Shelf>(
    alloc: Global,
    names: &VerifyWords<'_>,
    shelf: &mut S,
) -> Result<ReportText, Status>
    requires placed { ArePlaced (S.words shelf.old) (as_replayed (verify_told names.now)) }
    ensures done { IfOk result (λ text. (rig : RigView)
        → CameToSuccess (verify_form (verify_told names.now)) (shelf_view S.Shelf shelf.old) (shelf_view S.Shelf shelf.new) rig rig text) }
    ensures refused { IfErr result (λ e. (rig : RigView)
        → CameToRefusal (verify_form (verify_told names.now)) (shelf_view S.Shelf shelf.old) (shelf_view S.Shelf shelf.new) rig rig e) }
{
    let VerifyFiles {
        board,
        scripts,
        journal,
    } = read_files(alloc, names, shelf)?;
    match check_journal(alloc, &board, scripts, journal.as_slice()) {
        Ok(entries) => Ok(verified_line(alloc, entries)?),
        Err(fault) => Err(refusal_of(fault)),
    }
}

/// Reads a board, 1 to 8 scripts and a journal, in this order, and checks that the journal is the report of a run of the scripts over the
/// board: it writes `verified N entries`. A refusal writes its line. No rig is plugged. The words are those of the form, and the shelf's.
///
/// It returns on every input. The refusals are those of `replay_call` up to the scripts; then the journal is read, then the cost is
/// tested, then the journal. `Verify` is told exactly where that is the first thing that is wrong with it; being out of memory has a status of its own.
pub fn verify_call<S: Shelf, K: Sink>(
    alloc: Global,
    words: &[String],
    shelf: &mut S,
    sink: &mut K,
) -> Status
    requires words { S.words shelf.old ≡ map string_bytes words.now }
    requires form { is_verify (map string_bytes words.now) ≡ true }

    // The cause of each status and each status of a cause, what was written, and what is kept; beside any rig.
    ensures ended { (rig : RigView) → HasEndedAs (verify_form (verify_names (map string_bytes words.now)))
        (beside rig S.Shelf K.Sink shelf.old sink.old) (beside rig S.Shelf K.Sink shelf.new sink.new) result }

    // The line of a journal that is verified.
    ensures success { IsTrue S.tells → IsTrue K.tells → result ≡ status.Ok
        → HasVerified (S.file shelf.old) (verify_names (map string_bytes words.now)) (K.bytes sink.old) (K.bytes sink.new) }
{
    a_report_has_one_answer();
    scripts_are_fair();
    no_section_has_a_journal_line();
    let names = names_in(words);
    let outcome = verify(alloc, &names, shelf);
    write_outcome(alloc, words, outcome, sink)
}
