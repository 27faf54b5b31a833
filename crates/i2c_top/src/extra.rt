//! A replay by one file more, or by one word more: its words, and its files, read in the order board, scripts, the file more, schedule.
ghost use Rattle.std.specs.Prelude.{◌≡◌, ◌<◌, ◌≤◌, ℕ, true, false, All, List, Some, length, map, slice_get, string_bytes, IfOk, IfErr, IsTrue};
ghost use Rattle.i2c_base.specs.Limits.{MOST_CALLERS};
ghost use Rattle.i2c_top.specs.Endings.{CameToRefusal};
ghost use Rattle.i2c_top.specs.Readings.{HasReadExtra, HasReadSomeExtra, IsBadExtra, IsExtraIn, IsRefusedAt};
ghost use Rattle.i2c_top.specs.Runs.{AreOpened, texts_of, cost_of_texts, MOST_COST};
ghost use Rattle.i2c_top.specs.Traces.{RigView, KeepsBut, shelf_view};
ghost use Rattle.i2c_top.specs.declared.status.Status.TheVariants as status;
ghost use Rattle.i2c_top.specs.forms.Extras.{row_of, extra_form, extra_names, extra_told, is_extra, AreExtraPlaced, IsExtraFile, IsExtraPlace, IsExtraRow, IsExtraSpelled};

use crate::Status;
use crate::cost::check_cost;
pub use crate::extra_file::ExtraFile;
use crate::files::{bytes_at, callers_of, read_accepted, schedule_in, scripts_in};
use crate::words::{BOARD, are_names, word_at, words_from};
use caller_core::Script;
use i2c_base::MOST_CALLERS;
use i2c_board::Accepted;
use i2c_outside::Shelf;
use std::alloc::Global;

// The places of the file or word more, of the schedule and of the first script among the words.
const EXTRA: u8 = 2;

const SCHEDULE: u8 = 3;

const FIRST_SCRIPT: u8 = 4;

/// The names of the files and the word more, taken from the words.
#[derive(Clone, Copy)]
pub struct ExtraWords<'a> {
    pub board: &'a str,
    pub extra: &'a str,
    pub schedule: &'a str,
    pub scripts: &'a [String],
}

impl<'a> ExtraWords<'a> {
    /// Those among the words of a form with one more.
    pub fn of(words: &'a [String]) -> Self
        requires { (form : List ℕ) × (is_extra form (map string_bytes words.now) ≡ true) }
        ensures value { extra_told result ≡ extra_names (map string_bytes words.now) }
        ensures placed { AreExtraPlaced (map string_bytes words.now) (extra_told result) }
    {
        ExtraWords {
            board: word_at(words, BOARD as usize),
            extra: word_at(words, EXTRA as usize),
            schedule: word_at(words, SCHEDULE as usize),
            scripts: words_from(words, FIRST_SCRIPT as usize),
        }
    }
}

/// What the files and the word more say.
#[derive(Drop)]
pub struct ExtraFiles<E> {
    pub board: Accepted,
    pub scripts: Vec<Script>,
    pub extra: E,
    /// The callers that the words of the schedule name.
    pub words: Vec<u8>,
}

/// Whether the words are of this form, with a board, a file or word more, a schedule, and 1 to `MOST_CALLERS` scripts.
pub fn is_extra(form: &str, words: &[String]) -> bool
    ensures { result ≡ is_extra form.now (map string_bytes words.now) }
{
    5 <= words.len()
        && words.len() <= FIRST_SCRIPT as usize + MOST_CALLERS as usize
        && word_at(words, 0) == form
        && are_names(words)
}

// Reads the file or word more over the board: what it spells, or the refusal.
fn extra_in<E: ExtraFile, S: Shelf>(
    alloc: Global,
    board: &Accepted,
    shelf: &mut S,
    name: &str,
) -> Result<E, Status>
    requires named { slice_get (S.words shelf.old) 2 ≡ Some name.now }
    requires row { IsExtraRow (row_of E.ExtraFile) }
    ensures kept { KeepsBut (IsExtraFile (row_of E.ExtraFile)) (shelf_view S.Shelf shelf.old) (shelf_view S.Shelf shelf.new) }
    ensures file { IfErr result (λ e. e ≡ status.Read 2 → E.in_word ≡ false) }
    ensures spelled { IfOk result (IsExtraSpelled (row_of E.ExtraFile) board.now) }
    ensures extra { IsTrue S.tells → IfOk result (IsExtraIn (row_of E.ExtraFile) (S.file shelf.old) board.now name.now) }
    ensures refused { IfErr result (IsRefusedAt 2 (IsBadExtra (row_of E.ExtraFile) S.tells (S.file shelf.old) board.now name.now) (S.faults shelf.old 2) (S.faults shelf.new 2)) }
{
    if E::in_word() {
        return E::read(alloc, board, name.as_bytes());
    }
    let text = bytes_at(alloc, shelf, EXTRA, name)?;
    E::read(alloc, board, text.as_slice())
}

/// Reads the files in the order board, scripts, the file or word more, schedule, and tests the cost: what they say, or the first refusal.
pub fn read_files<E: ExtraFile, S: Shelf>(
    alloc: Global,
    names: &ExtraWords<'_>,
    shelf: &mut S,
) -> Result<ExtraFiles<E>, Status>
    requires placed { AreExtraPlaced (S.words shelf.old) (extra_told names.now) }
    requires row { IsExtraRow (row_of E.ExtraFile) }
    ensures kept { KeepsBut (IsExtraPlace (row_of E.ExtraFile) (extra_told names.now)) (shelf_view S.Shelf shelf.old) (shelf_view S.Shelf shelf.new) }
    ensures opened { IfOk result (λ f. AreOpened f.board f.scripts.items) }
    ensures few { IfOk result (λ f. length f.scripts.items ≤ MOST_CALLERS) }
    ensures spelled { IfOk result (λ f. IsExtraSpelled (row_of E.ExtraFile) f.board f.extra) }
    ensures named { IfOk result (λ f. All (λ c. c < length f.scripts.items) f.words.items) }
    ensures cheap { IfOk result (λ f. cost_of_texts f.board (texts_of f.scripts.items) ≤ MOST_COST) }
    ensures some { IfOk result (λ f. HasReadSomeExtra (row_of E.ExtraFile) (extra_told names.now) f.board f.extra (texts_of f.scripts.items) f.words.items) }
    ensures read { IsTrue S.tells → IfOk result (λ f. HasReadExtra (row_of E.ExtraFile) (S.file shelf.old) (extra_told names.now) f.board f.extra (texts_of f.scripts.items) f.words.items) }
    ensures refused { IfErr result (λ e. (rig : RigView)
        → CameToRefusal (extra_form (row_of E.ExtraFile) (extra_told names.now)) (shelf_view S.Shelf shelf.old) (shelf_view S.Shelf shelf.new) rig rig e) }
{
    let board = read_accepted(alloc, shelf, names.board)?;
    let scripts = scripts_in(alloc, &board, shelf, FIRST_SCRIPT, names.scripts)?;
    let extra = extra_in(alloc, &board, shelf, names.extra)?;
    let callers = callers_of(scripts.as_slice());
    let words = schedule_in(alloc, shelf, SCHEDULE, callers, names.schedule)?;
    check_cost(&board, scripts.as_slice())?;
    Ok(ExtraFiles {
        board,
        scripts,
        extra,
        words,
    })
}
