//! The files of a call, read in order: the board, the scripts, the schedule.
ghost use Rattle.std.specs.Prelude.{◌≡◌, ℕ, ◌+◌, ◌<◌, ◌≤◌, ◌^◌, ◌⊎◌, List, length, map, Some, Ok, Err, slice_get, string_bytes, All, [], unwrap_or, OnOk, IfOk, IfErr, IsTrue};
ghost use Rattle.std.specs.Option.{option_map};
ghost use Rattle.i2c_base.specs.Limits.{MOST_CALLERS};
ghost use Rattle.i2c_boardtext.specs.BoardText.{board_of};
ghost use Rattle.ports.specs.Causes.{Rose};
ghost use Rattle.caller_core.specs.Callers.{IsOpened};
ghost use Rattle.caller_core.specs.Scripts.{script_read};
ghost use Rattle.caller_core.specs.View.{script_on};
ghost use Rattle.i2c_top.specs.Names.{AreNamesFrom};
ghost use Rattle.i2c_top.specs.Readings.{IsAcceptedIn, IsRejectedIn, IsScriptIn, AreScriptsIn, IsScheduleIn, IsOrderIn, AreNamed, HasRead, HasReadSome, IsRefusedAt, IsRefusedScript, IsRefusedOrder, IsBadBoard, IsBadScript, IsBadSchedule, IsFileRefusal};
ghost use Rattle.i2c_top.specs.Boards.{IsAccepted, IsSpelled, IsRejected};
ghost use Rattle.i2c_top.specs.Form.{KeepsSkipped};
ghost use Rattle.i2c_top.specs.Scripts.{script_name, IsInGrammar, AreScheduled, AreOrdered, HasBadScript, HasBadSchedule};
ghost use Rattle.i2c_top.specs.forms.Replays.{names_told, replay_form, ArePlaced, IsScheduleWord, IsPlaceIn, IsScheduleAt};
ghost use Rattle.i2c_top.specs.Runs.{AreOpened, texts_of, cost_of_texts, MOST_COST};
ghost use Rattle.i2c_top.specs.Schedules.{schedule_read};
ghost use Rattle.i2c_top.specs.Traces.{KeepsBut, shelf_view};
ghost use Rattle.i2c_top.specs.declared.status.Status.TheVariants as status;

use crate::cost::check_cost;
use crate::names::{ReplayNames, SCHEDULE};
use crate::schedule::{ScheduleFault, read_schedule};
use crate::words::BOARD;
use crate::{BoardRefusal, Status};
use caller_core::{Script, ScriptFault};
use i2c_board::{Accepted, Board, accept};
use i2c_boardtext::BoardFault;
use i2c_outside::{ReadFail, Shelf};
use std::alloc::Global;

/// What the files of a replay say: the board, the scripts, and the callers that the words of its schedule name, where there is
/// one.
#[derive(Drop)]
pub struct ReplayFiles {
    pub board: Accepted,
    pub scripts: Vec<Script>,
    pub schedule: Option<Vec<u8>>,
}

/// Reads the file at a place of the words.
pub fn bytes_at<S: Shelf>(
    alloc: Global,
    shelf: &mut S,
    place: u8,
    name: &str,
) -> Result<Vec<u8>, Status>
    requires low { place ≤ 15 }
    requires named { slice_get (S.words shelf.old) place ≡ Some name.now }
    ensures kept { KeepsBut (λ p. p ≡ place) (shelf_view S.Shelf shelf.old) (shelf_view S.Shelf shelf.new) }
    ensures small { IfOk result (λ v. length v.items ≤ 2 ^ 28) }
    ensures bytes { IsTrue S.tells → IfOk result (λ v. S.file shelf.old name.now ≡ Some v.items) }
    ensures refused { IfErr result (λ e. ((e ≡ status.Read place) × Rose (S.faults shelf.old place) (S.faults shelf.new place)) ⊎ (e ≡ status.Memory)) }
{
    match shelf.read(alloc, place, name) {
        Ok(bytes) => Ok(bytes),
        Err(ReadFail::Failed) => Err(Status::Read(place)),
        Err(ReadFail::Memory) => Err(Status::Memory),
    }
}

// The board of a text, read; or what is wrong with the text.
fn read_text(alloc: Global, text: &[u8]) -> Result<Board, Status>
    ensures read { IfOk result (λ b. board_of text.now ≡ Ok b) }
    ensures refused { IfErr result (λ e. (e ≡ status.Memory) ⊎ IsBadBoard (IsRejected text.now) e) }
{
    match i2c_boardtext::read_board(alloc, text) {
        Ok(board) => Ok(board),
        Err(BoardFault::Memory) => Err(Status::Memory),
        Err(fault) => Err(Status::Board(BoardRefusal::Fault(fault))),
    }
}

// A board that a text spells, if it meets the rules; or the first that it breaks.
fn accepted(board: Board) -> Result<Accepted, BoardRefusal>
    ensures board { (text : List ℕ) → board_of text ≡ Ok board → IfOk result (IsAccepted text) }
    ensures refused { (text : List ℕ) → board_of text ≡ Ok board → IfErr result (IsRejected text) }
{
    match accept(board) {
        Ok(board) => Ok(board),
        Err(broken) => Err(BoardRefusal::Rule(broken)),
    }
}

// The board of a text, which meets the rules.
fn accepted_of(alloc: Global, text: &[u8]) -> Result<Accepted, Status>
    ensures board { IfOk result (IsAccepted text.now) }
    ensures refused { IfErr result (λ e. (e ≡ status.Memory) ⊎ IsBadBoard (IsRejected text.now) e) }
{
    match accepted(read_text(alloc, text)?) {
        Ok(board) => Ok(board),
        Err(why) => Err(Status::Board(why)),
    }
}

// The script of a text, for the caller with this number.
fn script_of(alloc: Global, board: &Accepted, text: Vec<u8>, caller: u8) -> Result<Script, Status>
    requires { length text.items ≤ 2 ^ 28 }
    ensures opened { IfOk result (IsOpened board.now text.items) }
    ensures read { OnOk result (IsInGrammar board.now text.items) }
    ensures refused { IfErr result (λ e. (e ≡ status.Memory) ⊎ IsBadScript caller (λ line word. script_read (script_on board.now text.items) ≡ Err (record { line = line; word = word })) e) }
{
    match Script::open(alloc, board, text) {
        Ok(script) => Ok(script),
        Err(ScriptFault::Bad { line, word }) => Err(Status::Script { caller, line, word }),
        Err(ScriptFault::Memory) => Err(Status::Memory),
    }
}

// The callers that a schedule's text names, among so many.
fn words_of(alloc: Global, text: &[u8], callers: u8) -> Result<Vec<u8>, Status>
    ensures read { IfOk result (λ words. schedule_read callers text.now ≡ Ok words.items) }
    ensures named { IfOk result (λ words. All (λ c. c < callers) words.items) }
    ensures refused { IfErr result (λ e. (e ≡ status.Memory) ⊎ IsBadSchedule (λ word. schedule_read callers text.now ≡ Err word) e) }
{
    match read_schedule(alloc, text, callers) {
        Ok(words) => Ok(words),
        Err(ScheduleFault::Word(word)) => Err(Status::Schedule(word)),
        Err(ScheduleFault::Memory) => Err(Status::Memory),
    }
}

/// Reads the board's file: the board that it spells, which meets the rules; or the refusal.
pub fn read_accepted<S: Shelf>(alloc: Global, shelf: &mut S, name: &str) -> Result<Accepted, Status>
    requires named { slice_get (S.words shelf.old) 1 ≡ Some name.now }
    ensures kept { KeepsBut (λ p. p ≡ 1) (shelf_view S.Shelf shelf.old) (shelf_view S.Shelf shelf.new) }
    ensures spelled { IfOk result IsSpelled }
    ensures board { IsTrue S.tells → IfOk result (IsAcceptedIn (S.file shelf.old) name.now) }
    ensures refused { IfErr result (IsRefusedAt 1 (IsBadBoard (IsRejectedIn S.tells (S.file shelf.old) name.now)) (S.faults shelf.old 1) (S.faults shelf.new 1)) }
{
    let text = bytes_at(alloc, shelf, BOARD, name)?;
    accepted_of(alloc, text.as_slice())
}

// Reads the file of the script with this number, of those whose files stand from a place on.
fn script_in<S: Shelf>(
    alloc: Global,
    board: &Accepted,
    shelf: &mut S,
    first: u8,
    caller: u8,
    name: &str,
) -> Result<Script, Status>
    requires low { first ≤ 4 }
    requires few { caller < MOST_CALLERS }
    requires named { slice_get (S.words shelf.old) (first + caller) ≡ Some name.now }
    ensures kept { KeepsBut (λ p. p ≡ first + caller) (shelf_view S.Shelf shelf.old) (shelf_view S.Shelf shelf.new) }
    ensures opened { IfOk result (λ s. IsOpened board.now s.script.text s) }
    ensures grammar { IfOk result (λ s. IsInGrammar board.now s.script.text) }
    ensures script { IsTrue S.tells → IfOk result (λ s. IsScriptIn (S.file shelf.old) board.now name.now s.script.text) }
    ensures refused { IfErr result (IsRefusedAt (first + caller) (IsBadScript caller (λ line word. IsTrue S.tells → HasBadScript (S.file shelf.old) board.now name.now line word))
        (S.faults shelf.old (first + caller)) (S.faults shelf.new (first + caller))) }
{
    let text = bytes_at(alloc, shelf, first + caller, name)?;
    script_of(alloc, board, text, caller)
}

// The name of the script with this number.
fn name_of(names: &[String], caller: usize) -> &str
    requires { caller < length names.now }
    ensures value { result.now ≡ script_name (map string_bytes names.now) caller }
    ensures there { slice_get (map string_bytes names.now) caller ≡ Some result.now }
{
    names[caller].as_str()
}

/// How many callers scripts are.
pub fn callers_of(scripts: &[Script]) -> u8
    requires { length scripts.now ≤ MOST_CALLERS }
    ensures { result ≡ length scripts.now }
{
    scripts.len() as u8
}

/// Reads the scripts' files, which stand from a place on, one after the other: the scripts, or the first refusal.
pub fn scripts_in<S: Shelf>(
    alloc: Global,
    board: &Accepted,
    shelf: &mut S,
    first: u8,
    names: &[String],
) -> Result<Vec<Script>, Status>
    requires low { first ≤ 4 }
    requires few { length names.now ≤ MOST_CALLERS }
    requires named { AreNamesFrom first (S.words shelf.old) (map string_bytes names.now) }
    ensures kept { KeepsBut (λ p. (first ≤ p) × (p < first + length names.now)) (shelf_view S.Shelf shelf.old) (shelf_view S.Shelf shelf.new) }
    ensures count { IfOk result (λ scripts. length scripts.items ≡ length names.now) }
    ensures scripts { IfOk result (λ scripts. AreScriptsIn S.tells (S.file shelf.old) (map string_bytes names.now) board.now scripts.items) }
    ensures refused { IfErr result (IsRefusedScript first S.tells (S.file shelf.old) board.now (map string_bytes names.now) (S.faults shelf.old) (S.faults shelf.new)) }
{
    let mut scripts = Vec::new(alloc);
    for caller in 0..names.len() {
        let name = name_of(names, caller);
        let script = script_in(alloc, board, shelf, first, caller as u8, name)?;
        scripts.push(script)?;
    }
    Ok(scripts)
}

/// Reads the schedule's file, which stands at a place.
pub fn schedule_in<S: Shelf>(
    alloc: Global,
    shelf: &mut S,
    place: u8,
    callers: u8,
    name: &str,
) -> Result<Vec<u8>, Status>
    requires low { place ≤ 15 }
    requires named { slice_get (S.words shelf.old) place ≡ Some name.now }
    ensures kept { KeepsBut (λ p. p ≡ place) (shelf_view S.Shelf shelf.old) (shelf_view S.Shelf shelf.new) }
    ensures named { IfOk result (λ words. All (λ c. c < callers) words.items) }
    ensures scheduled { IfOk result (λ words. AreScheduled callers words.items) }
    ensures schedule { IsTrue S.tells → IfOk result (λ words. IsScheduleIn (S.file shelf.old) name.now callers words.items) }
    ensures refused { IfErr result (IsRefusedAt place (IsBadSchedule (λ word. IsTrue S.tells → HasBadSchedule (S.file shelf.old) name.now callers word)) (S.faults shelf.old place) (S.faults shelf.new place)) }
{
    let text = bytes_at(alloc, shelf, place, name)?;
    words_of(alloc, text.as_slice(), callers)
}

// The same, where there is a schedule.
fn order_in<S: Shelf>(
    alloc: Global,
    shelf: &mut S,
    callers: u8,
    schedule: Option<&str>,
) -> Result<Option<Vec<u8>>, Status>
    requires named { IsScheduleWord (S.words shelf.old) (option_map (λ s. s.now) schedule) }
    ensures kept { KeepsBut (IsScheduleAt (option_map (λ s. s.now) schedule.entry)) (shelf_view S.Shelf shelf.old) (shelf_view S.Shelf shelf.new) }
    ensures named { IfOk result (λ words. AreNamed callers (option_map (λ v. v.items) words)) }
    ensures ordered { IfOk result (λ words. AreOrdered (option_map (λ s. s.now) schedule.entry) callers (option_map (λ v. v.items) words)) }
    ensures order { IsTrue S.tells → IfOk result (λ words. IsOrderIn (S.file shelf.old) (option_map (λ s. s.now) schedule.entry) callers (option_map (λ v. v.items) words)) }
    ensures refused { IfErr result (IsRefusedOrder S.tells (S.file shelf.old) (option_map (λ s. s.now) schedule.entry) callers (S.faults shelf.old) (S.faults shelf.new)) }
{
    match schedule {
        None => Ok(None),
        Some(name) => Ok(Some(schedule_in(alloc, shelf, SCHEDULE, callers, name)?)),
    }
}

/// The callers that a schedule names; without one there are none.
pub fn listed(alloc: Global, words: Option<Vec<u8>>) -> Vec<u8>
    ensures { result.items ≡ unwrap_or (option_map (λ v. v.items) words) [] }
{
    match words {
        None => Vec::new(alloc),
        Some(words) => words,
    }
}

/// Reads the files in the order board, scripts, schedule, and tests the cost: what they say, or the first refusal.
pub fn read_files<S: Shelf>(
    alloc: Global,
    names: &ReplayNames<'_>,
    shelf: &mut S,
) -> Result<ReplayFiles, Status>
    requires placed { ArePlaced (S.words shelf.old) (names_told names.now) }
    ensures kept { KeepsBut (IsPlaceIn (names_told names.now)) (shelf_view S.Shelf shelf.old) (shelf_view S.Shelf shelf.new) }
    ensures opened { IfOk result (λ f. AreOpened f.board f.scripts.items) }
    ensures few { IfOk result (λ f. length f.scripts.items ≤ MOST_CALLERS) }
    ensures named { IfOk result (λ f. AreNamed (length f.scripts.items) (option_map (λ v. v.items) f.schedule)) }
    ensures cheap { IfOk result (λ f. cost_of_texts f.board (texts_of f.scripts.items) ≤ MOST_COST) }
    ensures some { IfOk result (λ f. HasReadSome (names_told names.now) f.board (texts_of f.scripts.items) (option_map (λ v. v.items) f.schedule)) }
    ensures read { IsTrue S.tells → IfOk result (λ f. HasRead (S.file shelf.old) (names_told names.now) f.board (texts_of f.scripts.items) (option_map (λ v. v.items) f.schedule)) }
    ensures unreached { IfErr result (KeepsSkipped (replay_form (names_told names.now)) (S.faults shelf.old) (S.faults shelf.new)) }
    ensures refused { IfErr result (IsFileRefusal S.tells (S.file shelf.old) (names_told names.now) (S.faults shelf.old) (S.faults shelf.new)) }
{
    let board = read_accepted(alloc, shelf, names.board)?;
    let scripts = scripts_in(alloc, &board, shelf, names.first_script(), names.scripts)?;
    let schedule = order_in(alloc, shelf, callers_of(scripts.as_slice()), names.schedule)?;
    check_cost(&board, scripts.as_slice())?;
    Ok(ReplayFiles {
        board,
        scripts,
        schedule,
    })
}
