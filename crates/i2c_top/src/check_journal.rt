//! A report beside a board and scripts: verified, or the first thing that is wrong with it.
ghost use Rattle.std.specs.Prelude.{◌≡◌, ◌≤◌, ◌^◌, ◌⊎◌, ℕ, length, map, Ok, Err, OnOk, IfOk, IfErr};
ghost use Rattle.i2c_base.specs.Limits.{MOST_CALLERS};
ghost use Rattle.bus_journal.specs.Told.{entries_of};
ghost use Rattle.bus_spec.specs.Report.{sections};
ghost use Rattle.journal_check.specs.Faults.{IsFaultIn, IsVerified, IsWrongIn};
ghost use Rattle.journal_check.specs.Forms.{TellsGaps, lines_of};
ghost use Rattle.journal_check.specs.Gaps.{gaps_by};
ghost use Rattle.journal_check.specs.Steps.{AreLines};
ghost use Rattle.journal_check.specs.Texts.{FirstOther};
ghost use Rattle.journal_check.specs.declared.fault.CheckFault.{CheckFault};
ghost use Rattle.journal_check.specs.declared.fault.CheckFault.TheVariants as fault;
ghost use Rattle.i2c_top.specs.Checked.{HasBeenChecked, checked_on};
ghost use Rattle.i2c_top.specs.Runs.{AreOpened, asks_by, texts_of, section_of, cost_of_texts, MOST_COST};

use crate::callers::opened;
use crate::cost::limit_of;
use bus_core::{ClosedCore, Seat};
use bus_journal::Journal;
use caller_core::{Script, no_section_has_a_journal_line, scripts_are_fair};
use i2c_board::Accepted;
use journal_check::{
    CheckFault, FormFault, LinesLeft, ReportParts, RootGaps, Telling, a_report_has_one_answer,
    check_entries, line_too_many, read_report, section_goes_on, told_ports,
};
use std::alloc::Global;
use std::marker::Brand;

/// Callers that have followed a journal, on their seats, and that journal.
#[derive(Drop)]
struct PastJournal {
    seats: Vec<Seat<Script>>,
    journal: Journal,
}

// The scripts follow the lines of entries over ports that fail as these tell: what is left of their core, or what is wrong.
fn followed<N: Telling + Send>(
    alloc: Global,
    board: &Accepted,
    scripts: Vec<Script>,
    lines: &[u8],
    gaps: Vec<RootGaps>,
) -> Result<PastJournal, CheckFault>
    requires opened { AreOpened board.now scripts.items }
    requires few { length scripts.items ≤ MOST_CALLERS }
    requires cheap { cost_of_texts board.now (texts_of scripts.items) ≤ MOST_COST }
    requires short { length lines.now ≤ 2 ^ 28 }
    requires lines { AreLines lines.now (entries_of lines.now) }
    requires told { TellsGaps board.now lines.now gaps.items }
    requires named { (r : ℕ) → N.gaps r ≡ gaps_by board.now lines.now r }
    ensures checked { IfOk result (λ x. HasBeenChecked board.now (texts_of scripts.items) (entries_of lines.now) x.seats.items x.journal.entries) }
    ensures wrong { IfErr result (λ e. (e ≡ fault.Memory) ⊎ IsWrongIn board.now (length (texts_of scripts.items)) (asks_by board.now (texts_of scripts.items)) (entries_of lines.now) e) }
{
    scripts_are_fair();
    board.board().roots();
    let count = scripts.len() as u8;
    let Ok(ports) = told_ports::<N>(alloc, board, lines, gaps) else {
        return Err(CheckFault::Memory);
    };
    let limit = limit_of(board, scripts.as_slice());
    let Ok(core) = opened(alloc, board, scripts, limit, ports) else {
        return Err(CheckFault::Memory);
    };
    match check_entries(core, lines, count) {
        Ok(core) => {
            let ClosedCore { seats, journal, .. } = core.take_apart();
            Ok(PastJournal { seats, journal })
        }
        Err(fault) => Err(fault),
    }
}

// The sections are those of these callers, by their places; or the first line that differs.
fn check_sections(text: &[u8], callers: &[Seat<Script>]) -> Result<(), u32>
    requires short { length text.now ≤ 2 ^ 28 }
    requires few { length callers.now ≤ MOST_CALLERS }
    ensures same { OnOk result (text.now ≡ sections 0 (map (λ s. section_of s.caller) callers.now)) }
    ensures other { IfErr result (FirstOther 1 (lines_of text.now) (lines_of (sections 0 (map (λ s. section_of s.caller) callers.now)))) }
{
    no_section_has_a_journal_line();
    let mut left = LinesLeft {
        rest: text,
        number: 1,
    };
    for (place, seat) in callers.iter().enumerate() {
        match section_goes_on(left, place, seat.caller.text()) {
            Ok(behind) => left = behind,
            Err(line) => return Err(line),
        }
    }
    match line_too_many(left.rest, left.number) {
        Some(line) => Err(line),
        None => Ok(()),
    }
}

// What a check of a text finds.
fn found(
    alloc: Global,
    board: &Accepted,
    scripts: Vec<Script>,
    text: &[u8],
) -> Result<u32, CheckFault>
    requires opened { AreOpened board.now scripts.items }
    requires few { length scripts.items ≤ MOST_CALLERS }
    requires cheap { cost_of_texts board.now (texts_of scripts.items) ≤ MOST_COST }
    requires short { length text.now ≤ 2 ^ 28 }
    ensures verified { IfOk result (IsVerified (checked_on board.now (texts_of scripts.items)) text.now) }
    ensures fault { IfErr result (λ e. (e ≡ fault.Memory) ⊎ IsFaultIn (checked_on board.now (texts_of scripts.items)) text.now e) }
{
    scripts_are_fair();
    let report = match read_report(alloc, board, text) {
        Ok(report) => report,
        Err(FormFault::Line(line)) => return Err(CheckFault::Form(line)),
        Err(FormFault::Memory) => return Err(CheckFault::Memory),
    };
    let ReportParts {
        sections,
        lines,
        gaps,
    } = report;
    let PastJournal { seats, journal } = match followed::<Brand>(
        alloc, board, scripts, lines, gaps,
    ) {
        Ok(followed) => followed,
        Err(fault) => return Err(fault),
    };
    match check_sections(sections, seats.as_slice()) {
        Ok(()) => Ok(journal.len() as u32),
        Err(line) => Err(CheckFault::Text(line)),
    }
}

/// Checks that a text is the report of these scripts over a board, as some run of theirs wrote it: how many entries it has, or the first
/// thing that is wrong with it, in the order form, entry, caller, text. Its failed calls are those that its entries tell.
///
/// It makes the journal again: each entry is one that the scripts' core makes. No rig is used.
pub fn check_journal(
    alloc: Global,
    board: &Accepted,
    scripts: Vec<Script>,
    text: &[u8],
) -> Result<u32, CheckFault>
    requires opened { AreOpened board.now scripts.items }
    requires few { length scripts.items ≤ MOST_CALLERS }
    requires cheap { cost_of_texts board.now (texts_of scripts.items) ≤ MOST_COST }
    requires short { length text.now ≤ 2 ^ 28 }
    ensures verified { IfOk result (IsVerified (checked_on board.now (texts_of scripts.items)) text.now) }
    ensures fault { IfErr result (λ e. (e ≡ fault.Memory) ⊎ IsFaultIn (checked_on board.now (texts_of scripts.items)) text.now e) }

    // And the other way round: no report is turned down, and no fault is told for another one.
    ensures each_report { (n : ℕ) → IsVerified (checked_on board.now (texts_of scripts.items)) text.now n → (result ≡ Ok n) ⊎ (result ≡ Err fault.Memory) }
    ensures each_fault { (e : CheckFault) → IsFaultIn (checked_on board.now (texts_of scripts.items)) text.now e → (result ≡ Err e) ⊎ (result ≡ Err fault.Memory) }
{
    a_report_has_one_answer();
    scripts_are_fair();
    no_section_has_a_journal_line();
    board.board().roots();
    found(alloc, board, scripts, text)
}
