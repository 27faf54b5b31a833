//! The report of a run: a section for each caller, and the journal.
ghost use Rattle.std.specs.Prelude.{◌≡◌, [], ◌++◌, ◌∷◌, map, flat_map, codes, OnOk, IfOk};
ghost use Rattle.std.specs.Fmt.{decimal};
ghost use Rattle.std.specs.Option.{option_map_or};
ghost use Rattle.bus_spec.specs.Report.{ended_line, sections, report_lines};

use crate::printer::Printer;
use crate::text::ReportText;
use bus_core::Seat;
use bus_journal::{Journal, push_bytes, push_number};
use i2c_base::NoMemory;
use std::alloc::Global;

// A caller's section under its number.
fn push_section(out: &mut Vec<u8>, caller: usize, text: &[u8]) -> Result<(), NoMemory>
    ensures { OnOk result (out.new.items ≡ out.old.items ++ (codes "caller " ++ (decimal caller ++ (10 ∷ text.now)))) }
{
    push_bytes(out, b"caller ")?;
    push_number(out, caller as u64)?;
    push_bytes(out, b"\n")?;
    push_bytes(out, text)
}

fn push_sections(out: &mut Vec<u8>, texts: &[Vec<u8>]) -> Result<(), NoMemory>
    ensures { OnOk result (out.new.items ≡ out.old.items ++ sections 0 (map (λ v. v.items) texts.now)) }
{
    for (caller, text) in texts.iter().enumerate() {
        push_section(out, caller, text.as_slice())?;
    }
    Ok(())
}

// The sections of callers, by their places.
fn push_callers<C: Printer>(out: &mut Vec<u8>, callers: &[Seat<C>]) -> Result<(), NoMemory>
    ensures { OnOk result (out.new.items ≡ out.old.items ++ sections 0 (map (λ s. C.printed (C.script s.caller) (C.taken s.caller)) callers.now)) }
{
    for (place, seat) in callers.iter().enumerate() {
        push_section(out, place, seat.caller.text())?;
    }
    Ok(())
}

// The lines of the last journal, where there is one, and the line that ends a report.
fn last_piece(alloc: Global, last: Option<Journal>) -> Result<Vec<u8>, NoMemory>
    ensures { IfOk result (λ piece. piece.items ≡ option_map_or (λ j. flat_map ended_line j.entries) last [] ++ codes "end\n") }
{
    match last {
        Some(journal) => Ok(journal.into_text()),
        None => {
            let mut end = Vec::new(alloc);
            push_bytes(&mut end, b"end\n")?;
            Ok(end)
        }
    }
}

/// The report of callers that stand by their numbers, and of journals, one after the other, whose lines are not copied.
pub fn report_of_callers<C: Printer>(
    alloc: Global,
    callers: &[Seat<C>],
    journals: Vec<Journal>,
) -> Result<ReportText, NoMemory>
    ensures { IfOk result (λ text. text ≡ report_lines (map (λ s. C.printed (C.script s.caller) (C.taken s.caller)) callers.now) (flat_map (λ j. j.entries) journals.items)) }
{
    let mut journals = journals;
    let mut front = Vec::new(alloc);
    push_callers(&mut front, callers)?;
    push_bytes(&mut front, b"journal\n")?;
    let back = last_piece(alloc, journals.pop())?;
    Ok(ReportText::new(front, journals, back))
}

/// The report of a run: a section for each caller, given without its heading, the journal's lines, and `end`. It
/// fails only when out of memory.
pub fn report_text(
    alloc: Global,
    callers: &[Vec<u8>],
    journal: &Journal,
) -> Result<Vec<u8>, NoMemory>
    ensures { IfOk result (λ text. text.items ≡ report_lines (map (λ v. v.items) callers.now) journal.now.entries) }
{
    let mut out = Vec::new(alloc);
    push_sections(&mut out, callers)?;
    push_bytes(&mut out, b"journal\n")?;
    push_bytes(&mut out, journal.text())?;
    push_bytes(&mut out, b"end\n")?;
    Ok(out)
}
