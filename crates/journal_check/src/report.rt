//! A report in its parts: the sections, the lines of the entries, and what these tell of failed calls.
ghost use Rattle.std.specs.Prelude.{◌≡◌, ◌^◌, ◌≤◌, ◌⊎◌, ℕ, length, IfOk, IfErr};
ghost use Rattle.journal_check.specs.Forms.{FirstOffence, HasForm, Sections as InSections, TellsGaps, lines_of};
ghost use Rattle.journal_check.specs.declared.form.FormFault.TheVariants as fault;

use crate::form::{FormFault, behind_heading, read_entries};
use crate::gaps::{RootGaps, no_gaps};
use i2c_board::Accepted;
use std::alloc::Global;

/// A text that has the form of a report, in its parts.
#[derive(Drop)]
pub struct ReportParts<'t> {
    /// What stands before the line `journal`.
    pub sections: &'t [u8],
    /// The lines of the entries.
    pub lines: &'t [u8],
    /// What they tell of failed calls, root by root.
    pub gaps: Vec<RootGaps>,
}

/// The parts of a text that has the form of a report, or its first line at fault.
pub fn read_report<'t>(
    alloc: Global,
    board: &Accepted,
    text: &'t [u8],
) -> Result<ReportParts<'t>, FormFault>
    requires { length text.now ≤ 2 ^ 28 }
    ensures form { IfOk result (λ parts. HasForm text.now parts.sections.now parts.lines.now) }
    ensures gaps { IfOk result (λ parts. TellsGaps board.now parts.lines.now parts.gaps.items) }
    ensures wrong { IfErr result (λ e. (e ≡ fault.Memory) ⊎ ((n : ℕ) × (e ≡ fault.Line n) × FirstOffence InSections 1 (lines_of text.now) n)) }
{
    let heading = match behind_heading(text) {
        Ok(heading) => heading,
        Err(line) => return Err(FormFault::Line(line)),
    };
    let Ok(mut gaps) = no_gaps(alloc, board.board().roots().len()) else {
        return Err(FormFault::Memory);
    };
    let behind = &text[heading.at..];
    match read_entries(alloc, board, behind, heading.number, gaps.as_mut_slice()) {
        Ok(length) => Ok(ReportParts {
            // the line `journal` has eight bytes
            sections: &text[..heading.at - 8],
            lines: &behind[..length],
            gaps,
        }),
        Err(fault) => Err(fault),
    }
}
