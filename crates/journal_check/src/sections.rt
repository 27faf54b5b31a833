//! The sections of a report beside what callers have printed.
ghost use Rattle.std.specs.Prelude.{◌≡◌, ◌+◌, ◌^◌, ◌<◌, ◌≤◌, ◌++◌, ◌∷◌, [], codes, length, None, IfOk, IfErr, IfSome};
ghost use Rattle.std.specs.Fmt.{decimal};
ghost use Rattle.journal_check.specs.Forms.{lines_of};
ghost use Rattle.journal_check.specs.Texts.{FirstOther, GoesOn, GoesOtherwise, IsWhole};

use crate::form::ended_line;
use crate::front::begins_with;
use bus_journal::rest_after;

/// What is left of the sections, and the number of the line that comes next.
#[derive(Clone, Copy)]
pub struct LinesLeft<'t> {
    pub rest: &'t [u8],
    pub number: u32,
}

/// The sections go on with the lines that are due: what is left behind these, or the number of the first line that differs.
pub fn goes_on<'t>(sections: &'t [u8], first: u32, due: &[u8]) -> Result<LinesLeft<'t>, u32>
    requires short { first + length sections.now ≤ 1 + 2 ^ 28 }
    requires whole { IsWhole due.now }
    ensures ok { IfOk result (λ left. GoesOn due.now sections.now first left.rest.now left.number) }
    ensures other { IfErr result (GoesOtherwise due.now sections.now first) }
{
    let mut rest = sections;
    let mut number = first;
    let mut more = due;
    while let Some(line) = ended_line(more) {
        let count = line.len() + 1;
        if !begins_with(rest, &more[..count]) {
            return Err(number);
        }
        rest = rest_after(rest, count);
        more = rest_after(more, count);
        number += 1;
    }
    Ok(LinesLeft { rest, number })
}

/// The sections go on with a caller's, under its number.
pub fn section_goes_on<'t>(
    left: LinesLeft<'t>,
    caller: usize,
    text: &[u8],
) -> Result<LinesLeft<'t>, u32>
    requires short { left.number + length left.rest.now ≤ 1 + 2 ^ 28 }
    requires digit { caller < 10 }
    requires whole { IsWhole text.now }
    ensures ok { IfOk result (λ behind. GoesOn (codes "caller " ++ (decimal caller ++ (10 ∷ text.now))) left.entry.rest.now left.entry.number behind.rest.now behind.number) }
    ensures other { IfErr result (GoesOtherwise (codes "caller " ++ (decimal caller ++ (10 ∷ text.now))) left.entry.rest.now left.entry.number) }
{
    let heading = [
        b'c',
        b'a',
        b'l',
        b'l',
        b'e',
        b'r',
        b' ',
        b'0' + caller as u8,
        b'\n',
    ];
    match goes_on(left.rest, left.number, &heading) {
        Ok(under) => goes_on(under.rest, under.number, text),
        Err(line) => Err(line),
    }
}

/// The first line that is there too many, where no more are due.
pub fn line_too_many(sections: &[u8], first: u32) -> Option<u32>
    ensures none { result ≡ None → sections.now ≡ [] }
    ensures some { IfSome result (FirstOther first (lines_of sections.now) (lines_of [])) }
{
    if sections.is_empty() {
        None
    } else {
        Some(first)
    }
}
