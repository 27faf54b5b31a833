//! A core that follows the steps which the lines of a journal tell.
ghost use Rattle.std.specs.Prelude.{◌≡◌, true, None, [], IsTrue, IfSome};
ghost use Rattle.bus_core.specs.State.{CoreTold, has_caller, roots_in};
ghost use Rattle.bus_journal.specs.Told.{entries_of};
ghost use Rattle.journal_check.specs.Steps.{AreLines, Differs, HasMadeElse, HasMadeTold, IsSteady};

use crate::front::{begins_with, caller_told};
use bus_core::{BusCore, StepAnswer};
use bus_journal::rest_after;
use i2c_base::Caller;
use ports::Port;

/// Where a core and a text part: after so many entries, whose lines have so many bytes.
#[derive(Clone, Copy)]
pub struct JournalPlace {
    pub before: usize,
    pub at: usize,
}

// Makes the step of a caller. Tells how many bytes the lines have that the journal has more, where these stand at the front of a
// text; none where they don't, or no step was made.
#[inline(always)]
fn step_told<P: Port, C: Caller>(
    core: &mut BusCore<'_, P, C>,
    caller: u8,
    text: &[u8],
) -> Option<usize>
    requires tells { IsTrue P.tells }
    requires has { has_caller core.old.opening.scripts caller ≡ true }
    ensures opening { core.new.opening ≡ core.old.opening }
    ensures roots { roots_in core.new ≡ roots_in core.old }
    ensures told { CoreTold C.asked core.new }
    ensures some { IfSome result (λ count. HasMadeTold C.asked caller core.old core.new text.now count) }
    ensures none { result ≡ None → HasMadeElse C.asked caller core.old core.new text.now }
{
    let at = core.journal().text().len();
    match core.step(caller) {
        StepAnswer::Stepped => {
            core.journal().entries_are_in_range();
            let made = rest_after(core.journal().text(), at);
            if begins_with(text, made) {
                Some(made.len())
            } else {
                None
            }
        }
        _ => None,
    }
}

/// The core follows the steps that these lines tell, up to the first that it doesn't make so. Tells the place of that one; none
/// where it has made them all.
pub fn follow_told<P: Port, C: Caller>(
    core: &mut BusCore<'_, P, C>,
    lines: &[u8],
) -> Option<JournalPlace>
    requires tells { IsTrue P.tells }
    requires lines { AreLines lines.now (entries_of lines.now) }
    requires empty { core.old.journal.entries ≡ [] }
    ensures opening { core.new.opening ≡ core.old.opening }
    ensures roots { roots_in core.new ≡ roots_in core.old }
    ensures whole { result ≡ None → core.new.journal.entries ≡ entries_of lines.now }
    ensures steady { result ≡ None → IsSteady C.asked core.old.opening core.new.journal.entries }
    ensures differs { IfSome result (λ place. Differs C.asked core.old.opening core.new (entries_of lines.now) place) }
{
    let mut rest = lines;
    while !rest.is_empty() {
        let before = core.journal().len();
        let caller = caller_told(rest);
        if !core.has(caller) {
            return Some(JournalPlace {
                before,
                at: lines.len() - rest.len(),
            });
        }
        match step_told(core, caller, rest) {
            Some(count) => rest = rest_after(rest, count),
            None => {
                return Some(JournalPlace {
                    before,
                    at: lines.len() - rest.len(),
                });
            }
        }
    }
    None
}
