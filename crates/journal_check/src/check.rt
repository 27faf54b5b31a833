//! A core follows a journal over ports that fail as the journal tells.
ghost use Rattle.std.specs.Prelude.{◌≡◌, ◌<◌, ◌≤◌, ◌∷◌, ◌&&◌, ◌==◌, ℕ, List, [], None, false, length, All, IfOk, IfErr, IsTrue};
ghost use Rattle.std.specs.List.{flat_map};
ghost use Rattle.i2c_base.specs.Limits.{MOST_CALLERS};
ghost use Rattle.i2c_base.specs.declared.entry.Entry.{Entry};
ghost use Rattle.i2c_base.specs.declared.reply.Reply.{Reply};
ghost use Rattle.i2c_spec.specs.Plain.{IsPlainBoard};
ghost use Rattle.i2c_spec.specs.Rules.{MeetsRules};
ghost use Rattle.bus_spec.specs.Legal.{is_stepping};
ghost use Rattle.bus_spec.specs.Readings.{caller_of};
ghost use Rattle.bus_spec.specs.Report.{ended_line};
ghost use Rattle.bus_spec.specs.Schedule.{is_settle};
ghost use Rattle.bus_laws.specs.Reach.{AsksForMessages, AsksWithinLimits};
ghost use Rattle.bus_journal.specs.Guess.{entry_of};
ghost use Rattle.bus_journal.specs.Ranges.{IsEntry};
ghost use Rattle.bus_journal.specs.Told.{entries_of};
ghost use Rattle.bus_core.specs.Opening.{HasRoot};
ghost use Rattle.bus_core.specs.State.{has_caller, roots_in};
ghost use Rattle.check_laws.specs.Failed.{FailedBy, gaps_told};
ghost use Rattle.check_laws.specs.Wrong.{IsFirstWrong, first_step};
ghost use Rattle.journal_check.specs.Checks.{HasFollowed};
ghost use Rattle.journal_check.specs.Steps.{AreLines, asks_on};

use crate::front::{caller_of_line, first_line};
use crate::steps::follow_told;
use crate::told_port::FailsAsTold;
use bus_core::{BusCore, ClosedCore};
use bus_journal::{byte_at, rest_after};
use check_laws::{
    the_failed_calls_are_told, the_roots_tell_each_call, where_a_step_differs_a_journal_is_wrong,
};
use i2c_base::{Caller, SegId};

// The entry that a line could be is a message or a line step.
#[tactic(auto, using(std::proofs::lemmas::Bool::Decides::nat_tests), unfolding(bus_journal::specs::Guess::entry_of, bus_journal::specs::Guess::message_of, bus_journal::specs::Guess::line_of, bus_journal::specs::Guess::settle_of))]
fn is_stepping(line: &[u8]) -> bool
    ensures { result ≡ is_stepping (entry_of line.now) }
{
    match byte_at(line, 0) {
        b'm' | b'l' => true,
        _ => false,
    }
}

// It is a settle.
#[tactic(auto, using(std::proofs::lemmas::Bool::Decides::nat_tests), unfolding(bus_journal::specs::Guess::entry_of, bus_journal::specs::Guess::message_of, bus_journal::specs::Guess::line_of, bus_journal::specs::Guess::settle_of))]
fn is_settle(line: &[u8]) -> bool
    ensures { result ≡ is_settle (entry_of line.now) }
{
    match byte_at(line, 0) {
        b't' | b'f' | b'm' | b'l' => false,
        _ => true,
    }
}

// A line is that of a settle which belongs to the step of the line before it.
fn belongs(line: &[u8], next: &[u8]) -> bool
    ensures { result ≡ (is_stepping (entry_of line.now) && (is_settle (entry_of next.now) && (caller_of (entry_of line.now) == caller_of (entry_of next.now)))) }
{
    is_stepping(line) && is_settle(next) && caller_of_line(line) == caller_of_line(next)
}

// How many entries the first step has whose lines these are.
fn first_step(text: &[u8]) -> usize
    ensures step { (e : Entry) (es : List Entry) → All IsEntry (e ∷ es) → text.now ≡ flat_map ended_line (e ∷ es) → result ≡ first_step (e ∷ es) }
    ensures some { 1 ≤ result }
    ensures few { result ≤ 2 }
{
    let line = first_line(text);
    let rest = rest_after(text, line.len() + 1);
    if !rest.is_empty() && belongs(line, first_line(rest)) {
        2
    } else {
        1
    }
}

// Each port of a core failed as its type tells.
fn all_fail_as_told<P: FailsAsTold>(ports: &[(SegId, P)])
    ensures { All (λ p. FailedBy (P.log p.1) (P.gaps (P.world p.1).root)) ports.now }
{
    for port in ports {
        port.1.fails_as_told();
    }
}

/// A core follows a journal, over ports of which those calls fail that the journal tells to have failed. It makes each step that is
/// told, or the first that it doesn't make so isn't legal: the number of its last entry.
pub fn follow_journal<'b, P: FailsAsTold, C: Caller>(
    core: BusCore<'b, P, C>,
    lines: &[u8],
    count: u8,
) -> Result<BusCore<'b, P, C>, usize>
    requires tells { IsTrue P.tells }
    requires lines { AreLines lines.now (entries_of lines.now) }
    requires empty { core.journal.entries ≡ [] }
    requires named { (r : ℕ) → P.gaps r ≡ gaps_told core.opening.board (entries_of lines.now) r }
    requires plain { IsPlainBoard core.opening.board }
    requires rules { MeetsRules core.opening.board }
    requires some { AsksForMessages (asks_on C.asked core.opening) }
    requires limits { AsksWithinLimits (asks_on C.asked core.opening) }
    requires wired { (r : ℕ) → r < length core.opening.board.roots → HasRoot (roots_in core) r }
    requires few { count ≤ MOST_CALLERS }
    requires numbered { (c : ℕ) → has_caller core.opening.scripts c ≡ false → count ≤ c }
    requires silent { (c : ℕ) → count ≤ c → (rs : List Reply) → asks_on C.asked core.opening c rs ≡ None }
    ensures ok { IfOk result (HasFollowed C.asked core.entry.opening (entries_of lines.now)) }
    ensures wrong { IfErr result (IsFirstWrong core.entry.opening.board count (asks_on C.asked core.entry.opening) (entries_of lines.now)) }
{
    let mut core = core;
    let Some(place) = follow_told(&mut core, lines) else {
        return Ok(core);
    };
    the_failed_calls_are_told();
    the_roots_tell_each_call();
    where_a_step_differs_a_journal_is_wrong();
    let ClosedCore { ports, .. } = core.take_apart();
    all_fail_as_told(ports.as_slice());
    Err(place.before + first_step(rest_after(lines, place.at)) - 1)
}
