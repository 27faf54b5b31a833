//! The entries of a journal: legal and complete, or what is wrong with them.
ghost use Rattle.std.specs.Prelude.{◌≡◌, ◌<◌, ◌≤◌, ◌^◌, ℕ, List, [], None, true, false, length, IfOk, IfErr, IsTrue};
ghost use Rattle.i2c_base.specs.Limits.{MOST_CALLERS};
ghost use Rattle.i2c_base.specs.declared.reply.Reply.{Reply};
ghost use Rattle.i2c_spec.specs.Plain.{IsPlainBoard};
ghost use Rattle.i2c_spec.specs.Rules.{MeetsRules};
ghost use Rattle.bus_laws.specs.Reach.{AsksForMessages, AsksWithinLimits};
ghost use Rattle.bus_journal.specs.Told.{entries_of};
ghost use Rattle.bus_core.specs.Opening.{HasRoot};
ghost use Rattle.bus_core.specs.State.{has_caller, roots_in};
ghost use Rattle.check_laws.specs.Failed.{gaps_told};
ghost use Rattle.journal_check.specs.Checks.{HasPassed};
ghost use Rattle.journal_check.specs.Faults.{IsWrongIn};
ghost use Rattle.journal_check.specs.Steps.{AreLines, asks_on};

use crate::check::follow_journal;
use crate::fault::CheckFault;
use crate::open::first_open;
use crate::told_port::FailsAsTold;
use bus_core::BusCore;
use i2c_base::Caller;

/// A core follows a journal, over ports of which those calls fail that the journal tells to have failed. The core after it, where the
/// journal is legal and complete; or what is wrong with it first.
pub fn check_entries<'b, P: FailsAsTold, C: Caller>(
    core: BusCore<'b, P, C>,
    lines: &[u8],
    count: u8,
) -> Result<BusCore<'b, P, C>, CheckFault>
    requires tells { IsTrue P.tells }
    requires lines { AreLines lines.now (entries_of lines.now) }
    requires short { length lines.now ≤ 2 ^ 28 }
    requires empty { core.journal.entries ≡ [] }
    requires named { (r : ℕ) → P.gaps r ≡ gaps_told core.opening.board (entries_of lines.now) r }
    requires plain { IsPlainBoard core.opening.board }
    requires rules { MeetsRules core.opening.board }
    requires some { AsksForMessages (asks_on C.asked core.opening) }
    requires limits { AsksWithinLimits (asks_on C.asked core.opening) }
    requires wired { (r : ℕ) → r < length core.opening.board.roots → HasRoot (roots_in core) r }
    requires few { count ≤ MOST_CALLERS }
    requires has { (c : ℕ) → c < count → has_caller core.opening.scripts c ≡ true }
    requires numbered { (c : ℕ) → has_caller core.opening.scripts c ≡ false → count ≤ c }
    requires silent { (c : ℕ) → count ≤ c → (rs : List Reply) → asks_on C.asked core.opening c rs ≡ None }
    ensures ok { IfOk result (HasPassed C.asked P.tells core.entry.opening count (entries_of lines.now)) }
    ensures wrong { IfErr result (IsWrongIn core.entry.opening.board count (asks_on C.asked core.entry.opening) (entries_of lines.now)) }
{
    let mut followed = match follow_journal(core, lines, count) {
        Ok(core) => core,
        Err(entry) => return Err(CheckFault::Entry(entry as u32)),
    };
    match first_open(&mut followed, count) {
        Some(caller) => Err(CheckFault::Open(caller)),
        None => Ok(followed),
    }
}
