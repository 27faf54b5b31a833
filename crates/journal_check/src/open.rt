//! Callers that have not come to their end.
ghost use Rattle.std.specs.Prelude.{◌≡◌, ◌<◌, ◌≤◌, ℕ, List, true, false, None, reverse, IsTrue, IfSome};
ghost use Rattle.i2c_base.specs.declared.reply.Reply.{Reply};
ghost use Rattle.i2c_spec.specs.Plain.{IsPlainBoard};
ghost use Rattle.i2c_spec.specs.Rules.{MeetsRules};
ghost use Rattle.bus_spec.specs.Legal.{IsComplete, IsLegal};
ghost use Rattle.bus_laws.specs.Reach.{AsksForMessages, AsksWithinLimits};
ghost use Rattle.bus_core.specs.Answers.{IsOverIn};
ghost use Rattle.bus_core.specs.State.{AllThrough, has_caller};
ghost use Rattle.journal_check.specs.Opens.{IsFirstOpen};
ghost use Rattle.journal_check.specs.Steps.{IsSteady, asks_on};

use bus_core::{BusCore, StepAnswer};
use flat_laws::{a_finished_journal_is_complete, a_journal_is_legal};
use i2c_base::Caller;
use ports::Port;

// A caller's script isn't used up, or its walk isn't whole.
fn is_open<P: Port, C: Caller>(core: &mut BusCore<'_, P, C>, caller: u8) -> bool
    requires tells { IsTrue P.tells }
    requires has { has_caller core.old.opening.scripts caller ≡ true }
    ensures yes { result ≡ true → IsOverIn C.asked core.old caller → ⊥ }
    ensures no { result ≡ false → (core.new ≡ core.old) × IsOverIn C.asked core.old caller }
{
    match core.step(caller) {
        StepAnswer::Finished => false,
        _ => true,
    }
}

// The least caller that is open.
fn least_open<P: Port, C: Caller>(core: &mut BusCore<'_, P, C>, count: u8) -> Option<u8>
    requires tells { IsTrue P.tells }
    requires has { (c : ℕ) → c < count → has_caller core.old.opening.scripts c ≡ true }
    ensures none { result ≡ None → (core.new ≡ core.old) × ((c : ℕ) → c < count → IsOverIn C.asked core.old c) }
    ensures some { IfSome result (IsFirstOpen C.asked core.old count) }
{
    for caller in 0..count {
        if is_open(core, caller) {
            return Some(caller);
        }
    }
    None
}

/// A core has followed a journal, which is legal so far. The least caller whose script isn't used up, or whose last walk isn't
/// whole; where there is none the journal is complete. That caller may then have made a step.
pub fn first_open<P: Port, C: Caller>(core: &mut BusCore<'_, P, C>, count: u8) -> Option<u8>
    requires tells { IsTrue P.tells }
    requires steady { IsSteady C.asked core.old.opening core.old.journal.entries }
    requires plain { IsPlainBoard core.old.opening.board }
    requires rules { MeetsRules core.old.opening.board }
    requires some { AsksForMessages (asks_on C.asked core.old.opening) }
    requires limits { AsksWithinLimits (asks_on C.asked core.old.opening) }
    requires has { (c : ℕ) → c < count → has_caller core.old.opening.scripts c ≡ true }
    requires silent { (c : ℕ) → count ≤ c → (rs : List Reply) → asks_on C.asked core.old.opening c rs ≡ None }
    ensures legal { IsLegal core.old.opening.board count (asks_on C.asked core.old.opening) (reverse core.old.journal.entries) }
    ensures none { result ≡ None → (core.new ≡ core.old) × IsComplete core.old.opening.board count (asks_on C.asked core.old.opening) (reverse core.old.journal.entries) }
    ensures some { IfSome result (IsFirstOpen C.asked core.old count) }
    ensures through { result ≡ None → AllThrough C.asked P.tells core.new }
{
    a_journal_is_legal();
    a_finished_journal_is_complete();
    match least_open(core, count) {
        Some(caller) => Some(caller),
        // none can make a step: so each has taken the replies that the journal tells
        None => core.ready(),
    }
}
