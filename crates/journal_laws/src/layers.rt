//! The rules over a whole journal and the conditions on one entry more say the same.
ghost use Rattle.std.specs.Prelude.{◌≡◌, ℕ, ◌<◌, ◌⊎◌, List, ◌∷◌, ◌++◌, reverse, None, Some};
ghost use Rattle.std.specs.List.{AllByRecursion};
ghost use Rattle.i2c_base.specs.Board.{BoardView};
ghost use Rattle.i2c_base.specs.declared.entry.Entry.{Entry};
ghost use Rattle.i2c_spec.specs.Plain.{IsPlainBoard};
ghost use Rattle.i2c_spec.specs.Rules.{MeetsRules};
ghost use Rattle.i2c_spec.specs.History.{Asks};
ghost use Rattle.bus_spec.specs.Readings.{caller_of};
ghost use Rattle.bus_spec.specs.Grammar.{first_act};
ghost use Rattle.bus_spec.specs.Past.{Now, current, now};
ghost use Rattle.bus_spec.specs.Play.{Failing, next_entry, played};
ghost use Rattle.bus_spec.specs.Stepwise.{May, IsStepwise};
ghost use Rattle.bus_spec.specs.Legal.{IsLegal};
ghost use Rattle.bus_laws.specs.Reach.{AsksForMessages, AsksWithinLimits};
ghost use Rattle.journal_laws.specs.Layers.{BelongsTo, FailsAs};

use i2c_spec::an_accepted_board_is_a_tree;

/// Each entry of a legal journal might come where it did, and no settle is due after them: what the rules say of the
/// whole, each step says by itself. So each law over journals whose entries might come where they did is one over legal journals.
///
/// Nothing is said of whole steps, since the walk rule and the settle rule keep each settle with its message or line
/// step. Of a board or a transfer that breaks its rules nothing tells that a walk decides the reply of the flat world; so a
/// transfer without a message is done there, while its walk may decide that nobody acknowledged.
pub fn a_legal_journal_is_stepwise()
    ensures stepwise { (b : BoardView) (callers : ℕ) (asks : Asks) (past : List Entry) → IsPlainBoard b → MeetsRules b → AsksForMessages asks → AsksWithinLimits asks
        → IsLegal b callers asks past → IsStepwise b callers asks past }
    ensures settled { (b : BoardView) (callers : ℕ) (asks : Asks) (past : List Entry) → IsPlainBoard b → MeetsRules b → AsksForMessages asks → AsksWithinLimits asks
        → IsLegal b callers asks past → (now b asks past).due ≡ None }
{
    an_accepted_board_is_a_tree();
}

/// Each prefix of a legal journal is legal, where it doesn't end between a message or a line step and its settle.
///
/// One that does is not legal: its caller's last walk would end with that settle due. The other premises are those of
/// the law before.
pub fn each_prefix_of_a_legal_journal_is_legal()
    ensures { (b : BoardView) (callers : ℕ) (asks : Asks) (later : List Entry) (next : Entry) (past : List Entry) → IsPlainBoard b → MeetsRules b → AsksForMessages asks → AsksWithinLimits asks
        → IsLegal b callers asks (later ++ next ∷ past) → (BelongsTo next past → ⊥) → IsLegal b callers asks past }
{
    an_accepted_board_is_a_tree();
}

/// What a caller adds next, where these calls of the ports fail, is exactly the entry that may come and fails as they do.
///
/// `fails` and `adds` need nothing of the place. Without the other premises, `may` would let a caller go on while another's settle is due, and
/// a stranger step; and on a board that breaks its rules, for a transfer without a message, or at a place that no caller can
/// reach, a message could be heard by two, which no entry tells.
pub fn a_caller_adds_what_may_come()
    ensures may { (b : BoardView) (callers : ℕ) (asks : Asks) (fails : Failing) (past : List Entry) (c : ℕ) (e : Entry) → IsPlainBoard b → MeetsRules b → AsksForMessages asks
        → IsStepwise b callers asks past → c < callers → ((now b asks past).due ≡ None) ⊎ ((now b asks past).due ≡ Some c)
        → next_entry b asks fails (now b asks past) c ≡ Some e → May b callers asks (now b asks past) e }
    ensures fails { (b : BoardView) (asks : Asks) (fails : Failing) (n : Now) (c : ℕ) (e : Entry) → next_entry b asks fails n c ≡ Some e
        → FailsAs b fails n (first_act (current b asks n c)) e }
    ensures adds { (b : BoardView) (callers : ℕ) (asks : Asks) (fails : Failing) (n : Now) (e : Entry) → May b callers asks n e
        → FailsAs b fails n (first_act (current b asks n (caller_of e))) e → next_entry b asks fails n (caller_of e) ≡ Some e }
{
    an_accepted_board_is_a_tree();
}

/// The journal that callers make step by step, whichever calls of the ports fail, is legal.
///
/// A word that is no caller's would add entries of a stranger. The other premises are those of the law before, and of the
/// law that a stepwise journal is legal.
pub fn a_played_journal_is_legal()
    ensures stepwise { (b : BoardView) (callers : ℕ) (asks : Asks) (fails : Failing) (words : List ℕ) → IsPlainBoard b → MeetsRules b → AsksForMessages asks
        → AllByRecursion (λ c. c < callers) words → IsStepwise b callers asks (reverse (played b asks fails words)) }
    ensures legal { (b : BoardView) (callers : ℕ) (asks : Asks) (fails : Failing) (words : List ℕ) → IsPlainBoard b → MeetsRules b → AsksForMessages asks → AsksWithinLimits asks
        → AllByRecursion (λ c. c < callers) words → IsLegal b callers asks (reverse (played b asks fails words)) }
{
    an_accepted_board_is_a_tree();
}
