//! One journal at most: what a schedule, the callers and the failures of the ports leave open.
ghost use Rattle.std.specs.Prelude.{◌≡◌, ℕ, List, reverse};
ghost use Rattle.i2c_base.specs.Board.{BoardView};
ghost use Rattle.i2c_base.specs.declared.entry.Entry.{Entry};
ghost use Rattle.i2c_base.specs.declared.reply.Reply.{Reply};
ghost use Rattle.i2c_spec.specs.Plain.{IsPlainBoard};
ghost use Rattle.i2c_spec.specs.Rules.{MeetsRules};
ghost use Rattle.i2c_spec.specs.History.{Asks};
ghost use Rattle.bus_spec.specs.Failures.{FailAlike};
ghost use Rattle.bus_spec.specs.Stepwise.{IsStepwise};
ghost use Rattle.bus_spec.specs.Schedule.{Follows};
ghost use Rattle.bus_spec.specs.Report.{report_of};
ghost use Rattle.bus_spec.specs.Legal.{IsComplete, IsLegal};
ghost use Rattle.bus_laws.specs.Reach.{AsksForMessages, AsksWithinLimits};

use crate::layers::a_legal_journal_is_stepwise;
use i2c_spec::an_accepted_board_is_a_tree;

/// For one board, callers, schedule and places of failed port calls at most one journal is complete and follows the
/// schedule; so what is printed is a function of these.
///
/// Where other calls fail a message may end otherwise, and under another schedule others step. A journal that isn't
/// complete may be a front of another. Entries that might not come may be any. The rules of the board, and a message in each
/// transfer, are what the tree law is shown of.
pub fn a_schedule_has_one_journal()
    ensures same { (b : BoardView) (callers : ℕ) (asks : Asks) (words : List ℕ) (past other : List Entry) → IsPlainBoard b → MeetsRules b → AsksForMessages asks
        → IsStepwise b callers asks past → IsStepwise b callers asks other → IsComplete b callers asks past → IsComplete b callers asks other
        → Follows words (reverse past) → Follows words (reverse other) → FailAlike b asks past other → past ≡ other }
    ensures printed { (b : BoardView) (callers : ℕ) (asks : Asks) (words : List ℕ) (past other : List Entry) → IsPlainBoard b → MeetsRules b → AsksForMessages asks
        → IsStepwise b callers asks past → IsStepwise b callers asks other → IsComplete b callers asks past → IsComplete b callers asks other
        → Follows words (reverse past) → Follows words (reverse other) → FailAlike b asks past other
        → (printed : ℕ → List Reply → List ℕ) → report_of printed callers (reverse past) ≡ report_of printed callers (reverse other) }
{
    an_accepted_board_is_a_tree();
}

/// A caller that is alone follows every schedule; so for one board, script and places of failed port calls at most one
/// journal is complete, and what is printed is a function of these.
///
/// Two callers may take turns in more than one way. Where other calls fail a message may end otherwise, and a journal that
/// isn't complete may be a front of another. Entries that might not come may be any. The rules of the board, and a message
/// in each transfer, are what the tree law is shown of.
pub fn a_caller_alone_has_one_journal()
    ensures follows { (b : BoardView) (asks : Asks) (words : List ℕ) (past : List Entry) → IsPlainBoard b → MeetsRules b → AsksForMessages asks
        → IsStepwise b 1 asks past → IsComplete b 1 asks past → Follows words (reverse past) }
    ensures same { (b : BoardView) (asks : Asks) (past other : List Entry) → IsPlainBoard b → MeetsRules b → AsksForMessages asks
        → IsStepwise b 1 asks past → IsStepwise b 1 asks other → IsComplete b 1 asks past → IsComplete b 1 asks other → FailAlike b asks past other → past ≡ other }
    ensures printed { (b : BoardView) (asks : Asks) (past other : List Entry) → IsPlainBoard b → MeetsRules b → AsksForMessages asks
        → IsStepwise b 1 asks past → IsStepwise b 1 asks other → IsComplete b 1 asks past → IsComplete b 1 asks other → FailAlike b asks past other
        → (printed : ℕ → List Reply → List ℕ) → report_of printed 1 (reverse past) ≡ report_of printed 1 (reverse other) }
{
    an_accepted_board_is_a_tree();
}

/// For one board, callers, schedule and places of failed port calls at most one journal is legal and complete and follows
/// the schedule.
///
/// Where other calls fail a message may end otherwise, and under another schedule others step. A journal that isn't
/// complete may be a front of another. The other premises are those of the law that a legal journal is stepwise.
pub fn a_schedule_has_one_legal_journal()
    ensures { (b : BoardView) (callers : ℕ) (asks : Asks) (words : List ℕ) (past other : List Entry) → IsPlainBoard b → MeetsRules b → AsksForMessages asks → AsksWithinLimits asks
        → IsLegal b callers asks past → IsLegal b callers asks other → IsComplete b callers asks past → IsComplete b callers asks other
        → Follows words (reverse past) → Follows words (reverse other) → FailAlike b asks past other → past ≡ other }
{
    a_legal_journal_is_stepwise();
    a_schedule_has_one_journal();
}
