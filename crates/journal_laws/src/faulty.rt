//! Port calls that fail: what they mark stays marked until it is closed, and what they cut.
ghost use Rattle.std.specs.List.{sum_by, range_with_len};
ghost use Rattle.std.specs.Prelude.{length, ◌≡◌, ℕ, ◌≤◌, ◌⊎◌, List, ◌∷◌, ◌++◌, Some, None};
ghost use Rattle.i2c_base.specs.Board.{BoardView};
ghost use Rattle.i2c_base.specs.declared.entry.Entry.{Entry};
ghost use Rattle.i2c_spec.specs.Plain.{IsPlainBoard};
ghost use Rattle.i2c_spec.specs.Rules.{MeetsRules};
ghost use Rattle.i2c_spec.specs.History.{Asks};
ghost use Rattle.bus_spec.specs.Readings.{OfMessage};
ghost use Rattle.bus_spec.specs.Past.{calls_of, kept_channel, mark};
ghost use Rattle.bus_spec.specs.Stepwise.{IsStepwise};
ghost use Rattle.bus_spec.specs.Legal.{IsLegal};
ghost use Rattle.bus_laws.specs.Reach.{AsksForMessages, AsksWithinLimits};
ghost use Rattle.bus_spec.specs.Faults.{faults_in};
ghost use Rattle.journal_laws.specs.Counts.{failed_on, failures, remotes};
ghost use Rattle.journal_laws.specs.Faulty.{HasClosed, HasSwitchedOff, NoneCloses, PassesBy, KeepsCuts};

use i2c_spec::an_accepted_board_is_a_tree;

/// A mark stays, whoever steps and whatever fails, until a close of the marked mux was sent without failing by the port; and
/// until then no message goes through a mux on its bus. A marked mux keeps no channel, and after such a close, or such a
/// deselect, it has none either: which one it had open before is forgotten.
///
/// A mux that may be open is the mark of its bus, by the law on what a mux keeps. A journal whose entries need not come where
/// they do could select over the mark, or close a mux on another bus; and what a step finds on its bus is known only on an
/// accepted board, of transfers with a message. The legal form has one premise more, that of the law that a legal journal is
/// stepwise.
pub fn a_mark_stays_until_its_mux_is_closed()
    ensures stays { (b : BoardView) (callers : ℕ) (asks : Asks) (e : Entry) (past : List Entry) → IsPlainBoard b → MeetsRules b → AsksForMessages asks → IsStepwise b callers asks (e ∷ past)
        → (p m : ℕ) → mark b asks past p ≡ Some m → (mark b asks (e ∷ past) p ≡ Some m) ⊎ HasClosed b asks p m e past }
    ensures passed_by { (b : BoardView) (callers : ℕ) (asks : Asks) (e : Entry) (later past : List Entry) → IsPlainBoard b → MeetsRules b → AsksForMessages asks
        → IsStepwise b callers asks (e ∷ (later ++ past)) → (p m : ℕ) → mark b asks past p ≡ Some m → NoneCloses b asks p m later past → OfMessage (PassesBy b p) e }
    ensures unkept { (b : BoardView) (callers : ℕ) (asks : Asks) (past : List Entry) → IsPlainBoard b → MeetsRules b → AsksForMessages asks → IsStepwise b callers asks past
        → (p m : ℕ) → mark b asks past p ≡ Some m → kept_channel b asks past m ≡ None }
    ensures switched_off { (b : BoardView) (callers : ℕ) (asks : Asks) (e : Entry) (past : List Entry) → IsPlainBoard b → MeetsRules b → AsksForMessages asks → IsStepwise b callers asks (e ∷ past)
        → (p m : ℕ) → HasSwitchedOff b asks p m e past → kept_channel b asks (e ∷ past) m ≡ None }
    ensures legal { (b : BoardView) (callers : ℕ) (asks : Asks) (more : List Entry) (e : Entry) (later past : List Entry) → IsPlainBoard b → MeetsRules b → AsksForMessages asks → AsksWithinLimits asks
        → IsLegal b callers asks (more ++ e ∷ (later ++ past)) → (p m : ℕ) → mark b asks past p ≡ Some m → NoneCloses b asks p m later past → OfMessage (PassesBy b p) e }
{
    an_accepted_board_is_a_tree();
}

/// A settle tells a cut exactly where a message of its caller's own, or a message or line step of a close or a select that
/// isn't on the way of a deselect, failed by the port since the walk began; and exactly then its reply is EREMOTEIO. So a
/// deselect that fails, with all that is on its way, changes no reply.
///
/// A journal whose entries need not come where they do could tell any cut. That no cut is left from a walk before is known
/// only of an accepted board and of transfers with a message: there each walk ends after a lock that is freed. The legal
/// form has one premise more, that of the law that a legal journal is stepwise.
pub fn a_cut_is_of_a_step_on_the_way()
    ensures stepwise { (b : BoardView) (callers : ℕ) (asks : Asks) (past : List Entry) → IsPlainBoard b → MeetsRules b → AsksForMessages asks → IsStepwise b callers asks past → KeepsCuts b asks past }
    ensures legal { (b : BoardView) (callers : ℕ) (asks : Asks) (past : List Entry) → IsPlainBoard b → MeetsRules b → AsksForMessages asks → AsksWithinLimits asks
        → IsLegal b callers asks past → KeepsCuts b asks past }
{
    an_accepted_board_is_a_tree();
}

/// One message or line step that fails by the port makes at most one reply EREMOTEIO; so does one call that fails, on
/// whichever root's port.
///
/// The premises are those of the law before, for the same reasons: a journal whose entries need not come where they do could
/// settle so where nothing failed.
pub fn one_failure_fails_one_reply_at_most()
    ensures stepwise { (b : BoardView) (callers : ℕ) (asks : Asks) (past : List Entry) → IsPlainBoard b → MeetsRules b → AsksForMessages asks → IsStepwise b callers asks past → remotes past ≤ failures past }
    ensures faults { (b : BoardView) (callers : ℕ) (asks : Asks) (past : List Entry) → IsPlainBoard b → MeetsRules b → AsksForMessages asks → IsStepwise b callers asks past
        → remotes past ≤ sum_by (λ r. faults_in (calls_of b asks past r)) (range_with_len 0 (length b.roots)) }
    ensures legal { (b : BoardView) (callers : ℕ) (asks : Asks) (past : List Entry) → IsPlainBoard b → MeetsRules b → AsksForMessages asks → AsksWithinLimits asks
        → IsLegal b callers asks past → remotes past ≤ failures past }
{
    an_accepted_board_is_a_tree();
}

/// On each root as many messages and line steps failed by the port as calls of that port did: one call that fails is told
/// in one entry.
///
/// An entry that could not come where it does may tell a failure of no call; and on which root a line step is made is known only
/// on an accepted board, of transfers with a message. The legal form has one premise more, that of the law that a legal
/// journal is stepwise.
pub fn each_fault_is_a_failed_entry()
    ensures stepwise { (b : BoardView) (callers : ℕ) (asks : Asks) (past : List Entry) → IsPlainBoard b → MeetsRules b → AsksForMessages asks → IsStepwise b callers asks past
        → (r : ℕ) → faults_in (calls_of b asks past r) ≡ failed_on b r past }
    ensures legal { (b : BoardView) (callers : ℕ) (asks : Asks) (past : List Entry) → IsPlainBoard b → MeetsRules b → AsksForMessages asks → AsksWithinLimits asks
        → IsLegal b callers asks past → (r : ℕ) → faults_in (calls_of b asks past r) ≡ failed_on b r past }
{
    an_accepted_board_is_a_tree();
}
