//! The walk tree, which says what comes next, has the paths that the walk rule lists whole.
ghost use Rattle.std.specs.Prelude.{◌≡◌, ◌↔◌, ℕ, List, [], ◌++◌, Option};
ghost use Rattle.i2c_base.specs.declared.entry.Entry.{Entry};
ghost use Rattle.i2c_base.specs.declared.reply.Reply.{Reply};
ghost use Rattle.i2c_base.specs.Board.{BoardView};
ghost use Rattle.i2c_base.specs.Transfer.{TransferView};
ghost use Rattle.i2c_spec.specs.Plain.{IsPlainBoard};
ghost use Rattle.i2c_spec.specs.Rules.{MeetsRules};
ghost use Rattle.i2c_spec.specs.Tree.{Hop};
ghost use Rattle.i2c_spec.specs.History.{Asks};
ghost use Rattle.bus_spec.specs.Walk.{Job, JobOutcome, WalkTree, Ends};
ghost use Rattle.bus_spec.specs.Grammar.{full, inner, walk_for};
ghost use Rattle.bus_spec.specs.WalkRule.{PathStep, IsFull, IsInner, IsWalk};
ghost use Rattle.bus_spec.specs.ByTree.{Step, AreTransfers, KeepsWalks};
ghost use Rattle.bus_spec.specs.Stepwise.{IsStepwise};
ghost use Rattle.bus_spec.specs.Legal.{IsLegal, IsComplete};
ghost use Rattle.bus_spec.specs.Ruled.{IsRuled, IsThrough};
ghost use Rattle.bus_spec.specs.Stand.{stand, calls_by};
ghost use Rattle.bus_spec.specs.Past.{mark, world_at, calls_of};
ghost use Rattle.bus_spec.specs.Slots.{mark_in};
ghost use Rattle.bus_laws.specs.Reach.{AsksForMessages, AsksWithinLimits};
ghost use Rattle.flat_laws.specs.Paths.{note_of, IsPath, IsDoneBy};
ghost use Rattle.flat_laws.specs.Led.{AreWalks, AreAllWalks};

use i2c_spec::an_accepted_board_is_a_tree;

/// A job with locks of its own takes all of them, in the order of `locks_of`, before anything else; then comes the whole
/// of the job; then the same locks are freed, the last one taken first.
///
/// It is so on each path to the end of the walk, whatever its looks are answered and whatever comes of its steps, with no
/// premise. One whose locks are held goes through its four parts: the close of a marked mux, the select, the job on the bus
/// before the mux, the deselect.
pub fn a_job_stands_between_its_locks()
    ensures full { (b : BoardView) (root : ℕ) (hs : List Hop) (job : Job) (whose : List Job) (k : JobOutcome → WalkTree) (steps : List PathStep)
        → IsPath steps (full b root hs job (note_of job whose) k) Ends → IsDoneBy (IsFull b root hs) job whose k steps }
    ensures inner { (b : BoardView) (root : ℕ) (hs : List Hop) (job : Job) (whose : List Job) (k : JobOutcome → WalkTree) (steps : List PathStep)
        → IsPath steps (inner b root hs job (note_of job whose) k) Ends → IsDoneBy (IsInner b root hs) job whose k steps }
{}

/// The paths of a transfer's walk are exactly the lists of the walk rule; those that end on the way are exactly their fronts.
///
/// No premise is needed.
pub fn each_walk_keeps_the_walk_rule()
    ensures whole { (b : BoardView) (t : TransferView) (steps : List PathStep) → IsPath steps (walk_for b t) Ends ↔ IsWalk b t steps }
    ensures front { (b : BoardView) (t : TransferView) (steps : List PathStep)
        → ((left : WalkTree) × IsPath steps (walk_for b t) left) ↔ ((rest : List PathStep) × IsWalk b t (steps ++ rest)) }
{}

/// The entries of a caller are walks of the tree exactly where they are, one after the other, what the walk rule lists for
/// what the caller asks for next, the last one maybe a front. So a journal keeps its walks exactly where each caller's entries
/// do.
///
/// No premise is needed.
pub fn a_journal_keeps_the_walk_rule()
    ensures caller { (b : BoardView) (asks : List Reply → Option TransferView) (replies : List Reply) (steps : List Step)
        → AreWalks b asks replies steps ↔ AreTransfers b asks replies steps }
    ensures journal { (b : BoardView) (asks : Asks) (past : List Entry)
        → AreAllWalks b asks past ↔ KeepsWalks b asks past }
{}

/// A journal is legal exactly where it keeps the rules as they are told without any walk tree, by what each entry does: the
/// walk rule and the places of the entries leave no choice of it.
///
/// No premise is needed.
pub fn a_journal_is_legal_by_its_entries_alone()
    ensures { (b : BoardView) (callers : ℕ) (asks : Asks) (past : List Entry) → IsLegal b callers asks past ↔ IsRuled b callers asks past }
{}

/// A journal that keeps the rules is complete exactly where nobody asks for more and no lock is held: each caller's walk has
/// ended then, since a walk that has begun holds a lock until it ends.
///
/// Entries that might not come may free a lock that their caller's walk still needs. The other premises are those of the law
/// that a legal journal is stepwise.
pub fn a_journal_is_complete_by_its_entries_alone()
    ensures ruled { (b : BoardView) (callers : ℕ) (asks : Asks) (past : List Entry) → IsPlainBoard b → MeetsRules b → AsksForMessages asks → AsksWithinLimits asks
        → IsRuled b callers asks past → IsComplete b callers asks past ↔ IsThrough callers asks past }
    ensures legal { (b : BoardView) (callers : ℕ) (asks : Asks) (past : List Entry) → IsPlainBoard b → MeetsRules b → AsksForMessages asks → AsksWithinLimits asks
        → IsLegal b callers asks past → IsComplete b callers asks past ↔ IsThrough callers asks past }
    ensures stepwise { (b : BoardView) (callers : ℕ) (asks : Asks) (past : List Entry) → IsPlainBoard b → MeetsRules b → AsksForMessages asks
        → IsStepwise b callers asks past → IsComplete b callers asks past ↔ IsThrough callers asks past }
{
    an_accepted_board_is_a_tree();
}

/// By what each entry of a journal does, which is fixed by the walk rule, all stands as the walk tree tells it: the marks, the
/// worlds, and the calls of the ports.
pub fn what_each_entry_does_tells_where_all_stands()
    ensures marks { (b : BoardView) (callers : ℕ) (asks : Asks) (past : List Entry) (ruled : IsRuled b callers asks past) (p : ℕ) → mark b asks past p ≡ mark_in ((stand b ruled.deeds past).slot p).slot }
    ensures worlds { (b : BoardView) (callers : ℕ) (asks : Asks) (past : List Entry) (ruled : IsRuled b callers asks past) (r : ℕ) → world_at b asks past r ≡ (stand b ruled.deeds past).worlds r }
    ensures calls { (b : BoardView) (callers : ℕ) (asks : Asks) (past : List Entry) (ruled : IsRuled b callers asks past) (r : ℕ) → calls_of b asks past r ≡ calls_by b ruled.deeds past r }
{}
