//! What the lock words tell of marks and kept channels.
ghost use Rattle.std.specs.Prelude.{◌≡◌, ℕ, List, Option, Some, length, slice_get};
ghost use Rattle.i2c_base.specs.declared.ids.LockId.{LockId};
ghost use Rattle.i2c_base.specs.Board.{BoardView};
ghost use Rattle.bus_spec.specs.Slots.{Slots, mark_in};
ghost use Rattle.bus_spec.specs.Walk.{Act, ActOutcome, Note, WalkTree};
ghost use Rattle.bus_spec.specs.Grammar.{seen, first_note};
ghost use Rattle.bus_laws.specs.Holds.{IsMarkOn, HoldsLocks};
ghost use Rattle.mux_plan.specs.Plans.{SeenView, mark_on, slots_of, slots_after};
ghost use Rattle.mux_plan.specs.Marks.{updates_after, applied, applied_kept};
ghost use Rattle.core_laws.specs.Core.{Place, Run, Whole, CoreKept};
ghost use Rattle.core_laws.specs.Steps.{next_of};
ghost use Rattle.core_laws.specs.Spots.{TellsKept, seen_of};
ghost use Rattle.core_laws.specs.Wants.{WantsIn};

/// A walk that holds its locks asks of each mux where it stands: where lock words tell the marks and the channels that a
/// journal tells, its looks are answered the same.
pub fn lock_words_answer_each_look()
    ensures { (b : BoardView) (held : List LockId) (v : Slots) (s : SeenView) → ((p : ℕ) → mark_in (v p).slot ≡ mark_on s p) → TellsKept b v s.kept
        → ((p : ℕ) → IsMarkOn b p (mark_on s p)) → (w : WalkTree) → HoldsLocks b held w → seen v w ≡ seen (slots_of s) w }
{}

/// The channels that a step changes: with them those of all muxes tell what is known after the step.
pub fn changed_channels_are_told()
    ensures { (b : BoardView) (held : List LockId) (act : Option Act) (note : Note) (out : ActOutcome) → WantsIn b held act note
        → (v : Slots) (kept : List (Option ℕ)) → length kept ≡ length b.muxes → TellsKept b v kept
        → TellsKept b (slots_after act note out v) (applied_kept (updates_after act note out) kept) }
{}

/// What a step of one caller changes of the lock words answers no look of another: the looks in front of each other walk are
/// answered as before it.
///
/// Of its own walk it would be false: a select that went through is no longer to be made.
pub fn looks_stay_while_others_turn()
    ensures { (run : Run) (whole : Whole) → CoreKept run whole → (place : ℕ) (p : Place) → slice_get whole.places place ≡ Some p
        → (act : Act) → next_of whole.locks p.tree ≡ Some act → (out : ActOutcome)
        → (other : ℕ) (q : Place) → slice_get whole.places other ≡ Some q → (other ≡ place → ⊥)
        → seen (slots_of (record {
          marks = applied (updates_after (next_of whole.locks p.tree) (first_note (seen (slots_of (seen_of whole.locks)) p.tree)) out) whole.locks.marks;
          kept = applied_kept (updates_after (next_of whole.locks p.tree) (first_note (seen (slots_of (seen_of whole.locks)) p.tree)) out) whole.locks.kept;
        })) q.tree ≡ seen (slots_of (seen_of whole.locks)) q.tree }
{}
