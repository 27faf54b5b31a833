//! Some caller can step until all have ended.
ghost use Rattle.std.specs.Prelude.{◌≡◌, ℕ, IsTrue, [], Some, None, slice_get};
ghost use Rattle.bus_spec.specs.Walk.{WalkTree};
ghost use Rattle.bus_laws.specs.Ready.{IsStuck};
ghost use Rattle.bus_laws.specs.Waiting.{IsHeldUp};
ghost use Rattle.mux_plan.specs.Plans.{slots_of};
ghost use Rattle.seg_locks.specs.Locks.{holder_in};
ghost use Rattle.core_laws.specs.Core.{Place, Run, Whole, trees_of, CoreKept};
ghost use Rattle.core_laws.specs.Steps.{next_of};
ghost use Rattle.core_laws.specs.Spots.{seen_of};

/// Where each walk has ended or waits for a lock, all have ended; whose walk has ended asks for nothing more; and who waits
/// by memory is stuck by the journal.
pub fn someone_is_ready()
    ensures none { (run : Run) (whole : Whole) → CoreKept run whole
        → ((i : ℕ) (w : WalkTree) → slice_get (trees_of whole.places) i ≡ Some w → IsHeldUp (holder_in whole.locks) (slots_of (seen_of whole.locks)) w)
        → (i : ℕ) (w : WalkTree) → slice_get (trees_of whole.places) i ≡ Some w → next_of whole.locks w ≡ None }
    ensures finished { (run : Run) (whole : Whole) → CoreKept run whole → (place : ℕ) (p : Place) → slice_get whole.places place ≡ Some p
        → next_of whole.locks p.tree ≡ None → (run.asks p.number p.taken ≡ None) × (p.owed ≡ []) }
    ensures stuck { (run : Run) (whole : Whole) → CoreKept run whole → IsTrue run.tells → (place : ℕ) (p : Place) → slice_get whole.places place ≡ Some p
        → IsHeldUp (holder_in whole.locks) (slots_of (seen_of whole.locks)) p.tree → IsStuck run.board run.asks whole.past p.number }
{}
