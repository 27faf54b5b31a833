//! A lock that is taken or freed keeps what is kept between two steps of the core.
ghost use Rattle.std.specs.Prelude.{◌≡◌, ℕ, ◌+◌, ◌-◌, List, [], ◌∷◌, ◌++◌, Some, None, false, true, take};
ghost use Rattle.i2c_base.specs.declared.entry.Entry.TheVariants as entry;
ghost use Rattle.i2c_base.specs.declared.ids.LockId.{LockId};
ghost use Rattle.i2c_base.specs.declared.reply.Reply.{Reply};
ghost use Rattle.i2c_base.specs.Transfer.{TransferView};
ghost use Rattle.bus_spec.specs.Grammar.{is_over, walk_for};
ghost use Rattle.bus_spec.specs.Walk.{Take, Free, Passed, Ends};
ghost use Rattle.seg_locks.specs.Locks.{holder_in, with_holder};
ghost use Rattle.core_laws.specs.Behind.{with_place, passed, begun_with};
ghost use Rattle.core_laws.specs.Core.{Place, Run, Whole, IsFairRun, StandsAt, CoreKept};
ghost use Rattle.core_laws.specs.Steps.{next_of, behind_of};

/// What is kept stays so over a lock that is taken, or freed. Where a walk ends with that, its reply is handed over, and the
/// next walk begins.
pub fn the_whole_over_locks()
    ensures take { (run : Run) → IsFairRun run → (whole : Whole) → CoreKept run whole → (place : ℕ) (p : Place) (ls : List LockId) (n : ℕ) → StandsAt whole place p ls n → (room : ℕ)
        → (l : LockId) → next_of whole.locks p.tree ≡ Some (Take l) → holder_in whole.locks l ≡ None → whole.room ≡ room + 1
        → CoreKept run (record (with_place whole place (passed whole p) (l ∷ ls) (n - 1)) { past = entry.Take p.number l ∷ whole.past; locks = with_holder whole.locks l (Some p.number); room = room }) }
    ensures free { (run : Run) → IsFairRun run → (whole : Whole) → CoreKept run whole → (place : ℕ) (p : Place) (ls : List LockId) (n : ℕ) → StandsAt whole place p ls n → (room : ℕ)
        → (l : LockId) → next_of whole.locks p.tree ≡ Some (Free l) → is_over (behind_of whole.locks p.tree Passed) ≡ false → whole.room ≡ room + 1
        → (rest : List LockId) × (ls ≡ l ∷ rest)
        × CoreKept run (record (with_place whole place (passed whole p) rest (n - 1)) { past = entry.Free p.number l ∷ whole.past; locks = with_holder whole.locks l None; room = room }) }
    ensures end { (run : Run) → IsFairRun run → (whole : Whole) → CoreKept run whole → (place : ℕ) (p : Place) (ls : List LockId) (n : ℕ) → StandsAt whole place p ls n → (room : ℕ)
        → (l : LockId) → next_of whole.locks p.tree ≡ Some (Free l) → is_over (behind_of whole.locks p.tree Passed) ≡ true → (r : Reply) → p.owed ≡ r ∷ [] → whole.room ≡ room + 1
        → (t : TransferView) → run.asks p.number (p.taken ++ p.owed) ≡ Some t
        → CoreKept run (record (with_place whole place (begun_with p (p.taken ++ p.owed) t (walk_for run.board t)) [] (n - 1)) { past = entry.Free p.number l ∷ whole.past; locks = with_holder whole.locks l None; room = room }) }
    ensures finish { (run : Run) → IsFairRun run → (whole : Whole) → CoreKept run whole → (place : ℕ) (p : Place) (ls : List LockId) (n : ℕ) → StandsAt whole place p ls n → (room : ℕ)
        → (l : LockId) → next_of whole.locks p.tree ≡ Some (Free l) → is_over (behind_of whole.locks p.tree Passed) ≡ true → (r : Reply) → p.owed ≡ r ∷ [] → whole.room ≡ room + 1
        → run.asks p.number (p.taken ++ p.owed) ≡ None
        → CoreKept run (record (with_place whole place (begun_with p (p.taken ++ p.owed) p.transfer Ends) [] (n - 1)) { past = entry.Free p.number l ∷ whole.past; locks = with_holder whole.locks l None; room = room }) }
{}
