//! The settle of a refused transfer keeps what is kept between two steps of the core.
ghost use Rattle.std.specs.Prelude.{◌≡◌, ℕ, ◌+◌, ◌-◌, List, Option, [], ◌∷◌, ◌++◌, Some, None};
ghost use Rattle.i2c_base.specs.declared.entry.Entry.TheVariants as entry;
ghost use Rattle.i2c_base.specs.declared.errno.Errno.{Errno};
ghost use Rattle.i2c_base.specs.declared.ids.LockId.{LockId};
ghost use Rattle.i2c_base.specs.declared.reply.Reply.{Reply};
ghost use Rattle.i2c_base.specs.Transfer.{TransferView};
ghost use Rattle.bus_spec.specs.Grammar.{walk_for};
ghost use Rattle.bus_spec.specs.Stepwise.{reply_by};
ghost use Rattle.bus_spec.specs.Walk.{Settle, Ends};
ghost use Rattle.core_laws.specs.Behind.{with_place, begun_with};
ghost use Rattle.core_laws.specs.Core.{Place, Run, Whole, IsFairRun, StandsAt, CoreKept};
ghost use Rattle.core_laws.specs.Steps.{next_of};

/// What is kept stays so over the lone settle of a transfer that is refused: its reply is handed over, and the next walk begins.
pub fn the_whole_over_a_refusal()
    ensures next { (run : Run) → IsFairRun run → (whole : Whole) → CoreKept run whole → (place : ℕ) (p : Place) (ls : List LockId) (n : ℕ) → StandsAt whole place p ls n → (room : ℕ)
        → (verdict : Option Errno) → next_of whole.locks p.tree ≡ Some (Settle verdict) → whole.room ≡ room + 1
        → (reply : Reply) → reply ≡ reply_by verdict (run.asks p.number p.taken) p.got
        → (t : TransferView) → run.asks p.number (p.taken ++ reply ∷ []) ≡ Some t
        → CoreKept run (record (with_place whole place (begun_with p (p.taken ++ reply ∷ []) t (walk_for run.board t)) [] (n - 1)) { past = entry.Settle p.number reply p.cut ∷ whole.past; room = room }) }
    ensures finish { (run : Run) → IsFairRun run → (whole : Whole) → CoreKept run whole → (place : ℕ) (p : Place) (ls : List LockId) (n : ℕ) → StandsAt whole place p ls n → (room : ℕ)
        → (verdict : Option Errno) → next_of whole.locks p.tree ≡ Some (Settle verdict) → whole.room ≡ room + 1
        → (reply : Reply) → reply ≡ reply_by verdict (run.asks p.number p.taken) p.got
        → run.asks p.number (p.taken ++ reply ∷ []) ≡ None
        → CoreKept run (record (with_place whole place (begun_with p (p.taken ++ reply ∷ []) p.transfer Ends) [] (n - 1)) { past = entry.Settle p.number reply p.cut ∷ whole.past; room = room }) }
{}
