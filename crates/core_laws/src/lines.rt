//! A line step keeps what is kept between two steps of the core.
ghost use Rattle.std.specs.Prelude.{◌≡◌, ℕ, ◌+◌, ◌-◌, Bool, List, Option, ◌∷◌, Some, false, set, slice_get};
ghost use Rattle.i2c_base.specs.declared.entry.Entry.TheVariants as entry;
ghost use Rattle.i2c_base.specs.declared.errno.Errno.{Errno};
ghost use Rattle.i2c_base.specs.declared.ids.LockId.{LockId};
ghost use Rattle.i2c_base.specs.declared.port.Phase.TheVariants.{Idle};
ghost use Rattle.i2c_base.specs.declared.reply.Reply.TheVariants as answer;
ghost use Rattle.i2c_spec.specs.Tree.{root_of};
ghost use Rattle.bus_spec.specs.Readings.{cut_told};
ghost use Rattle.bus_spec.specs.Walk.{Job, Shift, job_bus};
ghost use Rattle.core_laws.specs.Behind.{with_place, line_entry, switched, settled_with};
ghost use Rattle.core_laws.specs.Core.{Place, Run, Whole, has_reply, IsFairRun, StandsAt, IsShifted, CoreKept};
ghost use Rattle.core_laws.specs.Seats.{IsLeft, IsDecided};
ghost use Rattle.core_laws.specs.Spots.{turned_to};
ghost use Rattle.bus_message.specs.Ports.{RootPort};
ghost use Rattle.core_laws.specs.Steps.{next_of};
ghost use Rattle.mux_plan.specs.Plans.{SeenView};

/// A line step finds its port idle. What is kept stays so over it, and over one that failed, with its settle after it.
pub fn the_whole_over_a_line()
    ensures idle { (run : Run) (whole : Whole) → CoreKept run whole → (place : ℕ) (p : Place) → slice_get whole.places place ≡ Some p
        → (job : Job) → next_of whole.locks p.tree ≡ Some (Shift job) → (at : ℕ) (old : RootPort) → slice_get whole.sockets at ≡ Some old → old.root ≡ root_of run.board (job_bus job) → old.phase ≡ Idle }
    ensures quiet { (run : Run) → IsFairRun run → (whole : Whole) → CoreKept run whole → (place : ℕ) (p : Place) (ls : List LockId) (n : ℕ) → StandsAt whole place p ls n → (room : ℕ)
        → (job : Job) (at : ℕ) (old new : RootPort) (failed : Bool) (words : SeenView) → IsShifted run whole p job at old new failed words
        → IsLeft run.board p.transfer (has_reply p.owed) p.sent (switched whole p job failed).tree → whole.room ≡ room + 1
        → CoreKept run (record (with_place whole place (switched whole p job failed) ls (n - 1)) {
          past = line_entry p job failed ∷ whole.past;
          locks = turned_to whole.locks words;
          sockets = set whole.sockets at new;
          room = room;
        }) }
    ensures settled { (run : Run) → IsFairRun run → (whole : Whole) → CoreKept run whole → (place : ℕ) (p : Place) (ls : List LockId) (n : ℕ) → StandsAt whole place p ls n → (room : ℕ)
        → (job : Job) (at : ℕ) (old new : RootPort) (failed : Bool) (words : SeenView) → IsShifted run whole p job at old new failed words
        → (err : Errno) → IsDecided run.board p.transfer (Some err) (switched whole p job failed).tree → has_reply p.owed ≡ false → whole.room ≡ room + 2
        → CoreKept run (record (with_place whole place (settled_with (switched whole p job failed) (answer.Err err)) ls (n - 1 - 1)) {
          past = entry.Settle p.number (answer.Err err) (cut_told (line_entry p job failed)) ∷ line_entry p job failed ∷ whole.past;
          locks = turned_to whole.locks words;
          sockets = set whole.sockets at new;
          room = room;
        }) }
{}
