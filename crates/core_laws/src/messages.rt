//! A message keeps what is kept between two steps of the core.
ghost use Rattle.std.specs.Prelude.{◌≡◌, ◌⊎◌, ℕ, ◌+◌, ◌-◌, List, Option, [], ◌∷◌, length, Some, false, set, take, slice_get};
ghost use Rattle.i2c_base.specs.declared.entry.Entry.TheVariants as entry;
ghost use Rattle.i2c_base.specs.declared.errno.Errno.{Errno};
ghost use Rattle.i2c_base.specs.declared.ids.LockId.{LockId};
ghost use Rattle.i2c_base.specs.declared.reply.Reply.{Reply};
ghost use Rattle.i2c_base.specs.Fitting.{Fits, FitsReads};
ghost use Rattle.bus_spec.specs.Past.{got_after};
ghost use Rattle.bus_spec.specs.Readings.{message_cut};
ghost use Rattle.bus_spec.specs.Stepwise.{reply_by};
ghost use Rattle.bus_spec.specs.Walk.{Job, Send, Sent};
ghost use Rattle.bus_laws.specs.Costs.{weight_at};
ghost use Rattle.core_laws.specs.Behind.{with_place, message_entry, spoken, settled_with};
ghost use Rattle.core_laws.specs.Core.{Place, Run, Whole, has_reply, IsFairRun, StandsAt, IsSent, CoreKept};
ghost use Rattle.core_laws.specs.Seats.{IsLeft, IsDecided};
ghost use Rattle.mux_plan.specs.declared.task.NextMsg.{NextMsg};
ghost use Rattle.core_laws.specs.Sends.{gone_after};
ghost use Rattle.core_laws.specs.Spots.{turned_to};
ghost use Rattle.bus_message.specs.Ports.{RootPort};
ghost use Rattle.bus_message.specs.declared.message.MsgResult.{MsgResult};
ghost use Rattle.core_laws.specs.Steps.{behind_of};
ghost use Rattle.i2c_base.specs.Need.{bytes_given};
ghost use Rattle.mux_plan.specs.Plans.{SeenView};

/// What is kept stays so over a message, and over one that decides, with its settle after it.
pub fn the_whole_over_a_message()
    ensures quiet { (run : Run) → IsFairRun run → (whole : Whole) → CoreKept run whole → (place : ℕ) (p : Place) (ls : List LockId) (n : ℕ) → StandsAt whole place p ls n → (room room_bytes : ℕ)
        → (job : Job) (more : ℕ) (next : NextMsg) (at : ℕ) (old new : RootPort) (bytes : List ℕ) (msg : MsgResult) (words : SeenView)
        → IsSent run whole p job more next at old new bytes msg words → (gone : ℕ)
        → IsLeft run.board p.transfer (has_reply p.owed) gone (spoken whole p job next bytes msg gone).tree
        → (p.owed ≡ [] → FitsReads (take gone p.transfer.msgs) (got_after job msg.reading bytes p.got))
        → whole.room ≡ room + 1 → whole.room_bytes ≡ room_bytes + length bytes
        → CoreKept run (record (with_place whole place (spoken whole p job next bytes msg gone) ls (n - weight_at run.board (Send job more))) {
          past = message_entry p.number next bytes msg ∷ whole.past;
          locks = turned_to whole.locks words;
          sockets = set whole.sockets at new;
          room = room;
          room_bytes = room_bytes;
        }) }
    ensures settled { (run : Run) → IsFairRun run → (whole : Whole) → CoreKept run whole → (place : ℕ) (p : Place) (ls : List LockId) (n : ℕ) → StandsAt whole place p ls n → (room room_bytes : ℕ)
        → (job : Job) (more : ℕ) (next : NextMsg) (at : ℕ) (old new : RootPort) (bytes : List ℕ) (msg : MsgResult) (words : SeenView)
        → IsSent run whole p job more next at old new bytes msg words → (gone : ℕ)
        → (verdict : Option Errno) → IsDecided run.board p.transfer verdict (spoken whole p job next bytes msg gone).tree → has_reply p.owed ≡ false
        → (reply : Reply) → reply ≡ reply_by verdict (Some p.transfer) (got_after job msg.reading bytes p.got) → Fits p.transfer reply
        → whole.room ≡ room + 2 → whole.room_bytes ≡ room_bytes + (length bytes + length (bytes_given reply))
        → CoreKept run (record (with_place whole place (settled_with (spoken whole p job next bytes msg gone) reply) ls (n - weight_at run.board (Send job more) - 1)) {
          past = entry.Settle p.number reply (message_cut next.purpose next.part msg.end) ∷ message_entry p.number next bytes msg ∷ whole.past;
          locks = turned_to whole.locks words;
          sockets = set whole.sockets at new;
          room = room;
          room_bytes = room_bytes;
        }) }
{}

/// What a message leaves: its walk goes on, and what was read fits so far; or its settle comes next, with a reply that fits.
pub fn a_message_fits()
    ensures { (run : Run) (whole : Whole) → CoreKept run whole → (place : ℕ) (p : Place) → slice_get whole.places place ≡ Some p
        → (job : Job) (more : ℕ) (next : NextMsg) (at : ℕ) (old new : RootPort) (bytes : List ℕ) (msg : MsgResult) (words : SeenView)
        → IsSent run whole p job more next at old new bytes msg words
        → (IsLeft run.board p.transfer (has_reply p.owed) (gone_after p.sent job msg.end) (behind_of whole.locks p.tree (Sent msg.end bytes))
        × (p.owed ≡ [] → FitsReads (take (gone_after p.sent job msg.end) p.transfer.msgs) (got_after job msg.reading bytes p.got)))
        ⊎ ((has_reply p.owed ≡ false) × (verdict : Option Errno) × IsDecided run.board p.transfer verdict (behind_of whole.locks p.tree (Sent msg.end bytes))
        × ((reply : Reply) → reply ≡ reply_by verdict (Some p.transfer) (got_after job msg.reading bytes p.got) → Fits p.transfer reply)) }
{}
