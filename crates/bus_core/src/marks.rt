//! What a step of a caller changes of the lock words.
ghost use Rattle.std.specs.Prelude.{◌≡◌, ℕ, ◌<◌, Some, length};
ghost use Rattle.i2c_base.specs.Limits.{MOST_CALLERS};
ghost use Rattle.core_laws.specs.Spots.{seen_of, turned_to};
ghost use Rattle.bus_core.specs.Marks.{AreHeld, words_after};

use i2c_base::LockId;
use mux_plan::{MuxUpdate, Seen};
use seg_locks::Locks;

/// Writes what a step of a caller changes of marks and kept channels, each of a mux on a bus whose lock it has.
pub fn set_marks(locks: &mut Locks, caller: u8, updates: &[MuxUpdate])
    requires caller { caller < MOST_CALLERS }
    requires held { AreHeld locks.old caller updates.now }
    ensures { locks.new ≡ turned_to locks.old (words_after updates.now (seen_of locks.old)) }
{
    for due in updates {
        locks.set_mark(caller, LockId::Mux(due.on), due.mark);
        locks.set_kept(caller, LockId::Mux(due.on), due.mux, due.channel);
    }
}

/// What the lock words tell a walk.
pub fn seen(locks: &Locks) -> Seen<'_>
    ensures { result ≡ seen_of locks.now }
{
    Seen {
        marks: locks.marks(),
        kept: locks.kept_channels(),
    }
}
