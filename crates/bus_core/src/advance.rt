//! How a seat goes on after each kind of step.
ghost use Rattle.std.specs.Prelude.{◌≡◌, true, false, Option, Some};
ghost use Rattle.i2c_base.specs.declared.errno.Errno.{Errno};
ghost use Rattle.bus_spec.specs.Walk.{Settle};
ghost use Rattle.core_laws.specs.Steps.{next_of};
ghost use Rattle.bus_core.specs.Kept.{roots_of};
ghost use Rattle.bus_core.specs.Looks.{IsLookedAt};
ghost use Rattle.mux_plan.specs.Rooms.{IsStep};
ghost use Rattle.bus_core.specs.Places.{walk_left};
ghost use Rattle.bus_core.specs.Seats.{HasFreed, HearsOut, IsRefusedIn, IsSettledIn, LinesOut, MayEnd, MayHear, MayRefuse, IsOn, MaySettle};

use crate::seat::Seat;
use bus_journal::Journal;
use bus_message::MsgResult;
use i2c_base::{Caller, Cut, Errno, SegId};
use i2c_board::CachedBoard;
use mux_plan::{MuxUpdates, NextMsg, Outcome};
use ports::Port;
use seg_locks::Locks;

impl<C: Caller> Seat<C> {
    /// Advances past a freed lock; at the walk's end delivers the reply and loads the next transfer.
    pub fn free_done<P: Port>(
        &mut self,
        board: &mut CachedBoard<'_>,
        locks: &Locks,
        ports: &[(SegId, P)],
    )
        requires may { MayEnd C.Caller board.old (roots_of ports.now) self.old }
        requires looked { IsLookedAt locks.now self.old }
        ensures freed { HasFreed C.Caller board.old locks.now (roots_of ports.now) self.old self.new }
        ensures looked { IsLookedAt locks.now self.new }
        ensures board { board.new ≡ board.old }
    {
        self.lock_done(board, locks);
        self.end(board, ports);
    }

    /// .. after a message, of which this came; tells what it changes of the lock words. The looks in front of its next
    /// action are still to be answered.
    #[inline(always)]
    pub fn message_done(
        &mut self,
        next: &NextMsg,
        msg: &MsgResult,
        bytes: &[u8],
        updates: &mut MuxUpdates,
    )
        requires hears { MayHear next.now bytes.now msg.now self.old }
        requires step { IsStep self.old.walk.looked }
        ensures { HearsOut next.now bytes.now msg.now updates.new.items self.old self.new }
    {
        self.record_msg(next, msg, bytes);
        let outcome = Outcome::Sent {
            end: msg.end,
            bytes,
        };
        self.updates(&outcome, updates);
        self.advance_walk(&outcome);
    }

    /// .. after a line step, which may have failed.
    pub fn line_done(&mut self, failed: bool, updates: &mut MuxUpdates)
        requires { IsStep self.old.walk.looked }
        ensures { LinesOut failed updates.new.items self.old self.new }
    {
        self.cut = if failed { Cut::Way } else { Cut::No };
        let outcome = Outcome::Lined { failed };
        self.updates(&outcome, updates);
        self.advance_walk(&outcome);
    }

    /// Makes the settle that comes next, with its entry; tells whether one does.
    #[inline(always)]
    pub fn settle(&mut self, board: &CachedBoard<'_>, locks: &Locks, journal: &mut Journal) -> bool
        requires may { MaySettle locks.now journal.old self.old }
        requires on { IsOn board.now self.old }
        requires looked { IsLookedAt locks.now self.old }
        ensures settled { result ≡ true → (verdict : Option Errno) × IsSettledIn locks.now verdict journal.old journal.new self.old self.new }
        ensures none { result ≡ false → (verdict : Option Errno) → next_of locks.now (walk_left self.old) ≡ Some (Settle verdict) → ⊥ }
        ensures stays { result ≡ false → (self.new ≡ self.old) × (journal.new ≡ journal.old) }
        ensures looked { IsLookedAt locks.now self.new }
    {
        let Some(verdict) = self.settles() else {
            return false;
        };
        let decided = self.decide(verdict);
        journal.push(&self.settle_entry(decided));
        self.lock_done(board, locks);
        true
    }

    /// Settles its refused transfer, with its entry, hands its error over, and loads the next one.
    pub fn refuse<P: Port>(
        &mut self,
        board: &mut CachedBoard<'_>,
        locks: &Locks,
        ports: &[(SegId, P)],
        journal: &mut Journal,
        errno: Errno,
    )
        requires may { MayRefuse C.Caller board.old (roots_of ports.now) errno journal.old self.old }
        requires looked { IsLookedAt locks.now self.old }
        ensures refused { IsRefusedIn C.Caller board.old (roots_of ports.now) errno journal.old journal.new self.old self.new }
        ensures looked { IsLookedAt locks.now self.new }
        ensures board { board.new ≡ board.old }
    {
        let decided = self.decide(Some(errno));
        journal.push(&self.settle_entry(decided));
        self.lock_done(board, locks);
        self.end(board, ports);
    }
}
