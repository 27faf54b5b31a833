//! A caller in the core, and where it stands.
ghost use Rattle.std.specs.Prelude.{◌≡◌, ◌≢◌, ◌+◌, ◌<◌, ◌≤◌, true, false, [], ◌∷◌, ◌++◌, length, Option, None, Some, IfSome, slice_get, if◌then◌else◌};
ghost use Rattle.i2c_base.specs.Limits.{MOST_BYTES};
ghost use Rattle.i2c_base.specs.declared.reply.Cut.TheVariants as cut_at;
ghost use Rattle.i2c_base.specs.Need.{bytes_given};
ghost use Rattle.i2c_base.specs.declared.entry.Entry.TheVariants as entry;
ghost use Rattle.i2c_base.specs.declared.entry.Purpose.TheVariants as purpose;
ghost use Rattle.bus_journal.specs.Borrowed.{entry_seen, most_bytes};
ghost use Rattle.i2c_base.specs.declared.reply.Reply.{Reply};
ghost use Rattle.i2c_base.specs.Fitting.{Fits};
ghost use Rattle.i2c_base.specs.Transfer.{IsTransfer, TransferView};
ghost use Rattle.i2c_spec.specs.Grant.{grant_of};
ghost use Rattle.i2c_spec.specs.Tree.{buses, root_of};
ghost use Rattle.bus_spec.specs.Grammar.{is_over, walk_for};
ghost use Rattle.bus_spec.specs.Readings.{message_cut};
ghost use Rattle.bus_spec.specs.Stepwise.{reply_by};
ghost use Rattle.i2c_base.specs.declared.errno.Errno.{Errno};
ghost use Rattle.bus_spec.specs.Walk.{Ends};
ghost use Rattle.seg_locks.specs.Locks.{LocksView};
ghost use Rattle.bus_message.specs.Cursors.{HasNext};
ghost use Rattle.bus_message.specs.Sends.{call_message};
ghost use Rattle.mux_plan.specs.Plans.{is_call_through};
ghost use Rattle.mux_plan.specs.Looks.{IsFresh};
ghost use Rattle.mux_plan.specs.Rooms.{IsStep};
ghost use Rattle.mux_plan.specs.declared.task.Action.TheVariants as action;
ghost use Rattle.mux_plan.specs.Plans.{outcome_of};
ghost use Rattle.bus_core.specs.Kept.{IsSeated, roots_of};
ghost use Rattle.bus_core.specs.Looks.{IsLookedAt};
ghost use Rattle.bus_core.specs.Opening.{HasRoot};
ghost use Rattle.bus_core.specs.Places.{HasCounted, HasSpare, asked_next, owed_by, walk_left};
ghost use Rattle.bus_core.specs.Replies.{reply_decided};
ghost use Rattle.bus_core.specs.Seats.{HasAdvanced, HasEnded, HasLooked, HasPassed, IsOn, IsUnused, MayCall, MayEnd, MayHear, TellsAction, TellsSettle, got_heard, updates_ahead};

use crate::marks::seen as words_of;
use crate::replies::{Decided, Replies};
use bus_journal::EntryRef;
use bus_message::{MsgResult, TransferCursor};
use i2c_base::{Caller, Cut, End, Errno, Grant, Purpose, SegId, Transfer, TransferKind};
use i2c_board::{Board, CachedBoard};
use mux_plan::{Action, MuxUpdates, NextMsg, Outcome, Walk};
use ports::Port;
use seg_locks::Locks;

/// A caller, and where it stands on the bus.
#[derive(Drop)]
pub struct Seat<C> {
    pub number: u8,
    pub caller: C,
    /// The transfer under way, or the last one.
    pub transfer: Transfer,
    /// What is left of its walk.
    pub walk: Walk,
    /// The place of its root's port.
    pub port: usize,
    /// So many of its messages were sent and went through, and so many bytes of its writes with them.
    pub sent: u8,
    pub written: u16,
    pub replies: Replies,
    /// Which reply it was settled with; none until then.
    pub decided: Option<Decided>,
    /// Where a failed call on the port cut it off, as the caller's last entry tells.
    pub cut: Cut,
}

// The cut that a message tells for a settle directly after it: where the transfer was cut off by a failed call on
// the port, on its way or in its own messages.
fn cut_by(purpose: Purpose, part: u8, end: End) -> Cut
    requires { 0 < part }
    ensures { result ≡ message_cut purpose part end }
{
    match (end, purpose) {
        (End::Cut(call), Purpose::Call) => Cut::At {
            msg: part - 1,
            call,
        },
        (End::Cut(_), Purpose::Control(_)) => Cut::Way,
        _ => Cut::No,
    }
}

// The place of the port of a root; 0 where it has none.
fn port_of<P: Port>(ports: &[(SegId, P)], root: SegId) -> usize
    ensures { HasRoot (roots_of ports.now) root → slice_get (roots_of ports.now) result ≡ Some root }
{
    for place in 0..ports.len() {
        if ports[place].0 == root {
            return place;
        }
    }
    0
}

impl<C: Caller> Seat<C> {
    /// A seat of a caller that has made no step: nothing is loaded.
    pub fn resting(board: &Board, number: u8, caller: C) -> Self
        ensures number { result.number ≡ number }
        ensures caller { result.caller ≡ caller }
        ensures over { walk_left result ≡ Ends }
        ensures looked { (v : LocksView) → IsLookedAt v result }
        ensures on { IsOn board.now result }
        ensures unused { IsUnused result }
    {
        let transfer = Transfer::new(0, TransferKind::Plain, false);
        let walk = Walk::ended(board, &transfer);
        Seat {
            number,
            caller,
            transfer,
            walk,
            port: 0,
            sent: 0,
            written: 0,
            replies: Replies::new(),
            decided: None,
            cut: Cut::No,
        }
    }

    /// The next action of its walk: Done exactly where the walk is over.
    #[inline(always)]
    pub fn next(&self) -> Action
        requires { IsStep self.now.walk.looked }
        ensures first { TellsAction result self.now }
        ensures over { result ≡ action.Done → is_over (walk_left self.now) ≡ true }
    {
        self.walk.next()
    }

    /// The settle that comes next of its walk, if one does: why its reply is an error, or none.
    pub fn settles(&self) -> Option<Option<Errno>>
        requires { IsStep self.now.walk.looked }
        ensures { TellsSettle result self.now }
    {
        self.walk.settles()
    }

    /// Which marks and kept channels change after its next action, where it has this outcome, in the place of what `updates`
    /// had.
    #[inline(always)]
    pub fn updates(&self, outcome: &Outcome<'_>, updates: &mut MuxUpdates)
        requires { IsStep self.now.walk.looked }
        ensures { updates.new.items ≡ updates_ahead (outcome_of outcome.now) self.now }
    {
        self.walk.updates(outcome, updates);
    }

    /// Goes on in its walk after its next action, which had this outcome. The looks in front of the one that comes then are
    /// still to be answered.
    #[inline(always)]
    pub fn advance_walk(&mut self, outcome: &Outcome<'_>)
        requires { IsStep self.old.walk.looked }
        ensures { HasAdvanced (outcome_of outcome.now) self.old self.new }
    {
        self.walk.advance(outcome);
    }

    /// Answers the looks in front of its next action by the lock words, of which it has each that is asked for.
    #[inline(always)]
    pub fn look(&mut self, board: &CachedBoard<'_>, locks: &Locks)
        requires fresh { IsFresh self.old.walk }
        requires on { IsOn board.now self.old }
        ensures { HasLooked locks.now self.old self.new }
    {
        self.walk.look(board.board(), &words_of(locks));
    }

    /// Goes on in its walk after a lock or a settle, which tell no cut and change no mark.
    #[inline(always)]
    pub fn lock_done(&mut self, board: &CachedBoard<'_>, locks: &Locks)
        requires looked { IsLookedAt locks.now self.old }
        requires on { IsOn board.now self.old }
        ensures { HasPassed locks.now self.old self.new }
    {
        self.advance_walk(&Outcome::Passed);
        self.look(board, locks);
        self.cut = Cut::No;
    }

    // To whom its next message leads; a control message, which is none of its own, to nobody.
    fn grant(&self, board: &CachedBoard<'_>, next: &NextMsg) -> Grant
        requires { MayCall board.now next.now self.now }
        ensures whole { next.now.purpose ≡ purpose.Call → IsTransfer self.now.transfer.msgs self.now.transfer.out }
        ensures grants { next.now.purpose ≡ purpose.Call → result ≡ grant_of board.now self.now.transfer.bus (call_message self.now.transfer self.now.sent).addr self.now.transfer.force }
    {
        match next.purpose {
            Purpose::Call => {
                let msg = self.transfer.msgs()[usize::from(self.sent)];
                let bus = self.transfer.bus();
                board.grant(bus, msg.addr, self.transfer.force())
            }
            Purpose::Control(_) => Grant::Nobody,
        }
    }

    /// Its transfer, as far as the message goes that comes next of its walk.
    pub fn cursor(&self, board: &CachedBoard<'_>, next: &NextMsg) -> TransferCursor<'_>
        requires call { MayCall board.now next.now self.now }
        requires wrote { HasCounted self.now }
        ensures value { result ≡ record { transfer = self.now.transfer; sent = self.now.sent; written = self.now.written; grant = result.grant } }
        ensures next { next.now.purpose ≡ purpose.Call → HasNext board.now result }
        ensures whole { next.now.purpose ≡ purpose.Call → IsTransfer self.now.transfer.msgs self.now.transfer.out }
    {
        TransferCursor {
            transfer: &self.transfer,
            sent: self.sent,
            written: self.written,
            grant: self.grant(board, next),
        }
    }

    /// Counts its next message, which went through.
    pub fn count(&mut self)
        requires more { self.old.sent < length self.old.transfer.msgs }
        requires wrote { HasCounted self.old }
        ensures sent { self.new.sent ≡ self.old.sent + 1 }
        ensures wrote { HasCounted self.new }
        ensures same { self.new ≡ record self.old { sent = self.new.sent; written = self.new.written } }
    {
        let msg = self.transfer.msgs()[usize::from(self.sent)];
        self.written += msg.written();
        self.sent += 1;
    }

    /// Keeps what a message of the caller's own has read.
    pub fn gather(&mut self, why: Purpose, reading: bool, bytes: &[u8])
        requires { why ≡ purpose.Call → reading ≡ true → length self.old.replies.got + length bytes.now ≤ MOST_BYTES }
        ensures got { self.new.replies ≡ record self.old.replies { got = got_heard why reading bytes.now self.old.replies.got } }
        ensures same { self.new ≡ record self.old { replies = self.new.replies } }
    {
        match why {
            Purpose::Call => {
                if reading {
                    self.replies.extend(bytes);
                }
            }
            Purpose::Control(_) => {}
        }
    }

    /// Counts a message of its walk, of which this came: one of the caller's that went through.
    pub fn record_msg(&mut self, next: &NextMsg, msg: &MsgResult, bytes: &[u8])
        requires { MayHear next.now bytes.now msg.now self.old }
        ensures gone { self.new.sent ≡ (if is_call_through next.now.purpose msg.now.end then self.old.sent + 1 else self.old.sent) }
        ensures got { self.new.replies ≡ record self.old.replies { got = got_heard next.now.purpose msg.now.reading bytes.now self.old.replies.got } }
        ensures wrote { HasCounted self.new }
        ensures same { self.new ≡ record self.old { sent = self.new.sent; written = self.new.written; replies = self.new.replies; cut = message_cut next.now.purpose next.now.part msg.now.end } }
    {
        self.cut = cut_by(next.purpose, next.part, msg.end);
        self.gather(next.purpose, msg.reading, bytes);
        if next.went_through(msg.end) {
            self.count();
        }
    }

    /// Decides the reply: an error, or what the reads gave.
    pub fn decide(&mut self, verdict: Option<Errno>) -> Decided
        ensures reply { reply_decided result self.new.replies ≡ reply_by verdict (Some self.old.transfer) self.old.replies.got }
        ensures same { self.new ≡ record self.old { replies = self.new.replies; decided = Some result } }
    {
        let decided = match verdict {
            Some(errno) => {
                self.replies.fail(errno);
                Decided::Failed
            }
            None => {
                if self.transfer.reads() {
                    Decided::Read
                } else {
                    Decided::Done
                }
            }
        };
        self.decided = Some(decided);
        decided
    }

    /// The entry of the settle that was decided.
    pub fn settle_entry(&self, decided: Decided) -> EntryRef<'_>
        ensures seen { entry_seen result ≡ entry.Settle self.now.number (reply_decided decided self.now.replies) self.now.cut }
        ensures bytes { result.bytes.now ≡ bytes_given (reply_decided decided self.now.replies) }
        ensures few { length result.bytes.now ≤ most_bytes result.head }
    {
        let (head, bytes) = self.replies.reply(decided);
        EntryRef::settle(self.number, head, bytes, self.cut)
    }

    /// Hands the reply that its transfer was settled with to the caller.
    #[inline(always)]
    pub fn hand(&mut self, decided: Decided)
        requires fits { (asked_next C.Caller self.old ≡ Some self.old.transfer) × Fits self.old.transfer (reply_decided decided self.old.replies) }
        requires room { HasSpare C.Caller self.old }
        ensures same { self.new ≡ record self.old { caller = self.new.caller } }
        ensures script { C.script self.new.caller ≡ C.script self.old.caller }
        ensures taken { C.taken self.new.caller ≡ C.taken self.old.caller ++ reply_decided decided self.old.replies ∷ [] }
        ensures room { HasSpare C.Caller self.new }
    {
        let (head, bytes) = self.replies.reply(decided);
        self.caller.take(head, bytes);
    }

    /// Loads the caller's next transfer, where it has one. Its walk is over before.
    #[inline(always)]
    pub fn load<P: Port>(&mut self, board: &mut CachedBoard<'_>, ports: &[(SegId, P)])
        requires over { is_over (walk_left self.old) ≡ true }
        requires on { IsOn board.old self.old }
        ensures some { (t : TransferView) → asked_next C.Caller self.old ≡ Some t → (self.new.transfer ≡ t) × (walk_left self.new ≡ walk_for board.old t) }
        ensures none { asked_next C.Caller self.old ≡ None → is_over (walk_left self.new) ≡ true }
        ensures stays { asked_next C.Caller self.old ≡ None → self.new.transfer ≡ self.old.transfer }
        ensures same { self.new ≡ record self.old { transfer = self.new.transfer; walk = self.new.walk; port = self.new.port; sent = 0; written = 0; replies = self.new.replies; decided = None } }
        ensures cleared { self.new.replies.got ≡ [] }
        ensures looked { (v : LocksView) → IsLookedAt v self.old → IsLookedAt v self.new }
        ensures on { IsOn board.old self.new }
        ensures plugged { HasRoot (roots_of ports.now) (root_of board.old self.new.transfer.bus) → self.new.transfer.bus < buses board.old → is_over (walk_left self.new) ≡ false
            → slice_get (roots_of ports.now) self.new.port ≡ Some (root_of board.old self.new.transfer.bus) }
        ensures board { board.new ≡ board.old }
    {
        self.sent = 0;
        self.written = 0;
        self.replies.clear();
        self.decided = None;
        if self.caller.refill(&mut self.transfer) {
            if let Some(root) = self.walk.restart(board, &self.transfer) {
                self.port = port_of(ports, root);
            }
        }
    }

    /// Where its walk is over: hands the reply over, and loads the caller's next transfer.
    #[inline(always)]
    pub fn end<P: Port>(&mut self, board: &mut CachedBoard<'_>, ports: &[(SegId, P)])
        requires may { MayEnd C.Caller board.old (roots_of ports.now) self.old }
        ensures on { is_over (walk_left self.old) ≡ false → self.new ≡ self.old }
        ensures number { self.new.number ≡ self.old.number }
        ensures ended { is_over (walk_left self.old) ≡ true → (r : Reply) → owed_by self.old.decided self.old.replies ≡ r ∷ [] → HasEnded C.Caller board.old r self.old.cut self.old self.new }
        ensures seated { IsSeated C.Caller board.old (roots_of ports.now) self.new }
        ensures looked { (v : LocksView) → IsLookedAt v self.old → IsLookedAt v self.new }
        ensures board { board.new ≡ board.old }
    {
        if !self.walk.is_over() {
            return;
        }
        if let Some(decided) = self.decided {
            self.hand(decided);
            self.load(board, ports);
        }
    }
}
