//! The tasks of a walk, its actions and their outcomes.
ghost use Rattle.std.specs.Prelude.{◌≡◌};
ghost use Rattle.mux_plan.specs.Plans.{ends_with, is_call_through};

use i2c_base::{End, Errno, LockId, MuxId, MuxKind, Purpose, SegId};

/// What is to be done on a bus. A mux of the transfer's path is told by its number there, nearest first, from 0.
#[derive(Clone, Copy)]
pub enum Work {
    /// The caller's messages are sent.
    Call,
    /// The channel of that mux is selected.
    Select(u8),
    /// It is deselected, after work on it.
    Deselect(u8),
    /// A mux is closed, because a mark says that it may be open.
    Close {
        on: SegId,
        mux: MuxId,
        kind: MuxKind,
    },
}

/// What came of a piece of work.
#[derive(Clone, Copy)]
pub enum WorkResult {
    Good,
    /// Its own message was refused.
    Refused,
    /// It was never sent, because a select on its way was refused.
    Unsent,
    /// A call on the port failed.
    Failed,
}

/// A task on the stack of a walk. A place counts the muxes that were crossed, so the place of the transfer's bus is 0; the
/// mux of that number stands on the bus at the next place.
#[derive(Clone, Copy)]
pub enum Task {
    /// The work is done on the bus at this place, whose locks are held.
    Enter { place: u8, work: Work },
    /// The locks of the bus at this place are taken, but for those before the mux at `from`; then the work is done.
    Lock { from: u8, place: u8, work: Work },
    Free(LockId),
    /// A message of the work is sent, which so many more may follow.
    Rest { left: u8, work: Work },
    /// The line of the work's gpio mux is set.
    Line { work: Work },
    /// The reply is decided: why it is an error, or none.
    Settle(Option<Errno>),
    /// Waits for the close of a marked mux on the bus of the mux of this number.
    AwaitClose { hop: u8, mux: MuxId, work: Work },
    /// The close of a marked mux was sent: the channel is selected, but where the mux of this number keeps it open; then the
    /// work is done.
    Pass { hop: u8, work: Work },
    /// Waits for the select.
    AwaitSelect { hop: u8, work: Work },
    /// Waits for the work behind the mux.
    AwaitWork { hop: u8 },
    /// Waits for the deselect, after work of which this came.
    AwaitDeselect { hop: u8, came: WorkResult },
}

/// The blank of an unused place.
impl Default for Task {
    fn default() -> Self {
        Task::Settle(None)
    }
}

/// A message that is sent next.
#[derive(Clone, Copy)]
pub struct NextMsg {
    pub bus: SegId,
    pub purpose: Purpose,
    /// Which message of its transfer it is, from 1, and how many those are.
    pub part: u8,
    pub parts: u8,
    /// The byte that a control message writes; none for a poll, which reads one, and for a caller's message.
    pub control: Option<u8>,
}

impl NextMsg {
    /// A stop follows it, if it doesn't end early: a control message is a transfer of its own.
    pub fn is_last(&self) -> bool
        ensures { result ≡ ends_with self.now.purpose self.now.part self.now.parts }
    {
        match self.purpose {
            Purpose::Call => self.part == self.parts,
            Purpose::Control(_) => true,
        }
    }

    /// It is one of the caller's own messages, and went through if it ended so.
    pub fn went_through(&self, end: End) -> bool
        ensures { result ≡ is_call_through self.now.purpose end }
    {
        matches!((self.purpose, end), (Purpose::Call, End::Ok))
    }
}

/// What a caller does next.
#[derive(Clone, Copy)]
pub enum Action {
    Take(LockId),
    Free(LockId),
    /// One message is sent.
    Send(NextMsg),
    /// The line of a gpio mux is set to a level.
    Line { mux: MuxId, level: u8 },
    /// The reply is decided by what was reported last: why it is an error, or none.
    Settle(Option<Errno>),
    /// The walk has ended.
    Done,
}

/// What came of an action.
#[derive(Clone, Copy)]
pub enum Outcome<'a> {
    /// A lock was taken or freed, or the reply settled.
    Passed,
    /// A message ended so. Of a write the bytes that were acknowledged, of a read all that came.
    Sent { end: End, bytes: &'a [u8] },
    /// A line was set, or the port failed.
    Lined { failed: bool },
}
