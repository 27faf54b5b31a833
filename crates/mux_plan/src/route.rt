//! The way of a transfer, and the first step on it.
ghost use Rattle.std.specs.Prelude.{◌≡◌, ◌≢◌, ◌+◌, ◌<◌, ◌≤◌, ◌⊎◌, ℕ, true, false, List, [], ◌∷◌, length, drop, None, All};
ghost use Rattle.i2c_base.specs.Limits.{MOST_DEPTH};
ghost use Rattle.i2c_spec.specs.Messages.{messages_of};
ghost use Rattle.i2c_spec.specs.Tree.{buses};
ghost use Rattle.bus_spec.specs.Walk.{JobOutcome, is_line};
ghost use Rattle.bus_spec.specs.Walk as walk;
ghost use Rattle.bus_spec.specs.Grammar.{at_bus, first_act, kind_of as kind_at};
ghost use Rattle.mux_plan.specs.Plans.{route_of, job_of, hop_at, tree_of, note_of, first_lock, locks_on, action_of};
ghost use Rattle.mux_plan.specs.Rooms.{IsNarrow, IsPlacedWork, IsPlanned, IsStep};
ghost use Rattle.mux_plan.specs.declared.task.Task.{Task};
ghost use Rattle.mux_plan.specs.declared.task.Task.TheVariants.{Enter};
ghost use Rattle.mux_plan.specs.declared.task.Action.TheVariants.{Done};
ghost use Rattle.mux_plan.specs.declared.task.Work.TheVariants as work;

use crate::{Action, NextMsg, Task, Work};
use arrayvec::ArrayVec;
use i2c_base::{LockId, MOST_MUXES, MuxId, MuxKind, SegId, Transfer};
use i2c_board::{Board, CachedBoard, Hop, end_of};
use std::marker::Model;
use std::snapshot::Snapshot;

/// What a walk knows of its transfer: the muxes over its bus, and how many messages it has. A contract sees the board, the
/// way and the messages.
#[derive(Drop)]
pub struct Route {
    board: Snapshot<Board>,
    transfer: Snapshot<Transfer>,
    root: SegId,
    /// The muxes over the bus, nearest first.
    path: ArrayVec<Hop, MOST_MUXES>,
    bus: SegId,
    /// How many messages the transfer has.
    count: u8,
}

impl Model for Route {
    ghost use Rattle.std.specs.Prelude.{◌≡◌, length};
    ghost use Rattle.i2c_spec.specs.Messages.{messages_of};
    ghost use Rattle.mux_plan.specs.Plans.{RouteView};

    ghost Value = { RouteView };

    ghost view = { λ c. record { board = c.board.value; root = c.root; path = c.path.items; bus = c.bus; messages = messages_of c.transfer.value } };

    ghost invariant = { λ c. c.count ≡ length (messages_of c.transfer.value) };
}

// The kind of a mux, where the board has it.
fn kind_of(board: &Board, mux: MuxId) -> MuxKind
    ensures { result ≡ kind_at board.now mux }
{
    board
        .muxes()
        .get(usize::from(mux.0))
        .map_or(MuxKind::Pca9548, |spec| spec.kind)
}

/// The close of a marked mux on this bus.
pub fn close(board: &Board, on: SegId, mux: MuxId) -> Work
    ensures value { result ≡ work.Close on mux (kind_at board.now mux) }
{
    Work::Close {
        on,
        mux,
        kind: kind_of(board, mux),
    }
}

impl Route {
    /// Leads nowhere, for a transfer that is not sent.
    pub fn nowhere(board: &Board, transfer: &Transfer) -> Self
        ensures { result ≡ record { board = board.now; root = 0; path = []; bus = 0; messages = messages_of transfer.now } }
    {
        Route {
            board: Snapshot::of(board),
            transfer: Snapshot::of(transfer),
            root: SegId(0),
            path: ArrayVec::new(),
            bus: SegId(0),
            count: transfer.msgs().len() as u8,
        }
    }

    /// Leads to the bus of a transfer.
    #[inline(always)]
    pub fn set_route(&mut self, board: &CachedBoard<'_>, transfer: &Transfer)
        requires there { transfer.now.bus < buses board.now }
        ensures route { self.new ≡ route_of board.now transfer.now }
        ensures deep { length self.new.path ≤ MOST_DEPTH }
        ensures narrow { All IsNarrow self.new.path }
    {
        let bus = SegId(transfer.bus());
        board.board().layout().find_hops(bus, &mut self.path);
        self.root = end_of(bus, self.path.as_slice());
        self.bus = bus;
        self.set_transfer(board.board(), transfer);
    }

    /// Keeps its way, for another transfer.
    #[inline(always)]
    pub fn set_transfer(&mut self, board: &Board, transfer: &Transfer)
        ensures { self.new ≡ record self.old { board = board.now; messages = messages_of transfer.now } }
    {
        self.board = Snapshot::of(board);
        self.transfer = Snapshot::of(transfer);
        self.count = transfer.msgs().len() as u8;
    }

    /// The root at the end of its way.
    #[inline(always)]
    pub fn root(&self) -> SegId
        ensures { result ≡ self.now.root }
    {
        self.root
    }

    /// The bus that it leads to.
    #[inline(always)]
    pub fn bus(&self) -> SegId
        ensures { result ≡ self.now.bus }
    {
        self.bus
    }

    /// How many messages the transfer has.
    #[inline(always)]
    pub fn count(&self) -> u8
        ensures { result ≡ length self.now.messages }
    {
        self.count
    }

    /// The mux of this number on the path.
    #[inline(always)]
    pub fn hop(&self, number: u8) -> &Hop
        requires { number < length self.now.path }
        ensures value { result.now ≡ hop_at self.now number }
        ensures narrow { All IsNarrow self.now.path → IsNarrow result.now }
    {
        &self.path.as_slice()[usize::from(number)]
    }

    /// The mux of this number is parent-locked.
    #[inline(always)]
    pub fn is_parent(&self, number: u8) -> bool
        requires { number < length self.now.path }
        ensures { result ≡ (hop_at self.now number).parent }
    {
        self.hop(number).parent
    }

    /// A piece of work on the bus at this place has a mux to cross, that of the same number: none at the root, and a line
    /// needs no way.
    #[inline(always)]
    pub fn crosses(&self, place: u8, work: &Work) -> bool
        requires { IsPlacedWork (length self.now.path) work.now }
        ensures within { result ≡ true → place < length self.now.path }
        ensures at { result ≡ true → drop place self.now.path ≡ hop_at self.now place ∷ drop (place + 1) self.now.path }
        ensures message { result ≡ true → is_line (job_of self.now work.now) ≡ false }
        ensures none { result ≡ false → (is_line (job_of self.now work.now) ≡ true) ⊎ (drop place self.now.path ≡ []) }
    {
        !work.is_line(self) && usize::from(place) < self.path.len()
    }

    /// The step of a piece of work that has no mux to cross.
    #[inline(always)]
    pub fn base(&self, work: Work) -> Task
        requires { IsPlacedWork (length self.now.path) work }
        ensures tree { (ts : List Task) (out : JobOutcome) → tree_of self.now (result ∷ ts) out ≡ at_bus (job_of self.now work) (note_of self.now ts) (tree_of self.now ts) }
        ensures step { (ts : List Task) → IsStep (result ∷ ts) }
        ensures planned { (n : ℕ) (ts : List Task) → IsPlanned self.now (Enter n work ∷ ts) → IsPlanned self.now (result ∷ ts) }
    {
        if work.is_line(self) {
            Task::Line { work }
        } else {
            let left = work.more(self);
            Task::Rest { left, work }
        }
    }

    /// The first of the locks of the bus at this place.
    pub fn lock_at(&self, place: u8) -> LockId
        ensures { result ≡ first_lock self.now.root (drop place self.now.path) }
    {
        match self.path.as_slice().get(usize::from(place)) {
            None => LockId::Bus(self.root),
            Some(hop) => LockId::Mux(hop.on),
        }
    }

    /// More locks follow it.
    pub fn locks_on(&self, place: u8) -> bool
        ensures value { result ≡ locks_on (drop place self.now.path) }
        ensures within { result ≡ true → place < length self.now.path }
    {
        match self.path.as_slice().get(usize::from(place)) {
            None => false,
            Some(hop) => hop.parent,
        }
    }

    /// The action of a task that is a step, which is never Done.
    #[inline(always)]
    pub fn action(&self, task: &Task) -> Action
        requires planned { IsPlanned self.now (task.now ∷ []) }
        requires step { IsStep (task.now ∷ []) }
        ensures first { result ≡ action_of (first_act (tree_of self.now (task.now ∷ []) walk.Good)) }
        ensures more { result ≢ Done }
    {
        match task {
            Task::Lock { from, .. } => Action::Take(self.lock_at(*from)),
            Task::Free(lock) => Action::Free(*lock),
            Task::Rest { left, work } => Action::Send(NextMsg {
                bus: work.bus(self),
                purpose: work.purpose(self),
                part: work.part(self, *left),
                parts: work.parts(self),
                control: work.control(self, *left),
            }),
            Task::Line { work } => Action::Line {
                mux: work.line_mux(self),
                level: work.line_level(self),
            },
            Task::Settle(verdict) => Action::Settle(*verdict),
            Task::Enter { .. }
            | Task::AwaitClose { .. }
            | Task::Pass { .. }
            | Task::AwaitSelect { .. }
            | Task::AwaitWork { .. }
            | Task::AwaitDeselect { .. } => Action::Done,
        }
    }
}
