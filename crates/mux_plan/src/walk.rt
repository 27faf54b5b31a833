//! The walk of a transfer, step by step.
ghost use Rattle.std.specs.Prelude.{◌≡◌, ◌<◌, true, Option, None, Some, IsSome, IfSome};
ghost use Rattle.i2c_spec.specs.Tree.{buses, root_of};
ghost use Rattle.i2c_base.specs.declared.errno.Errno.{Errno};
ghost use Rattle.bus_spec.specs.Slots.{Slots};
ghost use Rattle.bus_spec.specs.Walk.{Ends, Settle};
ghost use Rattle.bus_spec.specs.Grammar.{walk_by, walk_for, is_over, first_act, first_note, rest_of};
ghost use Rattle.mux_plan.specs.Looks.{IsFresh, IsLooked};
ghost use Rattle.mux_plan.specs.Marks.{updates_after};
ghost use Rattle.mux_plan.specs.Plans.{walk_of, looked_of, slots_of, action_of, outcome_of};
ghost use Rattle.mux_plan.specs.Rooms.{IsStep};
ghost use Rattle.mux_plan.specs.declared.task.Action.TheVariants.{Done};

use crate::marks::{MuxUpdates, mark_work};
use crate::parts::WalkState;
use crate::stack::Stack;
use crate::{Action, Outcome, Route, Seen, Task, Work, WorkResult};
use i2c_base::{Errno, SegId, Transfer, empty};
use i2c_board::{Board, CachedBoard};
use std::marker::Model;
use std::snapshot::Snapshot;

/// The walk of a transfer over a board. A contract sees its tasks as they are before the looks in front of the next step, of
/// which `walk_of` is the tree, and as they are with those looks answered, of which `looked_of` is the tree.
#[derive(Drop)]
pub struct Walk {
    parts: WalkState,
    before: Snapshot<Stack<Task>>,
}

impl Model for Walk {
    ghost use Rattle.mux_plan.specs.Plans.{WalkView, came_of};
    ghost use Rattle.mux_plan.specs.Rooms.{IsWalk};

    ghost Value = { WalkView };

    ghost view = { λ w. record { route = w.parts.route; tasks = w.before.value; looked = w.parts.stack; came = came_of w.parts.came } };

    ghost invariant = { λ w. IsWalk w.parts.route w.before.value w.parts.stack };
}

// The root that a bus hangs from; none where the board doesn't have the bus.
fn root_of(board: &CachedBoard<'_>, bus: u16) -> Option<SegId>
    ensures there { bus < buses board.now → result ≡ Some (root_of board.now bus) }
    ensures none { IsSome result → bus < buses board.now }
{
    let board = board.board();
    (bus < board.buses()).then(|| board.root(SegId(bus)))
}

impl Walk {
    /// Begins the walk of another transfer: one that is refused is settled at once, and takes no lock. Tells the root of
    /// its bus, where the board has that bus.
    #[inline(always)]
    pub fn restart(&mut self, board: &mut CachedBoard<'_>, transfer: &Transfer) -> Option<SegId>
        ensures tree { walk_of self.new ≡ walk_for board.old transfer.now }
        ensures on { self.new.route.board ≡ board.old }
        ensures looked { (v : Slots) → IsLooked v self.new }
        ensures root { transfer.now.bus < buses board.old → result ≡ Some (root_of board.old transfer.now.bus) }
        ensures none { IsSome result → transfer.now.bus < buses board.old }
        ensures board { board.new ≡ board.old }
    {
        match board.refusal(transfer) {
            None => Some(self.begin(board, transfer)),
            Some(errno) => {
                self.refuse(board.board(), transfer, errno);
                root_of(board, transfer.bus())
            }
        }
    }

    // Begins the walk of a transfer that isn't refused, and tells its root.
    #[inline(always)]
    fn begin(&mut self, board: &CachedBoard<'_>, transfer: &Transfer) -> SegId
        requires there { transfer.now.bus < buses board.now }
        ensures tree { walk_of self.new ≡ walk_by board.now transfer.now None }
        ensures on { self.new.route.board ≡ board.now }
        ensures looked { (v : Slots) → IsLooked v self.new }
        ensures root { result ≡ root_of board.now transfer.now.bus }
    {
        self.parts.route.set_route(board, transfer);
        self.parts.start(Task::Lock {
            from: 0,
            place: 0,
            work: Work::Call,
        });
        self.before = Snapshot::of(&self.parts.stack);
        self.parts.route.root()
    }

    // Begins the walk of a transfer that is refused: its settle alone.
    fn refuse(&mut self, board: &Board, transfer: &Transfer, errno: Errno)
        ensures tree { walk_of self.new ≡ walk_by board.now transfer.now (Some errno) }
        ensures looked { (v : Slots) → IsLooked v self.new }
        ensures on { self.new.route.board ≡ board.now }
    {
        self.parts.route.set_transfer(board, transfer);
        self.parts.start(Task::Settle(Some(errno)));
        self.before = Snapshot::of(&self.parts.stack);
    }

    /// A walk that has ended, of a transfer that is not sent: what a caller has before its first one.
    pub fn ended(board: &Board, transfer: &Transfer) -> Self
        ensures over { walk_of result ≡ Ends }
        ensures looked { (v : Slots) → IsLooked v result }
        ensures on { result.route.board ≡ board.now }
    {
        let stack = Stack::new();
        let before = Snapshot::of(&stack);
        Walk {
            parts: WalkState {
                route: Route::nowhere(board, transfer),
                stack,
                came: WorkResult::Good,
            },
            before,
        }
    }

    /// The next action: the first step of the walk after its looks, which are answered. Done exactly where the walk is over.
    #[inline(always)]
    pub fn next(&self) -> Action
        requires { IsStep self.now.looked }
        ensures first { result ≡ action_of (first_act (looked_of self.now)) }
        ensures over { result ≡ Done → is_over (walk_of self.now) ≡ true }
    {
        let Some(task) = self.parts.stack.peek() else {
            return Action::Done;
        };
        self.parts.route.action(task)
    }

    /// The settle that comes next, if one does: why the reply is an error, or none.
    pub fn settles(&self) -> Option<Option<Errno>>
        requires { IsStep self.now.looked }
        ensures some { IfSome result (λ verdict. first_act (looked_of self.now) ≡ Some (Settle verdict)) }
        ensures none { (verdict : Option Errno) → result ≡ None → first_act (looked_of self.now) ≡ Some (Settle verdict) → ⊥ }
    {
        let Some(task) = self.parts.stack.peek() else {
            return None;
        };
        match task {
            Task::Settle(verdict) => Some(*verdict),
            _ => None,
        }
    }

    /// No action is left.
    pub fn is_over(&self) -> bool
        ensures { result ≡ is_over (walk_of self.now) }
    {
        self.parts.stack.is_empty()
    }

    /// Which marks and kept channels change after the next action, where it has this outcome, in the place of what `updates`
    /// had. A lock and a settle change none.
    #[inline(always)]
    pub fn updates(&self, outcome: &Outcome<'_>, updates: &mut MuxUpdates)
        requires { IsStep self.now.looked }
        ensures { updates.new.items ≡ updates_after (first_act (looked_of self.now)) (first_note (looked_of self.now)) (outcome_of outcome.now) }
    {
        empty(updates);
        let Some((top, below)) = self.parts.stack.split() else {
            return;
        };
        let route = &self.parts.route;
        match top {
            Task::Rest { left, work } => mark_work(updates, route, below, *left, work, outcome),
            Task::Line { work } => mark_work(updates, route, below, 0, work, outcome),
            _ => {}
        }
    }

    /// Goes on after the next action, which had this outcome. The looks in front of the next step are still to be answered.
    #[inline(always)]
    pub fn advance(&mut self, outcome: &Outcome<'_>)
        requires { IsStep self.old.looked }
        ensures tree { walk_of self.new ≡ rest_of (looked_of self.old) (outcome_of outcome.now) }
        ensures fresh { IsFresh self.new }
        ensures route { self.new.route ≡ self.old.route }
    {
        self.parts.act(outcome);
        self.parts.resume();
        self.before = Snapshot::of(&self.parts.stack);
    }

    /// Answers the looks in front of the next step, by marks and kept channels as this tells them.
    #[inline(always)]
    pub fn look(&mut self, board: &Board, seen: &Seen<'_>)
        requires on { board.now ≡ self.old.route.board }
        requires fresh { IsFresh self.old }
        ensures looked { IsLooked (slots_of seen.now) self.new }
        ensures same { self.new ≡ record self.old { looked = self.new.looked } }
    {
        self.parts.look(board, seen);
    }
}
