//! A walk as a stack of tasks.
ghost use Rattle.std.specs.Prelude.{◌≡◌, ◌+◌, ◌<◌, ◌≤◌, ℕ, true, false, List, [], ◌∷◌, length};
ghost use Rattle.std.specs.List.{list_any};
ghost use Rattle.bus_spec.specs.Slots.{Slots};
ghost use Rattle.bus_spec.specs.Walk.{JobOutcome, ActOutcome, Look, KeptOf};
ghost use Rattle.bus_spec.specs.Grammar.{at_bus, lost as lost_of, keeps, crossed, opened, over, seen as seen_by, rest_of};
ghost use Rattle.mux_plan.specs.Plans.{job_of, hop_at, came_of, outcome_of, note_of, on_bus, tree_of, slots_of, mark_on, kept_of, part_task, select_tasks, wait_tasks, work_tasks, crossed_tasks, choice_of, switch_of};
ghost use Rattle.mux_plan.specs.Plans as plans;
ghost use Rattle.mux_plan.specs.Rooms.{IsPlacedWork, IsPlanned, IsReady, IsStep, STACK_ROOM};
ghost use Rattle.mux_plan.specs.declared.task.Task.TheVariants.{Enter, Lock, Rest, Pass, AwaitClose, AwaitSelect, AwaitWork};

use crate::route::close;
use crate::stack::Stack;
use crate::work::Continuation;
use crate::{Outcome, Route, Seen, Task, Work, WorkResult};
use i2c_base::MuxId;
use i2c_board::Board;

/// The parts of a walk.
#[derive(Drop)]
pub struct WalkState {
    pub route: Route,
    pub stack: Stack<Task>,
    /// What came of the last piece of work.
    pub came: WorkResult,
}

// The task that does a piece of work on the bus of a mux: the locks of a mux-locked one come first.
fn part_task(parent: bool, place: u8, work: &Work) -> Task
    ensures { result ≡ part_task parent place work.now }
{
    if parent {
        Task::Enter { place, work: *work }
    } else {
        Task::Lock {
            from: place,
            place,
            work: *work,
        }
    }
}

// What comes of work whose select came so: it was never sent.
fn lost(came: WorkResult) -> WorkResult
    ensures { came_of result ≡ lost_of (came_of came) }
{
    match came {
        WorkResult::Good => WorkResult::Good,
        WorkResult::Refused | WorkResult::Unsent => WorkResult::Unsent,
        WorkResult::Failed => WorkResult::Failed,
    }
}

// A task of a deselect.
fn is_deselect(task: &Task) -> bool
    ensures { result ≡ plans.is_deselect task.now }
{
    matches!(task, Task::AwaitDeselect { .. })
}

// One of these tasks is that of a deselect.
fn has_deselect(tasks: &[Task]) -> bool
    ensures { result ≡ list_any plans.is_deselect tasks.now }
{
    tasks.iter().any(is_deselect)
}

impl WalkState {
    /// Begins anew with this task.
    pub fn start(&mut self, task: Task)
        ensures stack { self.new.stack ≡ task ∷ [] }
        ensures route { self.new.route ≡ self.old.route }
    {
        self.stack.restart(task);
        self.came = WorkResult::Good;
    }

    // The work waits for the select, which is given, but where the mux keeps its channel open: then the work itself is.
    fn wait_select(&mut self, seen: &Seen<'_>, hop: u8, work: &Work) -> Work
        requires room { length self.old.stack < STACK_ROOM }
        requires there { hop < length self.old.route.path }
        ensures next { result ≡ choice_of self.old.route hop (keeps (hop_at self.old.route hop) (kept_of seen.now (hop_at self.old.route hop).mux)) work.now }
        ensures placed { IsPlacedWork (length self.old.route.path) work.now → IsPlacedWork (length self.old.route.path) result }
        ensures few { length self.new.stack ≤ length self.old.stack + 1 }
        ensures stack { self.new.stack ≡ select_tasks (keeps (hop_at self.old.route hop) (kept_of seen.now (hop_at self.old.route hop).mux)) hop work.now self.old.stack }
        ensures route { self.new.route ≡ self.old.route }
        ensures came { self.new.came ≡ self.old.came }
    {
        if seen.keeps(self.route.hop(hop)) {
            return *work;
        }
        self.stack.push(Task::AwaitSelect { hop, work: *work });
        Work::Select(hop)
    }

    // The work waits for what comes first at a mux, which is given.
    fn wait(&mut self, board: &Board, seen: &Seen<'_>, hop: u8, work: &Work) -> Work
        requires on { board.now ≡ self.old.route.board }
        requires room { length self.old.stack < STACK_ROOM }
        requires there { hop < length self.old.route.path }
        ensures next { result ≡ switch_of self.old.route hop (mark_on seen.now (hop_at self.old.route hop).on) (keeps (hop_at self.old.route hop) (kept_of seen.now (hop_at self.old.route hop).mux)) work.now }
        ensures placed { IsPlacedWork (length self.old.route.path) work.now → IsPlacedWork (length self.old.route.path) result }
        ensures few { length self.new.stack ≤ length self.old.stack + 1 }
        ensures stack { self.new.stack ≡ wait_tasks (mark_on seen.now (hop_at self.old.route hop).on) (keeps (hop_at self.old.route hop) (kept_of seen.now (hop_at self.old.route hop).mux)) hop work.now self.old.stack }
        ensures route { self.new.route ≡ self.old.route }
        ensures came { self.new.came ≡ self.old.came }
    {
        let on = self.route.hop(hop).on;
        match seen.mark(on) {
            None => self.wait_select(seen, hop, work),
            Some(mux) => {
                self.stack.push(Task::AwaitClose {
                    hop,
                    mux,
                    work: *work,
                });
                close(board, on, mux)
            }
        }
    }

    // At a mux the work waits. Gives what comes first there, which takes the locks of a mux-locked one.
    #[inline(always)]
    fn cross(&mut self, board: &Board, seen: &Seen<'_>, hop: u8, work: &Work) -> Work
        requires on { board.now ≡ self.old.route.board }
        requires room { length self.old.stack + 2 ≤ STACK_ROOM }
        requires there { hop < length self.old.route.path }
        requires low { hop + 1 < 256 }
        ensures next { result ≡ switch_of self.old.route hop (mark_on seen.now (hop_at self.old.route hop).on) (keeps (hop_at self.old.route hop) (kept_of seen.now (hop_at self.old.route hop).mux)) work.now }
        ensures placed { IsPlacedWork (length self.old.route.path) work.now → IsPlacedWork (length self.old.route.path) result }
        ensures stack { self.new.stack ≡ crossed_tasks (hop_at self.old.route hop).parent (mark_on seen.now (hop_at self.old.route hop).on) (keeps (hop_at self.old.route hop) (kept_of seen.now (hop_at self.old.route hop).mux)) hop work.now result self.old.stack }
        ensures route { self.new.route ≡ self.old.route }
        ensures came { self.new.came ≡ self.old.came }
    {
        let next = self.wait(board, seen, hop, work);
        if !self.route.is_parent(hop) {
            self.stack.push(part_task(false, hop + 1, &next));
        }
        next
    }

    // No mux is left to cross.
    fn reach(&mut self, work: &Work)
        requires room { length self.old.stack < STACK_ROOM }
        requires placed { IsPlacedWork (length self.old.route.path) work.now }
        ensures tree { (out : JobOutcome) → tree_of self.new.route self.new.stack out ≡ at_bus (job_of self.old.route work.now) (note_of self.old.route self.old.stack) (tree_of self.old.route self.old.stack) }
        ensures planned { (n : ℕ) → IsPlanned self.old.route (Enter n work.now ∷ self.old.stack) → IsPlanned self.new.route self.new.stack }
        ensures step { IsStep self.new.stack }
        ensures some { 0 < length self.new.stack }
        ensures route { self.new.route ≡ self.old.route }
        ensures came { self.new.came ≡ self.old.came }
    {
        let task = self.route.base(*work);
        self.stack.push(task);
    }

    /// Begins a piece of work on the bus at a place: the looks at the muxes on its way are answered, and the first step
    /// is on the top.
    #[inline(always)]
    pub fn enter(&mut self, board: &Board, seen: &Seen<'_>, place: u8, work: Work)
        requires on { board.now ≡ self.old.route.board }
        requires planned { IsPlanned self.old.route (Enter place work ∷ self.old.stack) }
        ensures tree { (out : JobOutcome) → tree_of self.new.route self.new.stack out
            ≡ seen_by (slots_of seen.now) (tree_of self.old.route (Enter place work ∷ self.old.stack) out) }
        ensures planned { IsPlanned self.new.route self.new.stack }
        ensures step { IsStep self.new.stack }
        ensures some { 0 < length self.new.stack }
        ensures route { self.new.route ≡ self.old.route }
        ensures came { self.new.came ≡ self.old.came }
    {
        let mut place = place;
        let mut work = work;
        'muxes: while self.route.crosses(place, &work) {
            let hop = place;
            work = self.cross(board, seen, hop, &work);
            place += 1;
            if !self.route.is_parent(hop) {
                return;
            }
        }
        self.reach(&work);
    }

    // Goes on after the close of a marked mux: the look at the kept channel is answered, and those on the way of what
    // comes then. Apart, since few walks come here.
    #[inline(never)]
    fn pass(&mut self, board: &Board, seen: &Seen<'_>, hop: u8, work: &Work)
        requires on { board.now ≡ self.old.route.board }
        requires planned { IsPlanned self.old.route (Pass hop work.now ∷ self.old.stack) }
        ensures tree { (out : JobOutcome) → tree_of self.new.route self.new.stack out
            ≡ seen_by (slots_of seen.now) (tree_of self.old.route (Pass hop work.now ∷ self.old.stack) out) }
        ensures planned { IsPlanned self.new.route self.new.stack }
        ensures step { IsStep self.new.stack }
        ensures some { 0 < length self.new.stack }
        ensures route { self.new.route ≡ self.old.route }
        ensures came { self.new.came ≡ self.old.came }
    {
        let next = self.wait_select(seen, hop, work);
        if self.route.is_parent(hop) {
            self.enter(board, seen, hop + 1, next);
        } else {
            self.stack.push(part_task(false, hop + 1, &next));
        }
    }

    /// Answers the looks in front of the next step.
    #[inline(always)]
    pub fn look(&mut self, board: &Board, seen: &Seen<'_>)
        requires on { board.now ≡ self.old.route.board }
        requires planned { IsPlanned self.old.route self.old.stack }
        requires ready { IsReady self.old.stack }
        ensures tree { (out : JobOutcome) → tree_of self.new.route self.new.stack out
            ≡ seen_by (slots_of seen.now) (tree_of self.old.route self.old.stack out) }
        ensures planned { IsPlanned self.new.route self.new.stack }
        ensures step { IsStep self.new.stack }
        ensures some { 0 < length self.old.stack → 0 < length self.new.stack }
        ensures none { self.old.stack ≡ [] → self.new.stack ≡ [] }
        ensures route { self.new.route ≡ self.old.route }
        ensures came { self.new.came ≡ self.old.came }
    {
        let Some(task) = self.stack.peek() else {
            return;
        };
        match task {
            Task::Enter { place, work } => {
                let place = *place;
                let work = *work;
                self.stack.drop_top();
                self.enter(board, seen, place, work);
            }
            Task::Pass { hop, work } => {
                let hop = *hop;
                let work = *work;
                self.stack.drop_top();
                self.pass(board, &seen.again(), hop, &work);
            }
            _ => {}
        }
    }

    // Takes the first of the locks from a place on.
    fn lock(&mut self, from: u8, place: u8, work: Work)
        requires planned { IsPlanned self.old.route (Lock from place work ∷ self.old.stack) }
        ensures tree { (out out2 : JobOutcome) (o : ActOutcome)
            → tree_of self.new.route self.new.stack out ≡ rest_of (tree_of self.old.route (Lock from place work ∷ self.old.stack) out2) o }
        ensures planned { IsPlanned self.new.route self.new.stack }
        ensures route { self.new.route ≡ self.old.route }
    {
        self.stack.push(Task::Free(self.route.lock_at(from)));
        if self.route.locks_on(from) {
            self.stack.push(Task::Lock {
                from: from + 1,
                place,
                work,
            });
        } else {
            self.stack.push(Task::Enter { place, work });
        }
    }

    // A failure here fails the transfer: no deselect is under way.
    fn is_forward(&self) -> bool
        ensures { result ≡ (note_of self.now.route self.now.stack).forward }
    {
        !has_deselect(self.stack.items())
    }

    // Ends a piece of work, whose last message or line had this outcome.
    #[inline(always)]
    fn end(&mut self, left: u8, work: Work, outcome: &Outcome<'_>)
        requires planned { IsPlanned self.old.route (Rest left work ∷ self.old.stack) }
        ensures tree { tree_of self.new.route self.new.stack (came_of self.new.came)
            ≡ over (job_of self.old.route work) left (note_of self.old.route self.old.stack) (tree_of self.old.route self.old.stack) (outcome_of outcome.now) }
        ensures planned { IsPlanned self.new.route self.new.stack }
        ensures route { self.new.route ≡ self.old.route }
    {
        let came = work.came(left, outcome);
        if work.decides(came) && self.is_forward() {
            self.stack.push(Task::Settle(work.verdict(left, outcome)));
        }
        self.came = came;
    }

    // A message was sent, which so many more might have followed.
    #[inline(always)]
    fn message(&mut self, left: u8, work: Work, outcome: &Outcome<'_>)
        requires planned { IsPlanned self.old.route (Rest left work ∷ self.old.stack) }
        ensures tree { (out : JobOutcome)
            → tree_of self.new.route self.new.stack (came_of self.new.came)
            ≡ rest_of (tree_of self.old.route (Rest left work ∷ self.old.stack) out) (outcome_of outcome.now) }
        ensures planned { IsPlanned self.new.route self.new.stack }
        ensures route { self.new.route ≡ self.old.route }
    {
        if left == 0 {
            self.end(left, work, outcome);
            return;
        }
        match work.after_msg(left - 1, outcome) {
            Continuation::On => self.stack.push(Task::Rest {
                left: left - 1,
                work,
            }),
            Continuation::Last => self.stack.push(Task::Rest { left: 0, work }),
            Continuation::Over => self.end(left, work, outcome),
        }
    }

    /// The step on the top is done, and had this outcome.
    #[inline(always)]
    pub fn act(&mut self, outcome: &Outcome<'_>)
        requires planned { IsPlanned self.old.route self.old.stack }
        requires step { IsStep self.old.stack }
        ensures tree { tree_of self.new.route self.new.stack (came_of self.new.came)
            ≡ rest_of (tree_of self.old.route self.old.stack (came_of self.old.came)) (outcome_of outcome.now) }
        ensures planned { IsPlanned self.new.route self.new.stack }
        ensures route { self.new.route ≡ self.old.route }
    {
        let Some(task) = self.stack.peek() else {
            return;
        };
        match task {
            Task::Lock { from, place, work } => {
                let from = *from;
                let place = *place;
                let work = *work;
                self.stack.drop_top();
                self.lock(from, place, work);
            }
            Task::Rest { left, work } => {
                let left = *left;
                let work = *work;
                self.stack.drop_top();
                self.message(left, work, outcome);
            }
            Task::Line { work } => {
                let work = *work;
                self.stack.drop_top();
                self.end(0, work, outcome);
            }
            Task::Free(_) | Task::Settle(_) => self.stack.drop_top(),
            Task::Enter { .. }
            | Task::AwaitClose { .. }
            | Task::Pass { .. }
            | Task::AwaitSelect { .. }
            | Task::AwaitWork { .. }
            | Task::AwaitDeselect { .. } => {}
        }
    }

    // A marked mux was closed: the look at the kept channel comes next.
    fn closed(&mut self, hop: u8, mux: MuxId, work: Work)
        requires planned { IsPlanned self.old.route (AwaitClose hop mux work ∷ self.old.stack) }
        ensures tree { (out : JobOutcome)
            → tree_of self.new.route self.new.stack out
            ≡ Look (KeptOf (hop_at self.old.route hop).on (hop_at self.old.route hop).mux)
            (crossed (hop_at self.old.route hop) (on_bus self.old.route hop) (job_of self.old.route work) (note_of self.old.route self.old.stack) (tree_of self.old.route self.old.stack)) }
        ensures planned { IsPlanned self.new.route self.new.stack }
        ensures ready { IsReady self.new.stack }
        ensures route { self.new.route ≡ self.old.route }
        ensures came { self.new.came ≡ self.old.came }
    {
        self.stack.push(Task::Pass { hop, work });
    }

    // The mux waits for the work behind it, but where it stays as it is.
    fn wait_work(&mut self, hop: u8)
        requires room { length self.old.stack < STACK_ROOM }
        requires there { hop < length self.old.route.path }
        ensures few { length self.new.stack ≤ length self.old.stack + 1 }
        ensures stack { self.new.stack ≡ work_tasks (hop_at self.old.route hop).stays hop self.old.stack }
        ensures route { self.new.route ≡ self.old.route }
        ensures came { self.new.came ≡ self.old.came }
    {
        if !self.route.hop(hop).stays {
            self.stack.push(Task::AwaitWork { hop });
        }
    }

    // The channel is selected: the work is done.
    fn serve(&mut self, hop: u8, work: Work)
        requires planned { IsPlanned self.old.route (AwaitSelect hop work ∷ self.old.stack) }
        ensures tree { (out : JobOutcome)
            → tree_of self.new.route self.new.stack out
            ≡ opened (hop_at self.old.route hop) (on_bus self.old.route hop) (job_of self.old.route work) (note_of self.old.route self.old.stack) (tree_of self.old.route self.old.stack) }
        ensures planned { IsPlanned self.new.route self.new.stack }
        ensures ready { IsReady self.new.stack }
        ensures route { self.new.route ≡ self.old.route }
        ensures came { self.new.came ≡ self.old.came }
    {
        self.wait_work(hop);
        self.stack
            .push(part_task(self.route.is_parent(hop), hop + 1, &work));
    }

    // The work is done: the mux is deselected, whatever came of it.
    #[inline(never)]
    fn deselect(&mut self, hop: u8)
        requires planned { IsPlanned self.old.route (AwaitWork hop ∷ self.old.stack) }
        ensures tree { (out : JobOutcome)
            → tree_of self.new.route self.new.stack out
            ≡ tree_of self.old.route (AwaitWork hop ∷ self.old.stack) (came_of self.old.came) }
        ensures planned { IsPlanned self.new.route self.new.stack }
        ensures ready { IsReady self.new.stack }
        ensures route { self.new.route ≡ self.old.route }
        ensures came { self.new.came ≡ self.old.came }
    {
        self.stack.push(Task::AwaitDeselect {
            hop,
            came: self.came,
        });
        let work = Work::Deselect(hop);
        self.stack
            .push(part_task(self.route.is_parent(hop), hop + 1, &work));
    }

    // Goes on with what waits on the top, if it does. Tells whether what is below it has to go on too.
    #[inline(always)]
    fn wake(&mut self) -> bool
        requires planned { IsPlanned self.old.route self.old.stack }
        ensures tree { tree_of self.new.route self.new.stack (came_of self.new.came) ≡ tree_of self.old.route self.old.stack (came_of self.old.came) }
        ensures planned { IsPlanned self.new.route self.new.stack }
        ensures route { self.new.route ≡ self.old.route }
        ensures ready { result ≡ false → IsReady self.new.stack }
        ensures less { result ≡ true → length self.new.stack < length self.old.stack }
    {
        let Some(task) = self.stack.peek() else {
            return false;
        };
        match task {
            Task::AwaitClose { hop, mux, work } => {
                let hop = *hop;
                let mux = *mux;
                let work = *work;
                self.stack.drop_top();
                self.wake_close(hop, mux, work)
            }
            Task::AwaitSelect { hop, work } => {
                let hop = *hop;
                let work = *work;
                self.stack.drop_top();
                self.wake_select(hop, work)
            }
            Task::AwaitWork { hop } => {
                let hop = *hop;
                self.stack.drop_top();
                self.deselect(hop);
                false
            }
            Task::AwaitDeselect { came, .. } => {
                let came = *came;
                self.stack.drop_top();
                self.came = came;
                true
            }
            Task::Enter { .. }
            | Task::Lock { .. }
            | Task::Free(_)
            | Task::Rest { .. }
            | Task::Line { .. }
            | Task::Settle(_)
            | Task::Pass { .. } => false,
        }
    }

    // The close of a marked mux has come to its end; where it wasn't sent or failed, so has the work.
    #[inline(never)]
    fn wake_close(&mut self, hop: u8, mux: MuxId, work: Work) -> bool
        requires planned { IsPlanned self.old.route (AwaitClose hop mux work ∷ self.old.stack) }
        ensures tree { tree_of self.new.route self.new.stack (came_of self.new.came)
            ≡ tree_of self.old.route (AwaitClose hop mux work ∷ self.old.stack) (came_of self.old.came) }
        ensures planned { IsPlanned self.new.route self.new.stack }
        ensures route { self.new.route ≡ self.old.route }
        ensures ready { result ≡ false → IsReady self.new.stack }
        ensures less { result ≡ true → self.new.stack ≡ self.old.stack }
    {
        match self.came {
            WorkResult::Good | WorkResult::Refused => {
                self.closed(hop, mux, work);
                false
            }
            WorkResult::Unsent | WorkResult::Failed => true,
        }
    }

    // The select has come to its end; where it wasn't good, so has the work.
    #[inline(never)]
    fn wake_select(&mut self, hop: u8, work: Work) -> bool
        requires planned { IsPlanned self.old.route (AwaitSelect hop work ∷ self.old.stack) }
        ensures tree { tree_of self.new.route self.new.stack (came_of self.new.came)
            ≡ tree_of self.old.route (AwaitSelect hop work ∷ self.old.stack) (came_of self.old.came) }
        ensures planned { IsPlanned self.new.route self.new.stack }
        ensures route { self.new.route ≡ self.old.route }
        ensures ready { result ≡ false → IsReady self.new.stack }
        ensures less { result ≡ true → self.new.stack ≡ self.old.stack }
    {
        match self.came {
            WorkResult::Good => {
                self.serve(hop, work);
                false
            }
            WorkResult::Refused | WorkResult::Unsent | WorkResult::Failed => {
                self.came = lost(self.came);
                true
            }
        }
    }

    /// Goes on with what waits, down to a task that doesn't.
    #[inline(always)]
    pub fn resume(&mut self)
        requires planned { IsPlanned self.old.route self.old.stack }
        ensures tree { tree_of self.new.route self.new.stack (came_of self.new.came) ≡ tree_of self.old.route self.old.stack (came_of self.old.came) }
        ensures planned { IsPlanned self.new.route self.new.stack }
        ensures ready { IsReady self.new.stack }
        ensures route { self.new.route ≡ self.old.route }
    {
        'waiting: while self.wake() {}
    }
}
