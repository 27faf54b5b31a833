//! Which marks and kept channels a step changes.
ghost use Rattle.std.specs.Prelude.{◌≡◌, ◌+◌, ◌<◌, ◌≤◌, [], ◌∷◌, ◌++◌, Some, None, length, reverse, All};
ghost use Rattle.mux_plan.specs.Plans.{job_of, note_of, outcome_of};
ghost use Rattle.mux_plan.specs.Marks.{all_marked, left_open, updates_on, updates_of_job};
ghost use Rattle.mux_plan.specs.Rooms.{IsPlaced, IsNarrow, IsPlacedWork, STACK_ROOM};

use crate::stack::STACK_ROOM;
use crate::{Outcome, Route, Task, Work};
use arrayvec::ArrayVec;
use i2c_base::{End, MuxId, SegId};
use i2c_board::Hop;

/// A mux was turned: the bus that it stands on gets a mark, that of a mux which may have been left open, or loses it, and
/// the mux has this channel open.
#[derive(Clone, Copy, Default)]
pub struct MuxUpdate {
    pub on: SegId,
    pub mark: Option<MuxId>,
    pub mux: MuxId,
    pub channel: Option<u8>,
}

/// The muxes that a step turns, the one that is set first in front.
pub type MuxUpdates = ArrayVec<MuxUpdate, STACK_ROOM>;

// A failure marks each mux that may be left open: from the nearest deselect up those that these tasks wait for.
fn mark_open(updates: &mut MuxUpdates, route: &Route, tasks: &[Task])
    requires room { length updates.old.items + length tasks.now ≤ STACK_ROOM }
    requires placed { IsPlaced (length route.now.path) (reverse tasks.now) }
    ensures value { updates.new.items ≡ updates.old.items ++ all_marked (note_of route.now (reverse tasks.now)).marks }
    ensures few { length updates.new.items ≤ length updates.old.items + length tasks.now }
{
    let Some((top, below)) = tasks.split_last() else {
        return;
    };
    match top {
        Task::AwaitDeselect { hop, .. } => {
            let hop = route.hop(*hop);
            mark(updates, hop.on, hop.mux);
        }
        // Of several muxes on one bus the one nearest to the top counts, so it comes last.
        Task::AwaitClose { hop, mux, .. } => {
            mark_open(updates, route, below);
            mark(updates, route.hop(*hop).on, *mux);
        }
        Task::AwaitSelect { hop, .. } => {
            mark_open(updates, route, below);
            let hop = route.hop(*hop);
            mark(updates, hop.on, hop.mux);
        }
        Task::Enter { .. }
        | Task::Lock { .. }
        | Task::Free(_)
        | Task::Rest { .. }
        | Task::Line { .. }
        | Task::Settle(_)
        | Task::Pass { .. }
        | Task::AwaitWork { .. } => mark_open(updates, route, below),
    }
}

// A mux on the bus may be open from now on.
fn mark(updates: &mut MuxUpdates, on: SegId, mux: MuxId)
    requires { length updates.old.items < STACK_ROOM }
    ensures { updates.new.items ≡ updates.old.items ++ record { on = on; mark = Some mux; mux = mux; channel = None } ∷ [] }
{
    updates.push(MuxUpdate {
        on,
        mark: Some(mux),
        mux,
        channel: None,
    });
}

// The channel that a select leaves open whose message or line had this outcome: a poll opens none.
fn left_open(hop: &Hop, left: u8, outcome: &Outcome<'_>) -> Option<u8>
    requires { IsNarrow hop.now }
    ensures { result ≡ left_open hop.now left (outcome_of outcome.now) }
{
    let through = match outcome {
        Outcome::Passed => false,
        Outcome::Sent { end, .. } => *end == End::Ok && left == 0,
        Outcome::Lined { failed } => !*failed,
    };
    through.then_some(hop.channel as u8)
}

// A mux on this bus was turned above these tasks. Where the port didn't fail no mark is left, and this channel is open.
#[inline(never)]
fn turn(
    updates: &mut MuxUpdates,
    route: &Route,
    tasks: &[Task],
    on: SegId,
    mux: MuxId,
    channel: Option<u8>,
    outcome: &Outcome<'_>,
)
    requires few { length tasks.now < STACK_ROOM }
    requires placed { IsPlaced (length route.now.path) (reverse tasks.now) }
    requires empty { updates.old.items ≡ [] }
    ensures { updates.new.items ≡ updates_on on mux channel (note_of route.now (reverse tasks.now)).marks (outcome_of outcome.now) }
{
    let failed = match outcome {
        Outcome::Passed => return,
        Outcome::Sent { end, .. } => matches!(end, End::Cut(_)),
        Outcome::Lined { failed } => *failed,
    };
    if failed {
        mark_open(updates, route, tasks);
    } else {
        updates.push(MuxUpdate {
            on,
            mark: None,
            mux,
            channel,
        });
    }
}

/// Which muxes are turned where a message of a piece of work above these tasks, which so many more may follow, or its
/// line has this outcome.
#[inline(always)]
pub fn mark_work(
    updates: &mut MuxUpdates,
    route: &Route,
    tasks: &[Task],
    left: u8,
    work: &Work,
    outcome: &Outcome<'_>,
)
    requires few { length tasks.now < STACK_ROOM }
    requires placed { IsPlaced (length route.now.path) (reverse tasks.now) }
    requires empty { updates.old.items ≡ [] }
    requires work { IsPlacedWork (length route.now.path) work.now }
    requires narrow { All IsNarrow route.now.path }
    ensures { updates.new.items ≡ updates_of_job (job_of route.now work.now) left (note_of route.now (reverse tasks.now)).marks (outcome_of outcome.now) }
{
    match work {
        Work::Call => {}
        Work::Select(hop) => {
            let hop = route.hop(*hop);
            let channel = left_open(hop, left, outcome);
            turn(updates, route, tasks, hop.on, hop.mux, channel, outcome);
        }
        Work::Deselect(hop) => {
            let hop = route.hop(*hop);
            turn(updates, route, tasks, hop.on, hop.mux, None, outcome);
        }
        Work::Close { on, mux, .. } => turn(updates, route, tasks, *on, *mux, None, outcome),
    }
}
