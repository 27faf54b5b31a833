//! The pieces of work of a walk: what each sends or sets, and how it goes on.
ghost use Rattle.std.specs.Prelude.{◌≡◌, ◌<◌, ◌^◌, ◌==◌, length, All};
ghost use Rattle.i2c_base.specs.Limits.{MOST_CHANNELS};
ghost use Rattle.i2c_spec.specs.Chips.{select_value};
ghost use Rattle.bus_spec.specs.Walk as walk;
ghost use Rattle.bus_spec.specs.Walk.{first_byte, goes, is_line, line_mux, line_level, job_outcome, verdict_of, decides, more_of, job_bus, job_purpose, part_of, parts_of};
ghost use Rattle.mux_plan.specs.Plans.{RouteView, job_of, came_of, outcome_of, go_of, control_of};
ghost use Rattle.mux_plan.specs.Rooms.{IsNarrow, IsPlacedWork};

use crate::{Outcome, Route, Work, WorkResult};
use i2c_base::{ChannelCode, End, Errno, MuxId, POLLS, Purpose, SegId};
use i2c_board::Hop;
use i2c_spec::errno_of;

/// How a piece of work goes on after one of its messages: with the next one, with its last one, or not at all.
#[derive(Clone, Copy)]
pub enum Continuation {
    On,
    Last,
    Over,
}

// The byte that selects a channel, or the level of a gpio mux.
fn select_byte(hop: &Hop) -> u8
    requires { hop.now.channel < MOST_CHANNELS }
    ensures { result ≡ select_value hop.now.kind hop.now.channel }
{
    match hop.kind.facts().code {
        ChannelCode::Bits => bit(hop.channel),
        ChannelCode::Number(place) => bit(u16::from(place)) + hop.channel as u8,
        ChannelCode::Alone => 1,
        ChannelCode::Level => hop.channel as u8 + 1,
    }
}

// The byte in which this bit alone is set.
fn bit(place: u16) -> u8
    requires { place < 8 }
    ensures { result ≡ 2 ^ place }
{
    1 << place
}

// What a poll brought: 0 where the arbitrator is free.
fn found_free(bytes: &[u8]) -> bool
    ensures { result ≡ (first_byte bytes.now == 0) }
{
    bytes.first() == Some(&0)
}

impl Work {
    /// It is done by a line, and not by messages.
    #[inline(always)]
    pub fn is_line(&self, route: &Route) -> bool
        requires { IsPlacedWork (length route.now.path) self.now }
        ensures { result ≡ is_line (job_of route.now self.now) }
    {
        match self {
            Work::Call => false,
            Work::Select(hop) | Work::Deselect(hop) => route.hop(*hop).kind.facts().by_line,
            Work::Close { kind, .. } => kind.facts().by_line,
        }
    }

    /// How many messages may follow the first one.
    #[inline(always)]
    pub fn more(&self, route: &Route) -> u8
        requires { IsPlacedWork (length route.now.path) self.now }
        ensures { result ≡ more_of (job_of route.now self.now) }
    {
        match self {
            Work::Call => route.count().saturating_sub(1),
            Work::Select(hop) => {
                if route.hop(*hop).kind.facts().asks {
                    POLLS
                } else {
                    0
                }
            }
            Work::Deselect(_) | Work::Close { .. } => 0,
        }
    }

    /// The bus that it is done on.
    #[inline(always)]
    pub fn bus(&self, route: &Route) -> SegId
        requires { IsPlacedWork (length route.now.path) self.now }
        ensures { result ≡ job_bus (job_of route.now self.now) }
    {
        match self {
            Work::Call => route.bus(),
            Work::Select(hop) | Work::Deselect(hop) => route.hop(*hop).on,
            Work::Close { on, .. } => *on,
        }
    }

    /// Why its messages are sent.
    #[inline(always)]
    pub fn purpose(&self, route: &Route) -> Purpose
        requires { IsPlacedWork (length route.now.path) self.now }
        ensures { result ≡ job_purpose (job_of route.now self.now) }
    {
        match self {
            Work::Call => Purpose::Call,
            Work::Select(_) | Work::Deselect(_) | Work::Close { .. } => {
                Purpose::Control(self.line_mux(route))
            }
        }
    }

    /// Which message of its transfer the one is that so many more may follow.
    #[inline(always)]
    pub fn part(&self, route: &Route, left: u8) -> u8
        ensures { result ≡ part_of (job_of route.now self.now) left }
    {
        match self {
            Work::Call => route.count().saturating_sub(left),
            Work::Select(_) | Work::Deselect(_) | Work::Close { .. } => 1,
        }
    }

    /// How many messages its transfer has.
    #[inline(always)]
    pub fn parts(&self, route: &Route) -> u8
        ensures { result ≡ parts_of (job_of route.now self.now) }
    {
        match self {
            Work::Call => route.count(),
            Work::Select(_) | Work::Deselect(_) | Work::Close { .. } => 1,
        }
    }

    /// The byte that its message writes, if it is a control message and no poll.
    #[inline(always)]
    pub fn control(&self, route: &Route, left: u8) -> Option<u8>
        requires work { IsPlacedWork (length route.now.path) self.now }
        requires narrow { All IsNarrow route.now.path }
        ensures { result ≡ control_of (job_of route.now self.now) left }
    {
        match self {
            Work::Call => None,
            Work::Select(hop) => (left == 0).then_some(select_byte(route.hop(*hop))),
            Work::Deselect(_) | Work::Close { .. } => Some(0),
        }
    }

    /// The mux that it turns.
    #[inline(always)]
    pub fn line_mux(&self, route: &Route) -> MuxId
        requires { IsPlacedWork (length route.now.path) self.now }
        ensures { result ≡ line_mux (job_of route.now self.now) }
    {
        match self {
            Work::Call => MuxId(0),
            Work::Select(hop) | Work::Deselect(hop) => route.hop(*hop).mux,
            Work::Close { mux, .. } => *mux,
        }
    }

    /// The level that it sets.
    pub fn line_level(&self, route: &Route) -> u8
        requires work { IsPlacedWork (length route.now.path) self.now }
        requires narrow { All IsNarrow route.now.path }
        ensures { result ≡ line_level (job_of route.now self.now) }
    {
        match self {
            Work::Call | Work::Deselect(_) | Work::Close { .. } => 0,
            Work::Select(hop) => select_byte(route.hop(*hop)),
        }
    }

    /// How it goes on after a message that `left` + 1 more might have followed.
    pub fn after_msg(&self, left: u8, outcome: &Outcome<'_>) -> Continuation
        ensures { (c : RouteView) → go_of result ≡ goes (job_of c self.now) left (outcome_of outcome.now) }
    {
        let Outcome::Sent { end, bytes } = outcome else {
            return Continuation::Over;
        };
        if *end != End::Ok {
            return Continuation::Over;
        }
        match self {
            Work::Call => Continuation::On,
            Work::Select(_) => {
                if found_free(bytes) {
                    Continuation::Last
                } else if left > 0 {
                    Continuation::On
                } else {
                    Continuation::Over
                }
            }
            Work::Deselect(_) | Work::Close { .. } => Continuation::Over,
        }
    }

    // What came of it where its message went through. A poll that was the last one found the arbitrator taken.
    fn came_through(&self, left: u8) -> WorkResult
        ensures { (c : RouteView) → came_of result ≡ walk.good_outcome (job_of c self.now) left }
    {
        match self {
            Work::Call | Work::Deselect(_) | Work::Close { .. } => WorkResult::Good,
            Work::Select(_) => {
                if left == 0 {
                    WorkResult::Good
                } else {
                    WorkResult::Refused
                }
            }
        }
    }

    /// What came of it, where its last message, which `left` more might have followed, or its line had this outcome.
    pub fn came(&self, left: u8, outcome: &Outcome<'_>) -> WorkResult
        ensures { (c : RouteView) → came_of result ≡ job_outcome (job_of c self.now) left (outcome_of outcome.now) }
    {
        match outcome {
            Outcome::Passed => WorkResult::Good,
            Outcome::Sent { end, .. } => match end {
                End::Ok => self.came_through(left),
                End::Nack | End::Slow | End::Refused | End::Proto => WorkResult::Refused,
                End::Cut(_) => WorkResult::Failed,
            },
            Outcome::Lined { failed } => {
                if *failed {
                    WorkResult::Failed
                } else {
                    WorkResult::Good
                }
            }
        }
    }

    // The error that its last message decides where it went through.
    fn verdict_through(&self, left: u8) -> Option<Errno>
        ensures { (c : RouteView) → result ≡ walk.good_errno (job_of c self.now) left }
    {
        match self {
            Work::Call | Work::Deselect(_) | Work::Close { .. } => None,
            Work::Select(_) => (left > 0).then_some(Errno::Etimedout),
        }
    }

    /// The error that its last message or its line decides.
    pub fn verdict(&self, left: u8, outcome: &Outcome<'_>) -> Option<Errno>
        ensures { (c : RouteView) → result ≡ verdict_of (job_of c self.now) left (outcome_of outcome.now) }
    {
        match outcome {
            Outcome::Passed => None,
            Outcome::Sent { end, .. } => {
                if *end == End::Ok {
                    self.verdict_through(left)
                } else {
                    errno_of(*end)
                }
            }
            Outcome::Lined { failed } => failed.then_some(Errno::Eremoteio),
        }
    }

    /// Its end decides the reply, where it is on the way to the caller's messages.
    pub fn decides(&self, came: WorkResult) -> bool
        ensures { (c : RouteView) → result ≡ decides (job_of c self.now) (came_of came) }
    {
        match self {
            Work::Call => true,
            Work::Select(_) => came != WorkResult::Good,
            Work::Deselect(_) | Work::Close { .. } => came == WorkResult::Failed,
        }
    }
}
