//! A core that threads share, one at a time.
ghost use Rattle.std.specs.Prelude.{◌≡◌, true};
ghost use Rattle.bus_core.specs.State.{has_caller, roots_in};

use crate::naming::Naming;
use bus_core::{BusCore, StepAnswer};
use bus_journal::Head;
use i2c_base::{Caller, Purpose};
use i2c_outside::Point;
use ports::Port;
use std::marker::PhantomData;
use std::sync::{Condvar, Mutex, Wait};

// A core that was opened with what `N` names.
struct Named<'b, P: Port, C: Caller, N: Naming<C::Script>> {
    core: BusCore<'b, P, C>,
    of: PhantomData<N>,
    ghost named: { core.opening ≡ N.opening },
    ghost rooted: { roots_in core ≡ N.roots },
}

impl<'b, P: Port, C: Caller, N: Naming<C::Script>> Named<'b, P, C, N> {
    fn has(&self, caller: u8) -> bool
        ensures { result ≡ has_caller N.opening.scripts caller }
    {
        self.core.has(caller)
    }

    fn step(&mut self, caller: u8) -> StepAnswer
        requires { has_caller N.opening.scripts caller ≡ true }
    {
        self.core.step(caller)
    }

    // What the last step did, as the journal's last entry has it.
    fn point(&self) -> Point {
        let Some(head) = self.core.journal().last() else {
            return Point::Settled;
        };
        match head {
            Head::Take { lock, .. } => Point::Took(lock),
            Head::Free { lock, .. } => Point::Freed(lock),
            Head::Message { purpose, .. } => match purpose {
                Purpose::Call => Point::Message,
                Purpose::Control(_) => Point::Control,
            },
            Head::Line { .. } => Point::Line,
            Head::Settle { .. } => Point::Settled,
        }
    }
}

/// A core that threads share: whoever makes a step of it holds the monitor meanwhile.
pub struct Desk<'b, P: Port, C: Caller, N: Naming<C::Script>> {
    held: Mutex<Named<'b, P, C, N>>,
    moved: Condvar,
}

impl<'b, P: Port, C: Caller, N: Naming<C::Script>> Desk<'b, P, C, N> {
    /// A desk round a core that was opened with what `N` names.
    pub fn open(core: BusCore<'b, P, C>) -> Self
        requires named { core.opening ≡ N.opening }
        requires rooted { roots_in core ≡ N.roots }
    {
        Desk {
            held: Mutex::new(Named {
                core,
                of: PhantomData,
            }),
            moved: Condvar::new(),
        }
    }

    /// The core, which was opened with that.
    pub fn close(self) -> BusCore<'b, P, C>
        ensures named { result.opening ≡ N.opening }
        ensures rooted { roots_in result ≡ N.roots }
    {
        let Desk { held, moved: _ } = self;
        let Named { core, of: _ } = held.into_inner();
        core
    }

    // Its core has a caller of this number.
    pub(crate) fn has<H: Wait>(&self, rt: &H, caller: u8) -> bool
        ensures { result ≡ has_caller N.opening.scripts caller }
    {
        self.held.lock(rt).has(caller)
    }

    // Makes the next step of a caller, and waits while it is blocked; after the step all that wait are woken. Tells what
    // the step did; none where the script is used up.
    pub(crate) fn turn<H: Wait>(&self, rt: &H, caller: u8) -> Option<Point>
        requires { has_caller N.opening.scripts caller ≡ true }
    {
        let mut guard = self.held.lock(rt);
        for _ in rt.forever() {
            match guard.step(caller) {
                StepAnswer::Stepped => {
                    let point = guard.point();
                    self.moved.notify_all();
                    return Some(point);
                }
                StepAnswer::Blocked { .. } => guard = self.moved.wait(rt, guard),
                StepAnswer::Finished => return None,
            }
        }
        unreachable!()
    }
}
