//! A gate at which two callers take turns.
use crate::{Gate, Point};
use std::sync::atomic::{AtomicU64, Ordering};
use std::thread;

/// A hold ends after so many looks.
const MOST_LOOKS: u32 = 1_000_000;

/// So many replies of the other caller end the hold of the first.
const TURN: u64 = 2;

/// A caller, and how often it has come to the point.
#[derive(Drop)]
struct Side {
    caller: u8,
    came: AtomicU64,
}

impl Side {
    /// A caller that has not come yet.
    fn of(caller: u8) -> Side {
        Side {
            caller,
            came: AtomicU64::new(0),
        }
    }

    /// It never came to the point.
    fn never_came(&self) -> bool {
        self.came.load(Ordering::SeqCst) == 0
    }
}

/// A gate at which two callers take turns. The first time `held` comes to the point, it is held until `other` has settled
/// twice; the first time `other` comes there, it is held until `held` has come. A caller has come to a point once the gate
/// was passed with it. Each hold ends after 1,000,000 looks.
#[derive(Drop)]
pub struct TurnGate {
    held: Side,
    other: Side,
    at: Point,
    // How often the other has settled.
    other_settled: AtomicU64,
    // How many holds ran out of looks.
    ran_out: AtomicU64,
}

// Waits until a count is so large; tells whether it was within the looks of a hold.
fn waits_for(count: &AtomicU64, least: u64) -> bool {
    for _ in 0..MOST_LOOKS {
        if count.load(Ordering::SeqCst) >= least {
            return true;
        }
        thread::yield_now();
    }
    false
}

impl TurnGate {
    /// A gate that holds these two callers at this point.
    pub fn new(held: u8, other: u8, at: Point) -> TurnGate {
        TurnGate {
            held: Side::of(held),
            other: Side::of(other),
            at,
            other_settled: AtomicU64::new(0),
            ran_out: AtomicU64::new(0),
        }
    }

    /// Whether a hold ran out of looks, or one of the two never came to the point. Nothing is proved of it, since no clause
    /// can say what an atomic holds.
    pub fn gave_up(&self) -> bool {
        self.ran_out.load(Ordering::SeqCst) > 0 || self.held.never_came() || self.other.never_came()
    }

    // One more has come: the first time it is held until the count is so large.
    fn hold(&self, side: &Side, count: &AtomicU64, least: u64) {
        if side.came.fetch_add(1, Ordering::SeqCst) == 0 && !waits_for(count, least) {
            self.ran_out.fetch_add(1, Ordering::SeqCst);
        }
    }
}

impl Gate for TurnGate {
    fn pass(&self, caller: u8, point: Point) {
        if caller == self.other.caller && point == Point::Settled {
            self.other_settled.fetch_add(1, Ordering::SeqCst);
        }
        if point != self.at {
            return;
        }
        if caller == self.held.caller {
            self.hold(&self.held, &self.other_settled, TURN);
        } else if caller == self.other.caller {
            self.hold(&self.other, &self.held.came, 1);
        }
    }
}
