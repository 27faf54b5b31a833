//! The words by which the ports of two roots wait for each other.
use i2c_base::SegId;
use std::sync::atomic::{AtomicBool, Ordering};
use std::thread;

/// A wait ends after so many looks.
const MOST_LOOKS: u32 = 1_000_000;

/// What the ports of the held root and of the other root have told each other. Nothing is proved of it, since no clause
/// can say what an atomic holds.
#[derive(Drop)]
pub struct Words {
    held: SegId,
    other: SegId,
    /// The port of the held root has come to its first start.
    held_came: AtomicBool,
    /// The port of the other root has made a stop.
    other_stopped: AtomicBool,
    /// A wait ran out of looks.
    ran_out: AtomicBool,
}

impl Words {
    /// The words of these two roots, where nothing is told yet.
    pub fn new(held: SegId, other: SegId) -> Self {
        Words {
            held,
            other,
            held_came: AtomicBool::new(false),
            other_stopped: AtomicBool::new(false),
            ran_out: AtomicBool::new(false),
        }
    }

    /// The port of this root comes to its first start, and waits there where the root is one of the two.
    pub fn come(&self, root: SegId) {
        if root == self.held {
            self.held_came.store(true, Ordering::SeqCst);
            self.wait_for(&self.other_stopped);
        }
        if root == self.other {
            self.wait_for(&self.held_came);
        }
    }

    /// The port of this root has made a stop.
    pub fn stop(&self, root: SegId) {
        if root == self.other {
            self.other_stopped.store(true, Ordering::SeqCst);
        }
    }

    /// Whether a wait ran out of looks.
    pub fn gave_up(&self) -> bool {
        self.ran_out.load(Ordering::SeqCst)
    }

    /// Waits until a word is told, or the looks run out.
    fn wait_for(&self, word: &AtomicBool) {
        for _ in 0..MOST_LOOKS {
            if word.load(Ordering::SeqCst) {
                return;
            }
            thread::yield_now();
        }
        self.ran_out.store(true, Ordering::SeqCst);
    }
}
