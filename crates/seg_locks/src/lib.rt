//! The lock words of a board: who has the lock of each root and of the muxes on each bus, and which mux of a bus a
//! failed call may have left open.
//!
//! Its public contract: `Locks::take` answers Held exactly where some caller has the lock, with that caller, and else
//! gives it to the caller with its mark; `free` and `set_mark` change the holder or the mark of that lock alone.
//! Definitions: `specs/Locks.antt`. Standard: Linux i2c-topology.
#![tactic(auto)]

mod locks;

pub use locks::{Held, Locks};
