//! The monitor: a worker thread for each caller of a core, which makes each step of it alone.
//!
//! Its public contract: `run_all` gives back a core that was opened with what the one it took was opened with, over ports
//! of the same roots, whose callers are all through; and each entry of its journal might come where it did. Nothing is said
//! of who comes first, nor that a worker gets its turn.
#![tactic(auto)]

mod desk;
mod naming;
mod run;
mod worker;

pub use desk::Desk;
pub use naming::Naming;
pub use run::run_all;
pub use worker::work;
