//! The register cache, after Linux's regmap: which register of a sensor a caller knows from its own accesses, and that the
//! replies with what it knows filled in are those of the flat world doing all transfers. None of it speaks of code.
#![tactic(auto)]

mod laws;
mod registers;

pub use laws::{all_hits_are_left_out, cached_callers_are_fair, hits_are_what_reads_would_give};
pub use registers::{Access, Kept, Pair};
