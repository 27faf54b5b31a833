//! A store of heads with a run of bytes each: the bytes of all lie in one vector, so that a head without any costs none.
//!
//! Its public contract: a `Packed` is the list of its heads with their bytes, `push` adds one at the end of that list,
//! and where there was room it takes no memory. Definitions: `specs/View.antt`.
#![tactic(auto)]

mod packed;

pub use packed::Packed;
