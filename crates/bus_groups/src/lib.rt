//! Groups of callers that have no root in common: each has a core of its own, and all run at once.
//!
//! Its public contract: `groups` tells the home of each root and of each caller, the least root of its group, and no parting is
//! finer (`homes_part_the_roots`). What is parted by homes and rejoined is as it was (`parting_is_undone`). `run_groups` runs a core
//! for each home, with a worker thread for each caller: what is left is as of one core that ran, and the journals of the groups
//! stand one after the other. All memory is taken before the first core runs. Definitions: `specs/Homes.antt`, `specs/Shares.antt`,
//! `specs/Rounds.antt`.
#![tactic(auto)]

mod homes;
mod rounds;
mod shares;
mod slot;
mod together;

pub use homes::{Homes, groups, homes_part_the_roots};
pub use rounds::Share;
pub use shares::{cost_of_home, parted, parting_is_undone, rejoined};
pub use slot::{Slot, run_slots};
pub use together::{Ran, run_groups};
