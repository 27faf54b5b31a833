//! The generator: a board, a script for each caller, and a schedule, made by a plan alone, the same each time.
//!
//! Its public contract: `make` gives the board, the scripts and the schedule of a plan, or wants memory; the board meets the
//! topology rules, each line of the scripts is in the grammar, and they cost less than what is run. Definitions:
//! `specs/Draws.antt` (the draws of a seed), `specs/Boards.antt` (the board), `specs/Scripts.antt` (scripts and schedule),
//! `specs/Made.antt` (what is made).
#![tactic(auto)]

mod board;
mod draws;
mod examples;
mod plan;
mod product;
mod schedule;
mod script;

pub use examples::{draws_are_the_high_bits, the_board_of_two_roots};
pub use plan::{MOST_LINES, Plan};
pub use product::{Made, make};
