//! Boards: the buses of a board as a tree, to whom an address leads, whether a way is clear, and which boards are accepted.
//!
//! Its public contract: each call of `Board` is the definition of its name in `i2c_spec`, and `accept` answers Ok exactly
//! where a board meets the five topology rules, and else the first rule that it breaks, with the two items at fault. An
//! `Accepted` board meets the rules, and tells what the transfers on its buses cost. Definitions: `specs/Tree.antt`,
//! `specs/Grant.antt` and `specs/Rules.antt` of `i2c_spec`. Standard: Linux i2c-topology, "I2C muxes and complex
//! topologies".
#![tactic(auto)]

mod accepted;
mod board;
mod by_bus;
mod cached_board;
mod cost;
mod grant;
mod hop;
mod idle;
mod layout;
mod paths;
mod refusals;
mod rules;
mod topology;
mod tree;

pub use accepted::Accepted;
pub use board::Board;
pub use cached_board::CachedBoard;
pub use cost::BusBill;
pub use hop::Hop;
pub use i2c_base::{Grant, Item, RuleBroken, Way};
pub use layout::Layout;
pub use paths::end_of;
pub use refusals::refusal;
pub use rules::accept;
