//! The text of a board file: a TOML document, read into a `Board` by its table of keys.
//!
//! Its public contract: `read_board` answers exactly what the definition `board_of` says of the text, but for
//! being out of memory. Definitions: `specs/Rules.antt` (what is wrong with a table), `specs/Keys.antt` (the keys of
//! each table), `specs/Values.antt` (what a table says, with defaults), `specs/BoardText.antt` (the whole text).
#![tactic(auto)]

mod board_text;
mod device;
mod devices;
mod fault;
pub mod find;
mod fits;
mod keys;
mod mux;
mod names;
mod numbers;
mod read;
mod root;
pub mod rows;
pub mod rule;
mod runs;
mod top;

pub use board_text::read_board;
pub use fault::{BoardFault, TableFault, TableName};
