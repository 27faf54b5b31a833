//! The journal of the bus, the text of its entries, and what it comes to in five counts.
//!
//! Its public contract: `entry_text` is the line of an entry (`entry_line` of `bus_spec/specs/Lines.antt`); a `Journal` is
//! seen as the list of its entries, and keeps their lines alone; `tally_of` counts its entries by their lines, and takes no memory
//! (`specs/Tallies.antt`). Small pieces of text are offered to whoever writes more lines.
#![tactic(auto)]

mod borrowed;
mod counts;
mod cursor;
mod front;
mod guess;
mod journal;
mod laws;
mod line;
mod pieces;
mod ranges;
mod read;
mod tally;
mod text;

pub use borrowed::{EntryRef, Head};
pub use front::{byte_at, digit_value, rest_after};
pub use journal::Journal;
pub use laws::{a_line_tells_its_entry, a_report_tells_its_journal};
pub use line::{entry_text, errno_name};
pub use read::{EntryFault, LineReader, read_entry};
pub use tally::{Tally, tally_of};
pub use text::{hex_digit, push_bytes, push_number};
