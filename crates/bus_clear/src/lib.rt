//! Bus clear (UM10204 section 3.1.16): a target that a controller left in the middle of a byte may hold SDA low; clock pulses make
//! it let go, and a start with a stop ends its message.
//!
//! Its public contract: `clear_bus` over any lines says by the record of its pulls and looks when SCL or SDA is held, and over lines
//! that tell it is one equation on them; `cut_read` is a read of one byte that stops at a rise of SCL; and after it, on a root
//! whose targets are quiet, `clear_cut` always frees the bus, with the pulses that the world of bytes says, and leaves each target
//! as after the events that it was told. `clear_root` does so on a root of a board, and reads the address then. Definitions:
//! `specs/Cuts.antt` by the world alone, `specs/Pulls.antt` pull by pull, `specs/Clears.antt` what the calls come to, and
//! `specs/Receives.antt` the read after them.
#![tactic(auto)]

mod clear;
mod cleared;
mod cut;
mod laws;
mod reading;
mod root;

pub use clear::clear_bus;
pub use cleared::Cleared;
pub use cut::{CutRead, clear_cut, cut_read};
pub use laws::{
    a_clock_that_is_held_too_long_is_not_heard, a_cut_read_is_of_its_root,
    a_cut_within_the_address_changes_nothing, a_read_of_an_arbitrator_counts_at_its_ninth_clock,
    an_opening_world_is_quiet, an_unfinished_byte_is_read_anew, cut_reads_are_cleared,
    cut_reads_of_other_kinds_are_cleared, the_pulses_are_the_least,
};
pub use reading::receive;
pub use root::{RootCleared, clear_root};
