//! The two wires of a root, SDA and SCL, bit by bit: what a controller's pulls and looks are to the targets on them, and the
//! laws that this is what the world of bytes says.
//!
//! Its public contract: a byte, an address, a start and a stop, made of pulls and looks, are each one event of the targets that
//! the world gives it to, and are answered as there; the sites of a root are its world's from the opening on. Each law stands
//! on a public function that does nothing.
//!
//! Definitions, after UM10204, "I2C-bus specification and user manual": `specs/Wires.antt` is one target, edge by edge
//! (sections 3.1.3 to 3.1.6, 3.1.9 and 3.1.10); `specs/Roots.antt` the targets of a root, with SDA as a wired AND (3.1.1), and
//! what a call is to each in the world of bytes; `specs/Bus.antt` both lines with a controller, pull by pull and look by look
//! (3.1.1, 3.1.4, 3.1.9); `specs/Started.antt` the targets from a start to the end of its acknowledge clock;
//! `specs/Calls.antt` what a controller does; `specs/Sites.antt` the mux chips and devices of a board as such targets, and
//! their world. The laws are named in `specs/Laws.antt`, of any table of targets, `specs/WorldLaws.antt`, of sites and their
//! world, and `specs/CallLaws.antt`, of both; `specs/Rows.antt` has the parts of the worked examples.
#![tactic(auto)]

mod bytes;
mod calls;
mod examples;
mod mode;
mod starts;
mod worlds;

pub use bytes::{
    a_byte_that_is_cut_stands_partway, a_byte_that_is_put_is_one_event,
    a_byte_that_is_read_is_one_event, the_bits_of_a_byte_are_the_byte,
};
pub use calls::{
    a_get_on_the_wires_is_one_in_the_world, a_put_on_the_wires_is_one_in_the_world,
    a_start_on_the_wires_is_one_in_the_world, a_stop_after_a_slow_start_is_one_in_the_world,
    a_stop_on_the_wires_is_one_in_the_world,
};
pub use examples::{
    a_byte_that_is_cut_after_five_bits_is_no_byte, a_clock_is_held_for_64_looks,
    a_clock_that_is_held_for_65_looks_is_given_up, a_register_read_has_38_rises,
    a_start_that_nobody_acknowledges, two_that_send_at_once_are_read_as_their_and,
};
pub use mode::{Mode, Next};
pub use starts::{
    a_clock_that_is_held_for_64_looks_comes_up, a_clock_that_is_held_for_65_looks_is_too_slow,
    a_message_that_nobody_hears_is_out, a_repeated_start_calls_all_that_is_joined,
    a_start_calls_all_that_is_joined, a_stop_after_a_slow_start_frees_the_lines,
    a_stop_frees_the_lines, an_address_byte_is_one_event,
    an_edge_changes_only_who_is_in_the_message,
};
pub use worlds::{
    a_get_on_the_sites_is_one_in_the_world, a_line_on_the_sites_is_one_in_the_world,
    a_put_on_the_sites_is_one_in_the_world, a_start_on_the_sites_is_one_in_the_world,
    a_stop_on_the_sites_is_one_in_the_world, chips_stand_before_devices, nodes_are_fair,
    the_sites_of_a_board_are_its_worlds,
};
