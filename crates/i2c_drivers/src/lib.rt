//! The drivers that are bound to devices of a board, after Linux: EEPROMs (at24) and temperature sensors (lm75).
//!
//! Its public contract: a `DriverRun` is a line of a driver as it runs, and a dialogue (`dialogue_of` of `specs/Runs.antt`) as a
//! `ToolRun` of `tools` is: places with a transfer each, where it goes on after a reply, the lines that it prints, and the room
//! for them. Its caller keeps its place and its replies. A driver reaches only devices of its kind that are bound, each on its
//! very own bus (`bound_at` of `specs/Bound.antt`); where there is none, a line is refused without a transfer.
//!
//! - `At24Run` reads and writes an EEPROM piece by piece, each tried up to eight times (`specs/At24.antt`; what was read is
//!   printed by `specs/Rows.antt`).
//! - `Lm75Run` reads and writes a register of a sensor in thousandths of a degree (`specs/Lm75.antt`).
//! - `Sensors` reads all sensors, one after the other (`specs/Sensors.antt`).
//!
//! Its laws are in `src/laws.rt`: the pieces of a read or a write are the whole, no piece goes past the end of a page, each transfer
//! is within the limits, and what is printed is lines of a section.
#![tactic(auto)]

mod at24;
mod bound;
mod examples;
mod laws;
mod lm75;
mod rows;
mod run;
mod sensors;
mod text;

pub use at24::{At24Run, Eeprom, PageRead, PageWrite};
pub use bound::{Sensor, bound_eeprom, bound_sensor, bound_sensors};
pub use examples::{
    a_read_ends_with_the_chip, a_read_has_pieces_of_128, a_register_goes_high_byte_first,
    a_register_is_half_degrees, a_write_stops_at_the_ends_of_pages,
    another_error_is_not_tried_again, only_a_bound_device_of_the_bus_is_found,
    sensors_are_read_in_file_order, sixteen_bytes_stand_on_a_line, the_eighth_refusal_is_the_last,
    the_tries_begin_anew_at_each_piece,
};
pub use laws::{
    a_piece_keeps_to_its_page, each_transfer_is_within_the_limits, no_line_is_journal,
    the_pieces_are_the_read, the_pieces_are_the_write,
};
pub use lm75::Lm75Run;
pub use run::DriverRun;
pub use sensors::Sensors;
