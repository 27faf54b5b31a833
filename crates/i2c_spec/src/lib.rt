//! What the bus means: the board's tree, the grant of an address, the targets, the world of a root, one
//! message, and the flat world in which every transfer happens alone.
//!
//! The definitions stand in `specs/`, a file for each subject, over plain records and lists. Code stands here only where
//! crates above call it: `errno_of` is how an early end of a message makes its transfer fail, and `write_runs` and the functions
//! of a `Size` what a device's memory is at the opening; each is equal to its definition. `CallRow` is what a row of the SMBus
//! calls says.
#![tactic(auto)]

mod device_memory;
mod fair_targets;
mod flat_world;
mod laws;
mod smbus_row;
mod smbus_rows;
mod target_rows;

pub use device_memory::{eeprom_bytes, eeprom_page, is_wide, write_runs};
pub use fair_targets::{chips_are_fair, devices_hold_bytes, openings_are_quiet, states_are_fair};
pub use flat_world::errno_of;
pub use laws::an_accepted_board_is_a_tree;
pub use smbus_row::{CallRow, ReadShape, ValueShape};
pub use smbus_rows::{
    a_block_of_no_byte_is_its_count, a_count_says_how_many_bytes_follow,
    a_read_that_follows_lets_data_take_effect, a_start_for_another_drops_the_data,
    data_go_on_at_the_first_register, data_take_effect_where_they_are_whole,
    the_code_begins_anew_after_a_stop, the_code_follows_on_what_is_read,
    the_code_of_a_write_is_its_last_byte, the_code_of_a_write_is_of_its_address_too,
};
pub use target_rows::{
    a_busy_eeprom_refuses_starts, a_byte_waits_for_the_stop, a_long_hold_is_slow,
    a_page_write_wraps_in_its_page, a_protected_byte_is_refused, a_read_wraps_at_the_end_of_memory,
    each_read_of_an_lm75_begins_at_the_high_byte, the_high_byte_of_a_place_comes_first,
    the_low_byte_of_a_limit_keeps_its_highest_bit,
};
