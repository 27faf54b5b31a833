//! Handles on the buses of a board, after i2c-dev: each has its bus, the address and the force that were set, and whether
//! error codes are on.
//!
//! Its public contract: each call of `Handles` answers and leaves what its definition says of what stands under each
//! number that was given out. A number never comes again: where its handle was closed, there is none from then on. A
//! refused call leaves all handles as they were, and being out of memory is told by `open` alone.
//! Definitions: `specs/Handles.antt`; how handles are stored, `specs/Stored.antt`. Standard: Linux i2c-dev (`I2C_SLAVE`,
//! `I2C_SLAVE_FORCE`, `I2C_PEC`).
#![tactic(auto)]

mod examples;
mod fault;
mod handle;
mod handles;
mod stored;

pub use examples::{
    a_bus_that_is_missing_uses_up_no_number, a_closed_number_is_never_open_again,
    a_handle_answers_as_it_stands, a_number_that_is_not_open_is_told_before_all_else,
    a_refused_address_leaves_the_force, error_codes_are_told_until_they_are_turned_off,
    force_reaches_a_bound_device,
};
pub use fault::HandleFault;
pub use handle::{OpenHandle, Slave};
pub use handles::Handles;
