//! The calls of SMBus: the messages that each asks for, and the value of its reply.
//!
//! Its public contract: `put_messages` and `value_read`, or `messages` and `value_of`, are what the call's row says. Blocks
//! are borrowed, and a value's lies in the reply. Definitions: the rows in `SmbusCalls` of `i2c_spec`, what is read off a
//! row in `specs/Calls.antt`, and what a clause sees of a value in `specs/Value.antt`. Standard: SMBus 3.2, sections 6.4
//! and 6.5.
#![tactic(auto)]

mod call;
mod codes;
mod examples;
mod rows;
mod transfers;
mod values;
mod written;

pub use call::{SmbCall, SmbFail, SmbOp, SmbValue};
pub use examples::{
    a_block_has_its_count_before_it, a_coded_read_asks_for_one_byte_more,
    a_word_goes_low_byte_first, another_code_is_refused, the_code_is_of_the_address_bytes_too,
};
pub use transfers::{messages, put_messages};
pub use values::{value_of, value_read};
