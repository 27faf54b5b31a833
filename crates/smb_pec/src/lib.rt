//! The packet error code of SMBus.
//!
//! Its public contract: `pec` is the remainder of the long division, bit by bit, of the bytes and eight zero bits
//! by x^8 + x^2 + x + 1, and `pec_with` runs along with them byte by byte. Definitions: `specs/LongDivision.antt`. Standard: SMBus 3.2, section 6.4.
#![tactic(auto)]

mod error_code;
mod examples;

pub use error_code::{pec, pec_with, the_code_runs_along};
pub use examples::{another_byte_gives_another_code, the_nine_digits_give_0xf4};
