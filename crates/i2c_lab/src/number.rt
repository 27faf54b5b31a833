//! A number that bytes spell in decimal.
ghost use Rattle.std.specs.Prelude.{◌≡◌};
ghost use Rattle.i2c_top.specs.Numbers.{number_named};

use i2c_top::number_named;
use std::str::from_utf8;

/// The number that these bytes spell in decimal digits, of which several don't begin with 0, where it is at most `most`.
pub fn number_in(digits: &[u8], most: u32) -> Option<u32>
    ensures { result ≡ number_named 0 most digits.now }
{
    match from_utf8(digits) {
        Ok(text) => Some(number_named(text, 0, u64::from(most))? as u32),
        Err(_) => None,
    }
}
