//! The numbers of boards, muxes and devices: key, range and default.
ghost use Rattle.std.specs.Prelude.{◌≡◌};
ghost use Rattle.toml.specs.View.{table_view};
ghost use Rattle.i2c_spec.specs.Numbers.{IsFor};
ghost use Rattle.i2c_boardtext.specs.Numbers.{number_key, number_at, may_say, has_to_say};
ghost use Rattle.i2c_boardtext.specs.Rules.{key_rule};

use crate::find::{find, number};
use crate::fits::is_in;
use crate::rule::{Rule, Test, may_have, needs};
use i2c_base::{Addr, MOST_CHANNELS, POLLS};
use toml::Table;

/// A number of a board, mux or device: its key, its range, and its value where the key is missing.
#[derive(Clone, Copy, Drop)]
pub struct NumberKey {
    pub name: &'static str,
    pub low: u32,
    pub high: u32,
    pub default: u32,
}

/// The key of a number from `low` to `high`, and what it is where the key is missing.
macro_rules! number_key {
    ($name:literal, from $low:expr, to $high:expr, or $default:expr) => {
        NumberKey {
            name: $name,
            low: $low,
            high: $high,
            default: $default,
        }
    };
}

pub(crate) use number_key;

/// A board's version.
pub const VERSION: NumberKey = number_key!("version", from 1, to 2, or 1);

/// A target's address.
pub const ADDRESS: NumberKey =
    number_key!("address", from Addr::FIRST as u32, to Addr::LAST as u32, or Addr::FIRST as u32);

/// The channels of a mux that is switched by a line.
pub const CHANNELS: NumberKey = number_key!("channels", from 1, to MOST_CHANNELS as u32, or 1);

/// How often an arbitrator is found with its other controller.
pub const FOREIGN: NumberKey = number_key!("foreign", from 0, to POLLS as u32, or 0);

impl NumberKey {
    /// The rule of a number that may be missing.
    pub fn may_say(self) -> Rule
        ensures { key_rule result ≡ may_say (number_key self) }
    {
        may_have(self.name, Test::Range(self.low, self.high))
    }

    /// The rule of a number that the table has to say.
    pub fn has_to_say(self) -> Rule
        ensures { key_rule result ≡ has_to_say (number_key self) }
    {
        needs(self.name, Test::Range(self.low, self.high))
    }
}

/// The number at its key, where it is in the key's range, or its default.
pub fn number_at(table: &Table, key: NumberKey) -> u32
    requires default { IsFor (number_key key) key.default }
    ensures value { result ≡ number_at (number_key key) (table_view table.now) }
    ensures range { IsFor (number_key key) result }
{
    match find(table, key.name) {
        Some(value) if is_in(key.low, key.high, value) => number(value) as u32,
        _ => key.default,
    }
}
