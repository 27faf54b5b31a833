//! The value at a key, and values as arrays and as numbers.
ghost use Rattle.std.specs.Prelude.{◌≡◌, ◌<◌, ◌^◌, map, option_map};
ghost use Rattle.toml.specs.Data.{get_member};
ghost use Rattle.toml.specs.View.{view, table_view};
ghost use Rattle.i2c_boardtext.specs.Items.{items_in, number};

use toml::{Table, Value};

/// The value at a key.
pub fn find<'a>(table: &'a Table, key: &str) -> Option<&'a Value>
    ensures { option_map (λ v. view v.now) result ≡ get_member key.now (table_view table.now) }
{
    table.get(key)
}

/// The values of an array.
pub fn items(value: &Value) -> Option<&[Value]>
    ensures { option_map (λ s. map view s.now) result ≡ items_in (view value.now) }
{
    match value.as_array() {
        Some(values) => Some(values.as_slice()),
        None => None,
    }
}

/// An integer that isn't negative; any other value is 0.
pub fn number(value: &Value) -> u64
    ensures value { result ≡ number (view value.now) }
    ensures high { result < 2 ^ 63 }
{
    match value.as_integer() {
        Some(integer) if integer >= 0 => integer as u64,
        _ => 0,
    }
}
