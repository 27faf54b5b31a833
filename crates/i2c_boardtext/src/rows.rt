//! The tables of an array.
ghost use Rattle.std.specs.Prelude.{◌≡◌, ◌≤◌, true, map, length, is_some, IfOk, codes};
ghost use Rattle.std.specs.List.{list_all};
ghost use Rattle.toml.specs.Data.{as_table, get_member};
ghost use Rattle.toml.specs.View.{view, table_view};
ghost use Rattle.i2c_boardtext.specs.Items.{elements};
ghost use Rattle.i2c_boardtext.specs.Rules.{fits_if_there};
ghost use Rattle.i2c_boardtext.specs.Rows.{AreTables, IsTable, row_of};
ghost use Rattle.i2c_boardtext.specs.Values.{elements_in};
ghost use Rattle.i2c_boardtext.specs.declared.rule.Test.TheVariants.{Tables};

use crate::find::{find, items};
use toml::{Table, Value};

fn values_of(value: &Value) -> &[Value]
    ensures { map view result.now ≡ elements (view value.now) }
{
    match items(value) {
        Some(values) => values,
        None => &[],
    }
}

/// The tables of the array at a key, none where it is missing.
pub fn rows<'a>(table: &'a Table, key: &str) -> &'a [Value]
    requires fits { fits_if_there Tables (get_member key.now (table_view table.now)) ≡ true }
    ensures value { map view result.now ≡ elements_in (get_member key.now (table_view table.now)) }
    ensures tables { AreTables result.now }
{
    match find(table, key) {
        Some(value) => values_of(value),
        None => &[],
    }
}

/// The table that a value is.
pub fn row(value: &Value) -> &Table
    requires table { IsTable value.now }
    ensures { table_view result.now ≡ row_of value.now }
{
    match value.as_table() {
        Some(table) => table,
        None => unreachable!(),
    }
}
