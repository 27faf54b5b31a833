//! The tables of roots, each read as its root.
ghost use Rattle.std.specs.Prelude.{◌≡◌, ◌≤◌, IfOk, length};
ghost use Rattle.toml.specs.View.{table_view};
ghost use Rattle.i2c_base.specs.Limits.{MOST_ROOTS};
ghost use Rattle.i2c_boardtext.specs.BoardText.{Gives, placed, root_in_table, roots_of};
ghost use Rattle.i2c_boardtext.specs.Rows.{IsTable, AreTables, row_of, rows_of};
ghost use Rattle.i2c_boardtext.specs.declared.fault.TableName.TheVariants.{Root};

use crate::fault::{BoardFault, TableFault, TableName, placed_fault};
use crate::keys::root_fault;
use crate::read::offers;
use crate::rows::row;
use i2c_base::RootSpec;
use std::alloc::Global;
use toml::{Table, Value};

fn root_of(table: &Table) -> Result<RootSpec, TableFault>
    ensures { result ≡ root_in_table (table_view table.now) }
{
    match root_fault(table) {
        Some(fault) => Err(fault),
        None => Ok(RootSpec {
            smbus_only: offers(table),
        }),
    }
}

fn root_at(value: &Value, index: u16) -> Result<RootSpec, BoardFault>
    requires table { IsTable value.now }
    ensures { result ≡ placed Root index (root_in_table (row_of value.now)) }
{
    match root_of(row(value)) {
        Ok(root) => Ok(root),
        Err(fault) => Err(placed_fault(TableName::Root, index, fault)),
    }
}

/// The roots, in file order.
pub fn roots_of(alloc: Global, rows: &[Value]) -> Result<Vec<RootSpec>, BoardFault>
    requires tables { AreTables rows.now }
    requires most { length rows.now ≤ MOST_ROOTS }
    ensures exact { Gives (λ roots. roots.items) result (roots_of (rows_of rows.now)) }
    ensures len { IfOk result (λ roots. length roots.items ≡ length rows.now) }
{
    let mut roots = Vec::with_capacity(alloc, rows.len())?;
    for value in rows {
        let index = roots.len() as u16;
        roots.push_reserved(root_at(value, index)?);
    }
    Ok(roots)
}
