//! The top of a document: its version, and its arrays of roots, muxes and devices.
ghost use Rattle.std.specs.Prelude.{◌≡◌, ◌≤◌, None, IsSome, IfOk, length};
ghost use Rattle.i2c_base.specs.Limits.{limit_of};
ghost use Rattle.toml.specs.View.{table_view};
ghost use Rattle.i2c_boardtext.specs.BoardText.{seen, limit_fault, top_of};
ghost use Rattle.i2c_boardtext.specs.Keys.{top_rules};
ghost use Rattle.i2c_boardtext.specs.Rows.{rows_of, top_view, AreTables, IsWithinLimits};
ghost use Rattle.i2c_boardtext.specs.Rules.{table_fault};
ghost use Rattle.i2c_boardtext.specs.Values.{top_value};

use crate::fault::{BoardFault, TableName, placed_fault};
use crate::keys::top_fault;
use crate::numbers::{VERSION, number_at};
use crate::rows::rows;
use i2c_base::{MOST_DEVICES, MOST_MUXES, MOST_ROOTS};
use toml::{Table, Value};

/// The version and the arrays of a document's top.
#[derive(Drop)]
pub struct Top<'a> {
    pub version: u8,
    pub roots: &'a [Value],
    pub muxes: &'a [Value],
    pub devices: &'a [Value],
}

// The top, where nothing is wrong with its keys and values.
#[tactic(auto, using(i2c_spec::proofs::BlockLemmas::version_tells))]
fn top_value(table: &Table) -> Top<'_>
    requires keeps { table_fault top_rules (table_view table.now) ≡ None }
    ensures value { top_view result ≡ top_value (table_view table.now) }
    ensures version { IsSome (limit_of result.version) }
    ensures roots { AreTables result.roots.now }
    ensures muxes { AreTables result.muxes.now }
    ensures devices { AreTables result.devices.now }
{
    Top {
        version: number_at(table, VERSION) as u8,
        roots: rows(table, "root"),
        muxes: rows(table, "mux"),
        devices: rows(table, "device"),
    }
}

// Too few or too many of these tables.
fn limit_fault(roots: usize, muxes: usize, devices: usize) -> Option<BoardFault>
    ensures value { result ≡ limit_fault roots muxes devices }
{
    if !(1 <= roots && roots <= MOST_ROOTS) {
        Some(BoardFault::Limit {
            which: TableName::Root,
            count: roots as u64,
        })
    } else if muxes > MOST_MUXES {
        Some(BoardFault::Limit {
            which: TableName::Mux,
            count: muxes as u64,
        })
    } else if devices > MOST_DEVICES {
        Some(BoardFault::Limit {
            which: TableName::Device,
            count: devices as u64,
        })
    } else {
        None
    }
}

/// The top of a document, with arrays within the limits of a board.
pub fn top_of(table: &Table) -> Result<Top<'_>, BoardFault>
    ensures value { seen top_view result ≡ top_of (table_view table.now) }
    ensures within { IfOk result IsWithinLimits }
{
    if let Some(fault) = top_fault(table) {
        return Err(placed_fault(TableName::Top, 0, fault));
    }
    let top = top_value(table);
    match limit_fault(top.roots.len(), top.muxes.len(), top.devices.len()) {
        Some(fault) => Err(fault),
        None => Ok(top),
    }
}
