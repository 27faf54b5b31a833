//! From the text of a board file to its board, or to its first fault.
ghost use Rattle.std.specs.Prelude.{◌≡◌, ◌≤◌};
ghost use Rattle.toml.specs.View.{table_view};
ghost use Rattle.i2c_base.specs.Limits.{MOST_BUSES};
ghost use Rattle.i2c_boardtext.specs.BoardText.{Gives, document_of, board_by_parts, board_of};
ghost use Rattle.i2c_spec.specs.Tree.{buses_of};
ghost use Rattle.i2c_boardtext.specs.Rows.{IsWithinLimits, top_view};

use crate::device::devices_of;
use crate::fault::BoardFault;
use crate::mux::muxes_of;
use crate::root::roots_of;
use crate::top::{Top, top_of};
use i2c_base::MuxSpec;
use i2c_board::Board;
use std::alloc::Global;
use toml::Table;

// The TOML document that a text spells.
fn document_of(alloc: Global, text: &[u8]) -> Result<Table, BoardFault>
    ensures { Gives table_view result (document_of text.now) }
{
    match toml::table_from_slice(alloc, text) {
        Ok(table) => Ok(table),
        Err(error) => {
            if error.is_memory() {
                Err(BoardFault::Memory)
            } else {
                Err(BoardFault::NotToml)
            }
        }
    }
}

// How many buses there are with these muxes.
fn count_buses(roots: u16, muxes: &[MuxSpec]) -> u16
    requires few { buses_of roots muxes.now ≤ MOST_BUSES }
    ensures { result ≡ buses_of roots muxes.now }
{
    let mut buses = roots;
    for mux in muxes {
        buses += u16::from(mux.channels);
    }
    buses
}

// The roots, then the muxes, then the devices.
fn parts_of(alloc: Global, top: &Top) -> Result<Board, BoardFault>
    requires within { IsWithinLimits top.now }
    ensures { Gives (λ b. b) result (board_by_parts (top_view top.now)) }
{
    let roots = roots_of(alloc, top.roots)?;
    let root_count = roots.len() as u16;
    let muxes = muxes_of(alloc, root_count, top.muxes)?;
    let buses = count_buses(root_count, &muxes);
    let devices = devices_of(alloc, buses, top.devices)?;
    Ok(Board::new(alloc, top.version, roots, muxes, devices)?)
}

/// The board that a text spells, or the first fault in the order of refusals.
#[tactic(auto, unfolding(crate::specs::BoardText::board_of))]
pub fn read_board(alloc: Global, text: &[u8]) -> Result<Board, BoardFault>
    ensures exact { Gives (λ b. b) result (board_of text.now) }
{
    let table = document_of(alloc, text)?;
    let top = top_of(&table)?;
    parts_of(alloc, &top)
}
