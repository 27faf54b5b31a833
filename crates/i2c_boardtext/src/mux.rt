//! The tables of muxes, each read as its mux.
ghost use Rattle.std.specs.Prelude.{◌≡◌, ◌<◌, ◌≤◌, None, IfOk, IfSome, All, length, reverse, codes};
ghost use Rattle.toml.specs.Data.{get_member};
ghost use Rattle.toml.specs.View.{table_view};
ghost use Rattle.i2c_base.specs.Addr.{IsTargetAddress};
ghost use Rattle.i2c_base.specs.Limits.{MOST_BUSES, MOST_MUXES, MOST_ROOTS};
ghost use Rattle.i2c_spec.specs.Plain.{FitsChannels, FitsChip, FitsForeign, IsPlainMux, IsPlanted};
ghost use Rattle.i2c_boardtext.specs.BoardText.{Gives, kind_in, placed, mux_of, muxes_of};
ghost use Rattle.i2c_boardtext.specs.Keys.{mux_rules};
ghost use Rattle.i2c_boardtext.specs.Names.{mux_named};
ghost use Rattle.i2c_boardtext.specs.Rows.{IsTable, AreTables, row_of, rows_of};
ghost use Rattle.i2c_boardtext.specs.Rules.{table_fault};
ghost use Rattle.i2c_boardtext.specs.declared.fault.TableName.TheVariants.{Mux};
ghost use Rattle.i2c_spec.specs.Tree.{buses_of};
ghost use Rattle.i2c_boardtext.specs.Values.{mux_value, channels_value, chip_value, absent_value, foreign_value};

use crate::fault::{BoardFault, TableFault, TableName, placed_fault};
use crate::find::find;
use crate::keys::mux_fault;
use crate::names::mux_in;
use crate::numbers::{CHANNELS, FOREIGN, number_at};
use crate::read::{address, bus, flag, idle, lock};
use crate::rows::row;
use i2c_base::{Addr, MuxKind, MuxSpec};
use std::alloc::Global;
use toml::{Table, Value};

fn kind_of(table: &Table) -> Result<MuxKind, TableFault>
    ensures { result ≡ kind_in mux_named (get_member (codes "kind") (table_view table.now)) }
{
    match find(table, "kind") {
        Some(value) => mux_in(value).ok_or(TableFault::Value),
        None => Err(TableFault::Key),
    }
}

fn channels(table: &Table, kind: MuxKind) -> u8
    ensures value { result ≡ channels_value kind (table_view table.now) }
    ensures fits { FitsChannels kind result }
{
    match kind.facts().channels {
        Some(channels) => channels,
        None => number_at(table, CHANNELS) as u8,
    }
}

fn chip(table: &Table, kind: MuxKind) -> Option<Addr>
    ensures value { result ≡ chip_value kind (table_view table.now) }
    ensures address { IfSome result IsTargetAddress }
{
    if kind.facts().by_line {
        None
    } else {
        Some(address(table))
    }
}

fn absent(table: &Table, kind: MuxKind) -> bool
    ensures value { result ≡ absent_value kind (table_view table.now) }
{
    !kind.facts().by_line && flag(table, "absent")
}

fn foreign(table: &Table, kind: MuxKind) -> u8
    ensures value { result ≡ foreign_value kind (table_view table.now) }
    ensures fits { FitsForeign kind result }
{
    if kind.facts().asks {
        number_at(table, FOREIGN) as u8
    } else {
        0
    }
}

// What the table says, where nothing is wrong with it.
#[tactic(auto, using(crate::proofs::KeepLemmas::mux_bus))]
fn mux_value(table: &Table, buses: u16, kind: MuxKind) -> MuxSpec
    requires keeps { table_fault (mux_rules buses kind) (table_view table.now) ≡ None }
    requires some { 0 < buses }
    ensures value { result ≡ mux_value kind (table_view table.now) }
    ensures plain { IsPlainMux result }
    ensures placed { result.bus < buses }
{
    MuxSpec {
        bus: bus(table, buses),
        kind,
        addr: chip(table, kind),
        channels: channels(table, kind),
        lock: lock(table),
        absent: absent(table, kind),
        foreign: foreign(table, kind),
        idle: idle(table),
    }
}

// A mux, with these buses before its channels.
fn mux_of(table: &Table, buses: u16) -> Result<MuxSpec, TableFault>
    requires some { 0 < buses }
    ensures value { result ≡ mux_of buses (table_view table.now) }
    ensures plain { IfOk result IsPlainMux }
    ensures placed { IfOk result (λ m. m.bus < buses) }
{
    let kind = kind_of(table)?;
    match mux_fault(table, buses, kind) {
        Some(fault) => Err(fault),
        None => Ok(mux_value(table, buses, kind)),
    }
}

fn mux_at(value: &Value, index: u16, buses: u16) -> Result<MuxSpec, BoardFault>
    requires table { IsTable value.now }
    requires some { 0 < buses }
    ensures value { result ≡ placed Mux index (mux_of buses (row_of value.now)) }
    ensures plain { IfOk result IsPlainMux }
    ensures placed { IfOk result (λ m. m.bus < buses) }
{
    match mux_of(row(value), buses) {
        Ok(mux) => Ok(mux),
        Err(fault) => Err(placed_fault(TableName::Mux, index, fault)),
    }
}

/// The muxes, in file order: each stands on a bus before its own channels.
pub fn muxes_of(alloc: Global, roots: u16, rows: &[Value]) -> Result<Vec<MuxSpec>, BoardFault>
    requires tables { AreTables rows.now }
    requires most { length rows.now ≤ MOST_MUXES }
    requires some { 0 < roots }
    requires few { roots ≤ MOST_ROOTS }
    ensures exact { Gives (λ muxes. muxes.items) result (muxes_of roots (rows_of rows.now)) }
    ensures len { IfOk result (λ muxes. length muxes.items ≡ length rows.now) }
    ensures plain { IfOk result (λ muxes. All IsPlainMux muxes.items) }
    ensures planted { IfOk result (λ muxes. IsPlanted roots (reverse muxes.items)) }
    ensures few { IfOk result (λ muxes. buses_of roots muxes.items ≤ MOST_BUSES) }
{
    let mut muxes = Vec::with_capacity(alloc, rows.len())?;
    let mut buses = roots;
    for value in rows {
        let index = muxes.len() as u16;
        let mux = mux_at(value, index, buses)?;
        buses += u16::from(mux.channels);
        // The checker finds the type of the address only where it is named.
        let _chip: Option<Addr> = mux.addr;
        muxes.push_reserved(mux);
    }
    Ok(muxes)
}
