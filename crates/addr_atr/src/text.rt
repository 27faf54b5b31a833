//! The text of a map of translators: a TOML document, read by its table of keys.
ghost use Rattle.std.specs.Prelude.{◌≡◌, ◌≤◌, Ok, IfOk, IfErr, map, length, codes};
ghost use Rattle.std.specs.Option.{option_map_or};
ghost use Rattle.toml.specs.Data.{get_member};
ghost use Rattle.toml.specs.View.{view, table_view};
ghost use Rattle.i2c_boardtext.specs.BoardText.{seen};
ghost use Rattle.i2c_boardtext.specs.Rows.{AreTables, rows_of};
ghost use Rattle.i2c_boardtext.specs.Rules.{key_rule, table_fault};
ghost use Rattle.i2c_boardtext.specs.Values.{elements_in};
ghost use Rattle.addr_atr.specs.Lowering.{IsMap};
ghost use Rattle.addr_atr.specs.MapTexts.{Gives, GivesRead, DocumentFails, document_of, tested_rows, as_map, map_in, translator_rules, placed_fault, placed_in, rows_fault, address_in, address_at, pair_value, index_in, translator_value};

use crate::check::map_fault;
use crate::fault::MapFault;
use crate::lower::lower;
use crate::map::{AtrMap, Translator};
use i2c_base::{Addr, AliasPair, MuxId};
use i2c_board::{Accepted, Board, accept};
use i2c_boardtext::TableFault;
use i2c_boardtext::find::{find, items};
use i2c_boardtext::rows::{row, rows};
use i2c_boardtext::rule::{Rule, Test, needs, table_fault};
use std::alloc::{AllocError, Global};
use toml::{Table, Value};

fn lowest() -> Addr
    ensures { result ≡ 0x08 }
{
    match Addr::new(Addr::FIRST) {
        Some(addr) => addr,
        None => unreachable!(),
    }
}

// An address; any other value is the lowest.
fn address_in(value: &Value) -> Addr
    ensures { result ≡ address_in (view value.now) }
{
    match value.as_integer() {
        Some(integer) if 0x08 <= integer && integer <= 0x77 => {
            Addr::new(integer as u8).unwrap_or_default()
        }
        _ => lowest(),
    }
}

fn address_at(values: &[Value], place: usize) -> Addr
    ensures { result ≡ address_at (map view values.now) place }
{
    match values.get(place) {
        Some(value) => address_in(value),
        None => lowest(),
    }
}

fn pair(value: &Value) -> AliasPair
    ensures { result ≡ pair_value (view value.now) }
{
    let values = items(value).unwrap_or(&[]);
    AliasPair {
        addr: address_at(values, 0),
        alias: address_at(values, 1),
    }
}

fn pairs_of(alloc: Global, values: &[Value]) -> Result<Vec<AliasPair>, AllocError>
    ensures { IfOk result (λ ps. ps.items ≡ map pair_value (map view values.now)) }
{
    let mut pairs = Vec::with_capacity(alloc, values.len())?;
    for value in values {
        pairs.push(pair(value))?;
    }
    Ok(pairs)
}

// The number of a mux; any other value is 0.
fn index_in(value: &Value) -> MuxId
    ensures { result ≡ index_in (view value.now) }
{
    match value.as_integer() {
        Some(integer) if 0 <= integer && integer <= 0xffff => MuxId(integer as u16),
        _ => MuxId(0),
    }
}

fn mux(table: &Table) -> MuxId
    ensures { result ≡ option_map_or index_in (get_member (codes "mux") (table_view table.now)) 0 }
{
    match find(table, "mux") {
        Some(value) => index_in(value),
        None => MuxId(0),
    }
}

fn pairs(alloc: Global, table: &Table) -> Result<Vec<AliasPair>, AllocError>
    ensures { IfOk result (λ ps. ps.items ≡ map pair_value (elements_in (get_member (codes "pairs") (table_view table.now)))) }
{
    match find(table, "pairs") {
        Some(value) => pairs_of(alloc, items(value).unwrap_or(&[])),
        None => Ok(Vec::new(alloc)),
    }
}

// What the table of a translator says.
fn translator_of(alloc: Global, table: &Table) -> Result<Translator, AllocError>
    ensures { IfOk result (λ t. t ≡ translator_value (table_view table.now)) }
{
    let pairs = pairs(alloc, table)?;
    Ok(Translator {
        mux: mux(table),
        pairs,
    })
}

fn translators(alloc: Global, rows: &[Value]) -> Result<Vec<Translator>, AllocError>
    requires tables { AreTables rows.now }
    ensures { IfOk result (λ ts. ts.items ≡ map translator_value (rows_of rows.now)) }
{
    let mut translators = Vec::with_capacity(alloc, rows.len())?;
    for value in rows {
        translators.push_reserved(translator_of(alloc, row(value))?);
    }
    Ok(translators)
}

// The keys of a translator's table.
fn translator_rules(muxes: u16) -> [Rule; 2]
    ensures { map key_rule result ≡ translator_rules muxes }
{
    let mux = if muxes == 0 {
        Test::Range(1, 0)
    } else {
        Test::Range(0, u32::from(muxes) - 1)
    };
    [needs("mux", mux), needs("pairs", Test::Pairs(0x08, 0x77))]
}

fn placed_fault(index: u16, fault: TableFault) -> MapFault
    ensures { result ≡ placed_fault index fault }
{
    match fault {
        TableFault::Key => MapFault::Key(index),
        TableFault::Value => MapFault::Value(index),
    }
}

fn row_fault(table: &Table, muxes: u16, index: u16) -> Option<MapFault>
    ensures { result ≡ placed_in index (table_fault (translator_rules muxes) (table_view table.now)) }
{
    match table_fault(table, &translator_rules(muxes)) {
        Some(fault) => Some(placed_fault(index, fault)),
        None => None,
    }
}

// The first table with a key or a value at fault.
#[tactic(auto, using(crate::proofs::MapTextLemmas::rows_more))]
fn rows_fault(rows: &[Value], muxes: u16) -> Option<MapFault>
    requires tables { AreTables rows.now }
    requires few { length rows.now ≤ 32 }
    ensures { result ≡ rows_fault (translator_rules muxes) 0 (rows_of rows.now) }
{
    for index in 0..rows.len() {
        if let Some(fault) = row_fault(row(&rows[index]), muxes, index as u16) {
            return Some(fault);
        }
    }
    None
}

// The tables of the translators, with nothing wrong with their keys and values.
fn tested_rows(table: &Table, muxes: u16) -> Result<&[Value], MapFault>
    ensures value { seen (λ rs. rows_of rs.now) result ≡ tested_rows muxes (table_view table.now) }
    ensures tables { IfOk result (λ rs. AreTables rs.now) }
    ensures few { IfOk result (λ rs. length rs.now ≤ 32) }
{
    if let Some(fault) = table_fault(table, &[needs("atr", Test::Tables)]) {
        return Err(placed_fault(0, fault));
    }
    let rows = rows(table, "atr");
    if rows.is_empty() || rows.len() > 32 {
        return Err(MapFault::Value(0));
    }
    match rows_fault(rows, muxes) {
        Some(fault) => Err(fault),
        None => Ok(rows),
    }
}

// The TOML document that a text spells.
fn document_of(alloc: Global, text: &[u8]) -> Result<Table, MapFault>
    ensures ok { IfOk result (λ t. document_of text.now ≡ Ok (table_view t)) }
    ensures fault { IfErr result (DocumentFails text.now) }
{
    match toml::table_from_slice(alloc, text) {
        Ok(table) => Ok(table),
        Err(error) => {
            if error.is_memory() {
                Err(MapFault::Memory)
            } else {
                Err(MapFault::NotToml)
            }
        }
    }
}

// The translators of these tables, as a map of the board.
fn map_of(alloc: Global, board: &Board, rows: &[Value]) -> Result<Vec<Translator>, MapFault>
    requires tables { AreTables rows.now }
    requires few { length rows.now ≤ 32 }
    ensures told { GivesRead (λ ts. ts.items) result (as_map board.now (map translator_value (rows_of rows.now))) }
    ensures map { IfOk result (λ ts. IsMap board.now ts.items) }
{
    let translators = translators(alloc, rows)?;
    match map_fault(board, &translators) {
        Some(fault) => Err(fault),
        None => Ok(translators),
    }
}

// The translators of a document, as a map of the board.
fn map_in(alloc: Global, board: &Board, table: &Table) -> Result<Vec<Translator>, MapFault>
    ensures told { GivesRead (λ ts. ts.items) result (map_in board.now (table_view table.now)) }
    ensures map { IfOk result (λ ts. IsMap board.now ts.items) }
{
    match tested_rows(table, board.muxes().len() as u16) {
        Ok(rows) => map_of(alloc, board, rows),
        Err(fault) => Err(fault),
    }
}

/// The map that a text spells over a board, or its first fault: what the text is, its keys and values, then each translator beside those
/// before it, then the first rule that the lowered board breaks.
pub fn read_map(alloc: Global, board: &Accepted, text: &[u8]) -> Result<AtrMap, MapFault>
    ensures exact { Gives board.now text.now result }
{
    let table = match document_of(alloc, text) {
        Ok(table) => table,
        Err(fault) => return Err(fault),
    };
    let translators = match map_in(alloc, board.board(), &table) {
        Ok(translators) => translators,
        Err(fault) => return Err(fault),
    };
    let low = lower(alloc, board, &translators)?;
    match accept(low) {
        Ok(lowered) => Ok(AtrMap::new(board, lowered, translators)),
        Err(broken) => Err(MapFault::Rule(broken)),
    }
}
