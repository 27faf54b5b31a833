//! The lines that refusals write.
ghost use Rattle.std.specs.Prelude.{◌≡◌, ◌++◌, OnOk, IfOk};
ghost use Rattle.std.specs.Fmt.{decimal};
ghost use Rattle.i2c_top.specs.Status.{table_text, placed_text, limit_text, fault_text, item_text, broken_text, board_text, verdict_text, row_text, map_text, refusal_text};

use crate::{BoardRefusal, Status};
use addr_atr::MapFault;
use bus_journal::{push_bytes, push_number};
use i2c_base::{Item, NoMemory, RuleBroken};
use i2c_boardtext::{BoardFault, TableName};
use journal_check::CheckFault;
use std::alloc::Global;

// A number between two texts.
fn push_around(out: &mut Vec<u8>, before: &[u8], number: u64, after: &[u8]) -> Result<(), NoMemory>
    ensures { OnOk result (out.new.items ≡ out.old.items ++ (before.now ++ (decimal number ++ after.now))) }
{
    push_bytes(out, before)?;
    push_number(out, number)?;
    push_bytes(out, after)
}

// A text between two others.
fn push_between(out: &mut Vec<u8>, before: &[u8], text: &[u8], after: &[u8]) -> Result<(), NoMemory>
    ensures { OnOk result (out.new.items ≡ out.old.items ++ (before.now ++ (text.now ++ after.now))) }
{
    push_bytes(out, before)?;
    push_bytes(out, text)?;
    push_bytes(out, after)
}

fn push_table(out: &mut Vec<u8>, name: TableName) -> Result<(), NoMemory>
    ensures { OnOk result (out.new.items ≡ out.old.items ++ table_text name) }
{
    match name {
        TableName::Top => push_bytes(out, b"top"),
        TableName::Root => push_bytes(out, b"root"),
        TableName::Mux => push_bytes(out, b"mux"),
        TableName::Device => push_bytes(out, b"device"),
    }
}

// What is at fault in a table, and where the table stands.
fn push_placed(out: &mut Vec<u8>, what: &[u8], name: TableName, index: u16) -> Result<(), NoMemory>
    ensures { OnOk result (out.new.items ≡ out.old.items ++ placed_text what.now name index) }
{
    push_bytes(out, what)?;
    push_table(out, name)?;
    push_around(out, b" ", u64::from(index), b"\n")
}

fn push_limit(out: &mut Vec<u8>, which: TableName, count: u64) -> Result<(), NoMemory>
    ensures { OnOk result (out.new.items ≡ out.old.items ++ limit_text which count) }
{
    push_number(out, count)?;
    push_bytes(out, b" ")?;
    push_table(out, which)?;
    push_bytes(out, b"\n")
}

fn push_fault(out: &mut Vec<u8>, fault: BoardFault) -> Result<(), NoMemory>
    ensures { OnOk result (out.new.items ≡ out.old.items ++ fault_text fault) }
{
    match fault {
        BoardFault::NotToml => push_bytes(out, b"not TOML\n"),
        BoardFault::Key { table, index } => push_placed(out, b"key in ", table, index),
        BoardFault::Value { table, index } => push_placed(out, b"value in ", table, index),
        BoardFault::Limit { which, count } => push_limit(out, which, count),
        BoardFault::Memory => Ok(()),
    }
}

fn push_item(out: &mut Vec<u8>, item: Item) -> Result<(), NoMemory>
    ensures { OnOk result (out.new.items ≡ out.old.items ++ item_text item) }
{
    match item {
        Item::Mux(mux) => push_around(out, b"mux ", u64::from(mux.0), b""),
        Item::Device(device) => push_around(out, b"device ", u64::from(device.0), b""),
    }
}

// The broken rule, and the two items at fault.
fn push_broken(out: &mut Vec<u8>, broken: RuleBroken) -> Result<(), NoMemory>
    ensures { OnOk result (out.new.items ≡ out.old.items ++ broken_text broken) }
{
    push_around(out, b"rule TR", u64::from(broken.rule), b" ")?;
    push_item(out, broken.first)?;
    push_bytes(out, b" ")?;
    push_item(out, broken.second)?;
    push_bytes(out, b"\n")
}

fn push_board(out: &mut Vec<u8>, why: BoardRefusal) -> Result<(), NoMemory>
    ensures { OnOk result (out.new.items ≡ out.old.items ++ board_text why) }
{
    match why {
        BoardRefusal::Fault(fault) => push_fault(out, fault),
        BoardRefusal::Rule(broken) => push_broken(out, broken),
    }
}

// What is wrong with a journal's file, and where.
fn push_verdict(out: &mut Vec<u8>, fault: CheckFault) -> Result<(), NoMemory>
    ensures { OnOk result (out.new.items ≡ out.old.items ++ verdict_text fault) }
{
    match fault {
        CheckFault::Form(line) => push_around(out, b"line ", u64::from(line), b"\n"),
        CheckFault::Entry(entry) => push_around(out, b"entry ", u64::from(entry), b"\n"),
        CheckFault::Open(caller) => push_around(out, b"caller ", u64::from(caller), b"\n"),
        CheckFault::Text(line) => push_around(out, b"text line ", u64::from(line), b"\n"),
        CheckFault::Memory => Ok(()),
    }
}

// What is at fault in the table of a translator, by its number.
fn push_row(out: &mut Vec<u8>, what: &[u8], index: u16) -> Result<(), NoMemory>
    ensures { OnOk result (out.new.items ≡ out.old.items ++ row_text what.now index) }
{
    push_bytes(out, what)?;
    push_around(out, b" in atr ", u64::from(index), b"\n")
}

// What is wrong with a map's text.
fn push_map(out: &mut Vec<u8>, fault: MapFault) -> Result<(), NoMemory>
    ensures { OnOk result (out.new.items ≡ out.old.items ++ map_text fault) }
{
    match fault {
        MapFault::NotToml => push_bytes(out, b"not TOML\n"),
        MapFault::Key(index) => push_row(out, b"key", index),
        MapFault::Value(index) => push_row(out, b"value", index),
        MapFault::Mux(index) => push_row(out, b"mux", index),
        MapFault::Pairs(index) => push_row(out, b"pairs", index),
        MapFault::Rule(broken) => push_broken(out, broken),
        MapFault::Memory => Ok(()),
    }
}

// The line of a refusal; nothing for what is none.
fn push_refusal(out: &mut Vec<u8>, status: Status, name: &[u8]) -> Result<(), NoMemory>
    ensures { OnOk result (out.new.items ≡ out.old.items ++ refusal_text status name.now) }
{
    match status {
        Status::Ok | Status::Usage | Status::Write | Status::Memory => Ok(()),
        Status::Board(why) => {
            push_bytes(out, b"board: ")?;
            push_board(out, why)
        }
        Status::Script { caller, line, word } => {
            push_around(out, b"script ", u64::from(caller), b" line ")?;
            push_around(out, b"", u64::from(line), b" word ")?;
            push_around(out, b"", u64::from(word), b"\n")
        }
        Status::Cost(cost) => push_around(out, b"cost ", cost, b" is above 1000000\n"),
        Status::Read(_) => push_between(out, b"cannot read ", name, b"\n"),
        Status::Rig => push_bytes(out, b"cannot plug the rig\n"),
        Status::Schedule(word) => { push_around(out, b"schedule word ", u64::from(word), b"\n") }
        Status::Verify(fault) => {
            push_bytes(out, b"not verified: ")?;
            push_verdict(out, fault)
        }
        Status::Map(fault) => {
            push_bytes(out, b"map: ")?;
            push_map(out, fault)
        }
        Status::NoRoot(bus) => push_around(out, b"no root bus ", u64::from(bus), b"\n"),
        Status::Faults(word) => push_around(out, b"fault word ", u64::from(word), b"\n"),
        Status::Input => push_bytes(out, b"cannot read the input\n"),
    }
}

/// The line that a refusal writes, with its end: `name` is the name of the file that was not read. Nothing for a
/// status that writes no line.
pub fn refusal_line(alloc: Global, status: &Status, name: &[u8]) -> Result<Vec<u8>, NoMemory>
    ensures { IfOk result (λ text. text.items ≡ refusal_text status.now name.now) }
{
    let mut out = Vec::new(alloc);
    push_refusal(&mut out, *status, name)?;
    Ok(out)
}
