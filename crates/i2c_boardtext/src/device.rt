//! The tables of devices, each read as its device.
ghost use Rattle.std.specs.Prelude.{◌≡◌, ◌<◌, ◌≤◌, None, IfOk, unwrap_or, All, length, codes};
ghost use Rattle.toml.specs.Data.{get_member};
ghost use Rattle.toml.specs.View.{table_view};
ghost use Rattle.i2c_base.specs.Limits.{MOST_DEVICES};
ghost use Rattle.i2c_spec.specs.Plain.{IsPlainDevice, IsPlainRun};
ghost use Rattle.i2c_boardtext.specs.BoardText.{Gives, kind_in, tested_device, device_of, placed, devices_of};
ghost use Rattle.i2c_boardtext.specs.Keys.{device_rules};
ghost use Rattle.i2c_boardtext.specs.Devices.{device_named, memory_of};
ghost use Rattle.i2c_boardtext.specs.Rows.{IsOn, AreTables, rows_of};
ghost use Rattle.i2c_boardtext.specs.Rules.{table_fault};
ghost use Rattle.i2c_boardtext.specs.Values.{set_value, device_value};
ghost use Rattle.i2c_boardtext.specs.declared.fault.TableName.TheVariants.{Device};

use crate::devices::{DeviceName, device_fault, device_in, kind_value};
use crate::fault::{BoardFault, TableFault, TableName, placed_fault};
use crate::find::find;
use crate::read::{address, bus, flag};
use crate::rows::row;
use crate::runs::runs;
use i2c_base::{DeviceSpec, MemoryRun};
use std::alloc::{AllocError, Global};
use toml::{Table, Value};

fn name_of(table: &Table) -> Result<DeviceName, TableFault>
    ensures { result ≡ kind_in device_named (get_member (codes "kind") (table_view table.now)) }
{
    match find(table, "kind") {
        Some(value) => device_in(value).ok_or(TableFault::Value),
        None => Err(TableFault::Key),
    }
}

fn set_value(
    alloc: Global,
    table: &Table,
    buses: u16,
    name: DeviceName,
) -> Result<Vec<MemoryRun>, AllocError>
    requires keeps { table_fault (device_rules buses name) (table_view table.now) ≡ None }
    ensures value { IfOk result (λ set. set.items ≡ set_value (memory_of name) (table_view table.now)) }
    ensures plain { IfOk result (λ set. All (IsPlainRun (unwrap_or (memory_of name) 0)) set.items) }
{
    match name.memory() {
        Some(size) => runs(alloc, table, size),
        None => Ok(Vec::new(alloc)),
    }
}

// What the table says, where nothing is wrong with it.
fn device_value(
    alloc: Global,
    table: &Table,
    buses: u16,
    name: DeviceName,
) -> Result<DeviceSpec, AllocError>
    requires keeps { table_fault (device_rules buses name) (table_view table.now) ≡ None }
    requires some { 0 < buses }
    ensures value { IfOk result (λ d. d ≡ device_value name (table_view table.now)) }
    ensures plain { IfOk result IsPlainDevice }
    ensures placed { IfOk result (IsOn buses) }
{
    let set = set_value(alloc, table, buses, name)?;
    Ok(DeviceSpec {
        bus: bus(table, buses),
        addr: address(table),
        bound: flag(table, "bound"),
        kind: kind_value(table, name),
        set,
    })
}

// The kind of a device with nothing wrong with its table.
fn tested(table: &Table, buses: u16) -> Result<DeviceName, TableFault>
    requires some { 0 < buses }
    ensures value { result ≡ tested_device buses (table_view table.now) }
    ensures keeps { IfOk result (λ name. table_fault (device_rules buses name) (table_view table.now) ≡ None) }
{
    let name = name_of(table)?;
    match device_fault(table, buses, name) {
        Some(fault) => Err(fault),
        None => Ok(name),
    }
}

// The device of this place in the file, on a board of these buses.
fn device_of(alloc: Global, table: &Table, buses: u16, index: u16) -> Result<DeviceSpec, BoardFault>
    requires some { 0 < buses }
    ensures exact { Gives (λ d. d) result (placed Device index (device_of buses (table_view table.now))) }
    ensures plain { IfOk result IsPlainDevice }
    ensures placed { IfOk result (IsOn buses) }
{
    match tested(table, buses) {
        Ok(name) => Ok(device_value(alloc, table, buses, name)?),
        Err(fault) => Err(placed_fault(TableName::Device, index, fault)),
    }
}

/// The devices, in file order, on a board of these buses.
pub fn devices_of(alloc: Global, buses: u16, rows: &[Value]) -> Result<Vec<DeviceSpec>, BoardFault>
    requires tables { AreTables rows.now }
    requires most { length rows.now ≤ MOST_DEVICES }
    requires some { 0 < buses }
    ensures exact { Gives (λ devices. devices.items) result (devices_of buses (rows_of rows.now)) }
    ensures len { IfOk result (λ devices. length devices.items ≡ length rows.now) }
    ensures plain { IfOk result (λ devices. All IsPlainDevice devices.items) }
    ensures placed { IfOk result (λ devices. All (IsOn buses) devices.items) }
{
    let mut devices = Vec::with_capacity(alloc, rows.len())?;
    for value in rows {
        let index = devices.len() as u16;
        let device = device_of(alloc, row(value), buses, index)?;
        devices.push_reserved(device);
    }
    Ok(devices)
}
