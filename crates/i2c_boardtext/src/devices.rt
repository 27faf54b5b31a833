//! The kinds of device, and the keys that each of them has.
ghost use Rattle.std.specs.Prelude.{◌≡◌, ◌+◌, ◌<◌, ◌≤◌, ◌++◌, length, map};
ghost use Rattle.toml.specs.View.{view, table_view};
ghost use Rattle.i2c_spec.specs.Targets.{FitsKind};
ghost use Rattle.i2c_boardtext.specs.Devices.{device_named, device_row, memory_of, own_rule};
ghost use Rattle.i2c_boardtext.specs.Items.{named_in};
ghost use Rattle.i2c_boardtext.specs.Keys.{device_rules, every_device, set_rules};
ghost use Rattle.i2c_boardtext.specs.Rules.{key_rule, table_fault};

use crate::fault::TableFault;
use crate::keys::{Rules, bus, runs};
use crate::numbers::{ADDRESS, NumberKey, number_at, number_key};
use crate::read::flag;
use crate::rule::{Rule, Test, may_have, needs, table_fault};
use arrayvec::ArrayVec;
use i2c_base::{DeviceKind, Size};
use i2c_spec::eeprom_bytes;
use toml::{Table, Value};

/// The kinds of device, without the numbers that each alone has.
#[derive(Clone, Copy)]
pub enum DeviceName {
    Eeprom(Size),
    Lm75,
    Regs,
    Smbus,
}

/// A key that a kind alone has; the table needn't say it.
#[derive(Clone, Copy, Drop)]
pub enum OwnKey {
    /// A number, or its default.
    Number(NumberKey),
    /// True or false, and false where it is missing.
    Flag(&'static str),
}

/// What each byte of an EEPROM holds.
const FILL: NumberKey = number_key!("fill", from 0, to 255, or 255);

/// How many starts an EEPROM refuses after a write.
const BUSY: NumberKey = number_key!("busy", from 0, to 255, or 0);

/// The bytes of an EEPROM are protected from writes.
const WP: &str = "wp";

/// The temperature register of an lm75.
const RAW: NumberKey = number_key!("raw", from 0, to 65535, or 0);

/// For how many looks a register device holds the clock.
const HOLD: NumberKey = number_key!("hold", from 0, to 200, or 0);

/// How many bytes the data of an SMBus device have.
const WIDTH: NumberKey = number_key!("width", from 0, to 2, or 1);

/// What is wrong with the error code of an SMBus device.
const FLIP: NumberKey = number_key!("flip", from 0, to 255, or 0);

fn device_named(word: &str) -> Option<DeviceName>
    ensures { result ≡ device_named word.now }
{
    match word {
        "24c02" => Some(DeviceName::Eeprom(Size::C02)),
        "24c32" => Some(DeviceName::Eeprom(Size::C32)),
        "24c256" => Some(DeviceName::Eeprom(Size::C256)),
        "lm75" => Some(DeviceName::Lm75),
        "regs" => Some(DeviceName::Regs),
        "smbus" => Some(DeviceName::Smbus),
        _ => None,
    }
}

/// The kind of a device, where the value is a text that names one.
pub fn device_in(value: &Value) -> Option<DeviceName>
    ensures { result ≡ named_in device_named (view value.now) }
{
    device_named(value.as_str()?)
}

impl DeviceName {
    /// The size of the memory that `set` writes, where it has one.
    pub fn memory(self) -> Option<u32>
        ensures { result ≡ memory_of self }
    {
        match self {
            DeviceName::Eeprom(size) => Some(u32::from(eeprom_bytes(size))),
            DeviceName::Lm75 => None,
            DeviceName::Regs => Some(256),
            DeviceName::Smbus => Some(256),
        }
    }
}

impl OwnKey {
    fn rule(self) -> Rule
        ensures { key_rule result ≡ own_rule self }
    {
        match self {
            OwnKey::Number(key) => key.may_say(),
            OwnKey::Flag(name) => may_have(name, Test::Flag),
        }
    }
}

// The keys of every device, which are four, the last whether a driver is bound to it, and its memory's. A kind has three
// of its own at most.
fn shared_rules(buses: u16, memory: Option<u32>) -> Rules
    requires some { 0 < buses }
    ensures rules { map key_rule result.items ≡ every_device buses ++ set_rules memory }
    ensures few { length result.items ≤ 5 }
{
    let mut rules: Rules = ArrayVec::new();
    rules.push(bus(buses));
    rules.push(needs("kind", Test::Kind));
    rules.push(ADDRESS.has_to_say());
    rules.push(may_have("bound", Test::Flag));
    if let Some(size) = memory {
        rules.push(runs(size));
    }
    rules
}

// Puts these keys after the others.
fn push_keys(rules: &mut Rules, keys: &[OwnKey])
    requires room { length rules.old.items + length keys.now ≤ 8 }
    ensures { map key_rule rules.new.items ≡ map key_rule rules.old.items ++ map own_rule keys.now }
{
    for key in keys {
        rules.push(key.rule());
    }
}

// Puts the keys that a kind alone has after those of every device.
fn push_own(rules: &mut Rules, name: DeviceName)
    requires room { length rules.old.items ≤ 5 }
    ensures { map key_rule rules.new.items ≡ map key_rule rules.old.items ++ (device_row name).keys }
{
    match name {
        DeviceName::Eeprom(_) => push_keys(
            rules,
            &[OwnKey::Number(FILL), OwnKey::Number(BUSY), OwnKey::Flag(WP)],
        ),
        DeviceName::Lm75 => push_keys(rules, &[OwnKey::Number(RAW)]),
        DeviceName::Regs => push_keys(rules, &[OwnKey::Number(HOLD)]),
        DeviceName::Smbus => push_keys(rules, &[OwnKey::Number(WIDTH), OwnKey::Number(FLIP)]),
    }
}

/// What is wrong with a device of this kind on a board of these buses.
pub fn device_fault(table: &Table, buses: u16, name: DeviceName) -> Option<TableFault>
    requires some { 0 < buses }
    ensures { result ≡ table_fault (device_rules buses name) (table_view table.now) }
{
    let mut rules = shared_rules(buses, name.memory());
    push_own(&mut rules, name);
    table_fault(table, rules.as_slice())
}

/// The kind with its numbers, as the table says.
pub fn kind_value(table: &Table, name: DeviceName) -> DeviceKind
    ensures value { result ≡ (device_row name).says (table_view table.now) }
    ensures fits { FitsKind result }
{
    match name {
        DeviceName::Eeprom(size) => DeviceKind::Eeprom {
            size,
            fill: number_at(table, FILL) as u8,
            busy: number_at(table, BUSY) as u8,
            wp: flag(table, WP),
        },
        DeviceName::Lm75 => DeviceKind::Lm75 {
            raw: number_at(table, RAW) as u16,
        },
        DeviceName::Regs => DeviceKind::Regs {
            hold: number_at(table, HOLD) as u8,
        },
        DeviceName::Smbus => DeviceKind::Smbus {
            width: number_at(table, WIDTH) as u8,
            flip: number_at(table, FLIP) as u8,
        },
    }
}
