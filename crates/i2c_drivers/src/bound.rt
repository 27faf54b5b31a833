//! Which devices a driver is bound to.

ghost use Rattle.std.specs.Prelude.{◌≡◌, ◌≤◌, length, IfOk};
ghost use Rattle.i2c_base.specs.Limits.{MOST_DEVICES};
ghost use Rattle.i2c_drivers.specs.Bound.{eeprom_at, is_bound_at, is_eeprom, is_sensor, sensor_at, sensors_of, size_of_kind};

use i2c_base::{Addr, DeviceKind, DeviceSpec, NoMemory, Size};
use i2c_board::Board;
use std::alloc::Global;

/// A temperature sensor: where it stands.
#[derive(Clone, Copy)]
pub struct Sensor {
    pub bus: u16,
    pub addr: Addr,
}

// A driver is bound to the device, which stands at this address on this very bus.
fn is_bound_at(device: &DeviceSpec, bus: u16, addr: Addr) -> bool
    ensures { result ≡ is_bound_at bus addr device.now }
{
    device.bound && device.bus.0 == bus && device.addr == addr
}

// The size of an EEPROM.
fn size_of_kind(kind: DeviceKind) -> Option<Size>
    ensures { result ≡ size_of_kind kind }
{
    match kind {
        DeviceKind::Eeprom { size, .. } => Some(size),
        _ => None,
    }
}

// It is an EEPROM.
fn is_eeprom(kind: DeviceKind) -> bool
    ensures { result ≡ is_eeprom kind }
{
    matches!(kind, DeviceKind::Eeprom { .. })
}

// It is a temperature sensor.
fn is_sensor(kind: DeviceKind) -> bool
    ensures { result ≡ is_sensor kind }
{
    matches!(kind, DeviceKind::Lm75 { .. })
}

/// The size of the EEPROM at an address of a bus that a driver is bound to, if one is.
pub fn bound_eeprom(board: &Board, bus: u16, addr: Addr) -> Option<Size>
    ensures { result ≡ eeprom_at board.now bus addr }
{
    for device in board.devices() {
        if is_bound_at(device, bus, addr) && is_eeprom(device.kind) {
            return size_of_kind(device.kind);
        }
    }
    None
}

/// A driver is bound to a temperature sensor at an address of a bus.
pub fn bound_sensor(board: &Board, bus: u16, addr: Addr) -> bool
    ensures { result ≡ sensor_at board.now bus addr }
{
    for device in board.devices() {
        if is_bound_at(device, bus, addr) && is_sensor(device.kind) {
            return true;
        }
    }
    false
}

/// All temperature sensors of a board that a driver is bound to, in file order. Being out of memory is the only failure.
pub fn bound_sensors(alloc: Global, board: &Board) -> Result<Vec<Sensor>, NoMemory>
    ensures value { IfOk result (λ sensors. sensors.items ≡ sensors_of board.now) }
    ensures few { IfOk result (λ sensors. length sensors.items ≤ MOST_DEVICES) }
{
    let mut sensors = Vec::new(alloc);
    for device in board.devices() {
        if device.bound && is_sensor(device.kind) {
            sensors.push(Sensor {
                bus: device.bus.0,
                addr: device.addr,
            })?;
        }
    }
    Ok(sensors)
}
