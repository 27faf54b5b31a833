//! Which sensors a caller may keep.
ghost use Rattle.std.specs.Prelude.{◌≡◌, ◌&&◌, ◌<◌, Some, IfOk, slice_get};
ghost use Rattle.std.specs.List.{list_any};
ghost use Rattle.i2c_base.specs.Board.{BoardView, DeviceView};
ghost use Rattle.i2c_base.specs.Limits.{MOST_DEVICES};
ghost use Rattle.caller_core.specs.Reach.{is_forced_in};
ghost use Rattle.i2c_drivers.specs.Bound.{is_sensor};
ghost use Rattle.reg_cache.specs.Cacheable.{Texts, another_writes, is_cacheable, cacheable_devices, AreReaches};

use caller_core::Reach;
use i2c_base::{Addr, DevId, DeviceKind, DeviceSpec, NoMemory};
use i2c_board::Accepted;
use std::alloc::Global;

// A line of some script may reach the address by force.
fn is_forced(reaches: &[Reach], addr: Addr) -> bool
    ensures { (b : BoardView) (texts : Texts) → AreReaches b texts reaches.now → result ≡ list_any (is_forced_in b addr) texts }
{
    for reach in reaches {
        if reach.forces(addr) {
            return true;
        }
    }
    false
}

// Another caller's script has a line that writes the device.
fn another_writes(reaches: &[Reach], caller: u8, device: DevId) -> bool
    requires { device < MOST_DEVICES }
    ensures { (b : BoardView) (texts : Texts) (v : DeviceView) → AreReaches b texts reaches.now → slice_get b.devices device ≡ Some v
        → result ≡ another_writes b v.bus v.addr caller 0 texts }
{
    for (number, reach) in reaches.iter().enumerate() {
        if reach.writes(device) && number != usize::from(caller) {
            return true;
        }
    }
    false
}

// A driver is bound to it as to a temperature sensor.
fn is_bound_sensor(device: &DeviceSpec) -> bool
    ensures { result ≡ (device.now.bound && is_sensor device.now.kind) }
{
    device.bound && matches!(device.kind, DeviceKind::Lm75 { .. })
}

// The caller may keep this device.
fn may_keep(reaches: &[Reach], caller: u8, id: DevId, device: &DeviceSpec) -> bool
    requires { id < MOST_DEVICES }
    ensures { (b : BoardView) (texts : Texts) → AreReaches b texts reaches.now → slice_get b.devices id ≡ Some device.now → result ≡ is_cacheable b texts caller id }
{
    is_bound_sensor(device)
        && !is_forced(reaches, device.addr)
        && !another_writes(reaches, caller, id)
}

/// The devices of a board that a caller may keep, in file order: the bound LM75s that no script reaches by force, and that no
/// other caller's script writes. What the scripts reach is told of all callers, in their order.
pub fn cacheable(
    alloc: Global,
    board: &Accepted,
    reaches: &[Reach],
    caller: u8,
) -> Result<Vec<DevId>, NoMemory>
    ensures { (texts : Texts) → AreReaches board.now texts reaches.now → IfOk result (λ devices. devices.items ≡ cacheable_devices board.now texts caller) }
{
    let mut devices = Vec::new(alloc);
    for (number, device) in board.board().devices().iter().enumerate() {
        let id = DevId(number as u16);
        if may_keep(reaches, caller, id, device) {
            devices.push(id)?;
        }
    }
    Ok(devices)
}
