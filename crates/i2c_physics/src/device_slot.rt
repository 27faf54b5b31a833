//! The places in which a world holds its devices.
ghost use Rattle.std.specs.Prelude.{◌≡◌, IfOk};
ghost use Rattle.i2c_spec.specs.Plain.{IsPlainDevice};
ghost use Rattle.i2c_spec.specs.Targets.{Silent, opening_state};

use i2c_base::{Answer, DeviceSpec, Event, NoMemory, Target};
use std::alloc::{AllocError, Global};
use std::marker::Model;
use targets::{DeviceState, silence};

/// A device in its place, or an empty one. A contract sees the state of the device, which is `Silent` for an empty one.
///
/// The device is boxed, since a world has a place for each device of its board, and holds only those of its root.
#[derive(Drop)]
pub struct DeviceSlot {
    device: Option<Box<DeviceState>>,
}

impl Model for DeviceSlot {
    ghost use Rattle.std.specs.Option.{option_map_or};
    ghost use Rattle.i2c_spec.specs.Targets.{TargetState, Silent};

    ghost Value = { TargetState };

    ghost view = { λ s. option_map_or (λ device. device.value) s.device Silent };
}

impl DeviceSlot {
    /// An empty one.
    pub fn empty() -> Self
        ensures { result ≡ Silent }
    {
        DeviceSlot { device: None }
    }

    /// One with this device, as its board says that it is opened.
    pub fn open(alloc: Global, spec: &DeviceSpec) -> Result<Self, AllocError>
        requires plain { IsPlainDevice spec.now }
        ensures { IfOk result (λ s. s ≡ opening_state spec.now) }
    {
        match DeviceState::open(alloc, spec) {
            Ok(device) => Ok(DeviceSlot {
                device: Some(Box::new(alloc, device)?),
            }),
            Err(NoMemory) => Err(AllocError),
        }
    }

    /// Takes out the device.
    pub fn take(&mut self) -> DeviceState
        ensures taken { result ≡ self.old }
        ensures after { self.new ≡ Silent }
    {
        match self.device.take() {
            Some(device) => Box::into_inner(device),
            None => DeviceState::silent(),
        }
    }
}

impl Target for DeviceSlot {
    ghost use Rattle.i2c_spec.specs.Targets.{state_table};

    ghost table = { state_table };

    fn on(&mut self, event: Event) -> Answer {
        match &mut self.device {
            Some(device) => device.on(event),
            None => silence(event),
        }
    }
}
