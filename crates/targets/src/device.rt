//! A device of any kind, as one type.
ghost use Rattle.std.specs.Prelude.{◌≡◌, IfOk};
ghost use Rattle.i2c_spec.specs.Plain.{IsPlainDevice};
ghost use Rattle.i2c_spec.specs.Targets as target;
ghost use Rattle.i2c_spec.specs.Targets.{opening_state, silent_answer, state_answer, state_sends, state_hold};

mod eeprom;
mod lm75;
mod registers;
mod smbus;

use eeprom::Eeprom;
use i2c_base::{Answer, DeviceKind, DeviceSpec, Event, NoMemory, Target};
use lm75::Lm75;
pub use registers::Regs;
use smbus::SmbusDevice;
use std::alloc::Global;
use std::marker::Model;

// The target of each kind.
#[derive(Drop)]
enum Device {
    Eeprom(Eeprom),
    Lm75(Lm75),
    Regs(Regs),
    Smbus(SmbusDevice),
    Silent,
}

/// A device of a board, whatever its kind. A contract sees its state (`TargetState`).
#[derive(Drop)]
pub struct DeviceState {
    device: Device,
}

impl Model for DeviceState {
    ghost use Rattle.i2c_spec.specs.Targets.{TargetState};
    ghost use Rattle.i2c_spec.specs.Targets as target;
    ghost use Rattle.targets.specs.declared.device.Device.TheVariants as kind;

    ghost Value = { TargetState };

    ghost view = { λ d. elim d.device [
      | kind.Eeprom x ↦ target.Eeprom x
      | kind.Lm75 x ↦ target.Lm75 x
      | kind.Regs x ↦ target.Regs x
      | kind.Smbus x ↦ target.Smbus x
      | kind.Silent ↦ target.Silent
    ] };
}

impl DeviceState {
    /// The device as its board says that it is opened.
    pub fn open(alloc: Global, spec: &DeviceSpec) -> Result<Self, NoMemory>
        requires plain { IsPlainDevice spec.now }
        ensures { IfOk result (λ d. d ≡ opening_state spec.now) }
    {
        let device = match spec.kind {
            DeviceKind::Eeprom {
                size,
                fill,
                busy,
                wp,
            } => { Device::Eeprom(Eeprom::open(alloc, size, fill, busy, wp, &spec.set)?) }
            DeviceKind::Lm75 { raw } => Device::Lm75(Lm75::open(raw)),
            DeviceKind::Regs { hold } => Device::Regs(Regs::open(hold, &spec.set)),
            DeviceKind::Smbus { width, flip } => {
                Device::Smbus(SmbusDevice::open(spec.addr, width, flip, &spec.set))
            }
        };
        Ok(DeviceState { device })
    }

    /// The place of a device that was taken out: it acknowledges nothing.
    pub fn silent() -> Self
        ensures { result ≡ target.Silent }
    {
        DeviceState {
            device: Device::Silent,
        }
    }

    /// What it would answer to this event.
    pub fn answer(&self, event: Event) -> Answer
        ensures { result ≡ state_answer self.now event }
    {
        match &self.device {
            Device::Eeprom(eeprom) => eeprom.answer(event),
            Device::Lm75(lm75) => lm75.copied().on(event),
            Device::Regs(regs) => regs.copied().on(event),
            Device::Smbus(smbus) => smbus.answer(event),
            Device::Silent => silence(event),
        }
    }

    /// The byte that the next read would give.
    pub fn sends(&self) -> u8
        ensures { result ≡ state_sends self.now }
    {
        match &self.device {
            Device::Eeprom(eeprom) => eeprom.sends(),
            Device::Lm75(lm75) => lm75.sends(),
            Device::Regs(regs) => regs.sends(),
            Device::Smbus(smbus) => smbus.sends(),
            Device::Silent => 255,
        }
    }

    /// For how many looks it holds the clock at its address (UM10204 section 3.1.9).
    pub fn hold(&self) -> u8
        ensures { result ≡ state_hold self.now }
    {
        match &self.device {
            Device::Regs(regs) => regs.hold(),
            Device::Eeprom(_) | Device::Lm75(_) | Device::Smbus(_) | Device::Silent => 0,
        }
    }

    /// A device in the same state.
    pub fn copied(&self, alloc: Global) -> Result<Self, NoMemory>
        ensures { IfOk result (λ d. d ≡ self.now) }
    {
        Ok(DeviceState {
            device: self.device.copied(alloc)?,
        })
    }
}

impl Device {
    fn copied(&self, alloc: Global) -> Result<Self, NoMemory>
        ensures { IfOk result (λ d. d ≡ self.now) }
    {
        match self {
            Device::Eeprom(eeprom) => Ok(Device::Eeprom(eeprom.copied(alloc)?)),
            Device::Lm75(lm75) => Ok(Device::Lm75(lm75.copied())),
            Device::Regs(regs) => Ok(Device::Regs(regs.copied())),
            Device::Smbus(smbus) => Ok(Device::Smbus(smbus.copied())),
            Device::Silent => Ok(Device::Silent),
        }
    }
}

impl Target for DeviceState {
    ghost use Rattle.i2c_spec.specs.Targets.{state_table};

    ghost table = { state_table };

    #[inline(always)]
    fn on(&mut self, event: Event) -> Answer {
        match &mut self.device {
            Device::Eeprom(eeprom) => eeprom.on(event),
            Device::Lm75(lm75) => lm75.on(event),
            Device::Regs(regs) => regs.on(event),
            Device::Smbus(smbus) => smbus.on(event),
            Device::Silent => silence(event),
        }
    }
}

/// What the place of a device that was taken out answers: it acknowledges nothing.
pub fn silence(event: Event) -> Answer
    ensures { result ≡ silent_answer event }
{
    match event {
        Event::Start { .. } | Event::Put(_) => Answer::Nack,
        Event::Get { .. } => Answer::Byte(255),
        Event::Other | Event::Stop => Answer::Nothing,
    }
}
