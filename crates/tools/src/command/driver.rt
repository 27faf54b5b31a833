//! The lines of drivers, a row for each.

pub(crate) mod at24;
pub(crate) mod lm75;

pub use at24::{At24Read, At24Write};
pub use lm75::{Lm75Read, Lm75Write, RegName};

/// A line of a driver.
#[derive(Drop)]
pub enum DriverCmd {
    /// Reads an EEPROM.
    At24Read(At24Read),
    /// Writes an EEPROM.
    At24Write(At24Write),
    /// Reads a register of a temperature sensor.
    Lm75Read(Lm75Read),
    /// Writes a register of a temperature sensor.
    Lm75Write(Lm75Write),
    /// Reads all temperature sensors.
    Sensors,
}
