//! The targets of a board: the mux chips PCA9548, PCA9546, PCA9544 and PCA9541 with the line of a gpio mux; the EEPROMs 24C02, 24C32
//! and 24C256; the sensor LM75, a device of 256 registers that can hold the clock, and one that takes and gives data with an error
//! code; and all devices as one type.
//!
//! Their public contract: each does on each event what the table of its kind says, tells the byte that it would send and for how
//! long it holds the clock, and takes no memory for an event; a channel of a mux is open exactly where the definition says so.
//! Definitions: `Chips`, and `Targets` with the table of each kind below it, of `i2c_spec`, by the data sheets of NXP, Microchip and
//! TI, and SMBus 3.2, sections 6.4 and 6.5.
#![tactic(auto)]

mod chip;
mod device;

pub use chip::Chip;
pub use device::{DeviceState, Regs, silence};
