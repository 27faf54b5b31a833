//! What an open handle has, and whom it reaches.

use i2c_base::Addr;

/// What an open handle has.
#[derive(Clone, Copy)]
pub struct OpenHandle {
    /// The bus that it was opened on.
    pub bus: u16,
    /// The address that was set last, if any.
    pub addr: Option<Addr>,
    /// Whether that address was set by force (i2c-dev: `I2C_SLAVE_FORCE`), and so may be that of a bound device.
    pub force: bool,
    /// Whether its SMBus transfers end in an error code (i2c-dev: `I2C_PEC`).
    pub pec: bool,
}

/// Whom a handle reaches that has an address, and how.
#[derive(Clone, Copy)]
pub struct Slave {
    pub bus: u16,
    pub addr: Addr,
    pub force: bool,
    pub pec: bool,
}
