//! Registers of two bytes, accesses of them, and what is known of a device.

use i2c_base::{Addr, DevId};

/// The two bytes of a register.
#[derive(Clone, Copy)]
pub struct Pair {
    pub high: u8,
    pub low: u8,
}

/// An access of a register: where its device stands, the number of the register, and what it writes, where it doesn't read.
#[derive(Clone, Copy)]
pub struct Access {
    pub bus: u16,
    pub addr: Addr,
    pub register: u8,
    pub sent: Option<Pair>,
}

/// What is known of a device: the bytes of its registers 2 and 3, where they are.
#[derive(Clone, Copy)]
pub struct Kept {
    pub device: DevId,
    pub bus: u16,
    pub addr: Addr,
    pub hysteresis: Option<Pair>,
    pub limit: Option<Pair>,
}
