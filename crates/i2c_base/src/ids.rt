//! The numbers of buses, muxes and devices, and the names of locks and of targets.
ghost use Rattle.std.specs.Prelude.{ℕ};

use std::marker::Model;

/// The number of a bus: roots first in file order, then each mux's channels in file order.
/// A contract sees the number.
#[derive(Clone, Copy, Default, PartialEq, Eq)]
pub struct SegId(pub u16);

impl Model for SegId {
    ghost Value = { ℕ };

    ghost view = { λ s. s.0 };

    ghost inverse = { λ n. record { 0 = n } };
}

/// The place of a mux in the board file, from 0. A contract sees the number.
#[derive(Clone, Copy, Default, PartialEq, Eq)]
pub struct MuxId(pub u16);

impl Model for MuxId {
    ghost Value = { ℕ };

    ghost view = { λ m. m.0 };

    ghost inverse = { λ n. record { 0 = n } };
}

/// The place of a device in the board file, from 0. A contract sees the number.
#[derive(Clone, Copy, Default, PartialEq, Eq)]
pub struct DevId(pub u16);

impl Model for DevId {
    ghost Value = { ℕ };

    ghost view = { λ d. d.0 };

    ghost inverse = { λ n. record { 0 = n } };
}

/// A lock of the board (Linux i2c-topology): the lock of a root's wires, or the one lock of all muxes
/// that stand on a bus.
#[derive(Clone, Copy, PartialEq, Eq)]
pub enum LockId {
    Bus(SegId),
    Mux(SegId),
}

/// The blank of an unused place.
impl Default for LockId {
    fn default() -> Self {
        LockId::Bus(SegId(0))
    }
}

/// A target on the wires: a device, or the chip of a mux.
#[derive(Clone, Copy, PartialEq, Eq)]
pub enum Node {
    Device(DevId),
    Chip(MuxId),
}

/// The blank of an unused place.
impl Default for Node {
    fn default() -> Self {
        Node::Device(DevId(0))
    }
}
