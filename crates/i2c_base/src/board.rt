//! A board as data: its roots, its muxes and its devices.
ghost use Rattle.std.specs.Prelude.{ℕ};

use crate::{Addr, SegId};
use std::marker::Model;

/// A root bus.
#[derive(Clone, Copy, Default)]
pub struct RootSpec {
    /// Its adapter offers SMBus calls alone, and no plain transfers.
    pub smbus_only: bool,
}

/// The kinds of mux, named for the chips that Linux's drivers know; `Gpio` is switched by a line.
#[derive(Clone, Copy)]
pub enum MuxKind {
    /// A switch of eight channels.
    Pca9548,
    /// A switch of four channels.
    Pca9546,
    /// A mux of four channels, one at a time.
    Pca9544,
    /// An arbitrator before one channel.
    Pca9541,
    /// A mux switched by a line.
    Gpio,
}

/// Which locks a transfer through the mux holds while it runs (Linux i2c-topology).
#[derive(Clone, Copy)]
pub enum LockMode {
    Parent,
    Mux,
}

/// What a mux does after a transfer.
#[derive(Clone, Copy)]
pub enum Idle {
    Disconnect,
    AsIs,
}

/// A mux: where it stands, how it is addressed, and how it behaves.
#[derive(Clone, Copy)]
pub struct MuxSpec {
    /// The bus that the mux stands on.
    pub bus: SegId,
    pub kind: MuxKind,
    /// The address of its chip; a gpio mux has none.
    pub addr: Option<Addr>,
    /// How many channels it has, 1 to 8.
    pub channels: u8,
    pub lock: LockMode,
    /// The board has a place for it, but no chip.
    pub absent: bool,
    /// How often an arbitrator is found with its other controller, 0 to 8; 8 is for good.
    pub foreign: u8,
    pub idle: Idle,
}

/// The sizes of EEPROM: 256, 4096 and 32768 bytes.
#[derive(Clone, Copy)]
pub enum Size {
    C02,
    C32,
    C256,
}

/// The kinds of device, each with what it alone has.
#[derive(Clone, Copy)]
pub enum DeviceKind {
    Eeprom {
        size: Size,
        /// What every byte holds before `set`.
        fill: u8,
        /// How many starts it refuses after a write.
        busy: u8,
        /// Its bytes are protected from writes.
        wp: bool,
    },
    Lm75 {
        /// The temperature register.
        raw: u16,
    },
    Regs {
        /// For how many looks it holds the clock at its address; above 64 is too long.
        hold: u8,
    },
    Smbus {
        /// How many bytes its data have; 0 is a block.
        width: u8,
        /// What is wrong with the error code that it sends, bit by bit.
        flip: u8,
    },
}

/// Bytes of a device's memory from a place on.
#[derive(Drop)]
pub struct MemoryRun {
    pub start: u16,
    pub bytes: Vec<u8>,
}

impl Model for MemoryRun {
    ghost use Rattle.i2c_base.specs.Board.{RunView};

    ghost Value = { RunView };

    ghost view = { λ r. record { start = r.start; bytes = r.bytes.items } };
}

/// A device: where it stands, its address, and what it holds at the opening.
#[derive(Drop)]
pub struct DeviceSpec {
    pub bus: SegId,
    pub addr: Addr,
    /// A driver is bound to it, so that only a forced transfer reaches it.
    pub bound: bool,
    pub kind: DeviceKind,
    pub set: Vec<MemoryRun>,
}

impl Model for DeviceSpec {
    ghost use Rattle.i2c_base.specs.Board.{DeviceView};

    ghost Value = { DeviceView };

    ghost view = { λ d. record { bus = d.bus; addr = d.addr; bound = d.bound; kind = d.kind; set = d.set.items } };
}
