//! To whom an address leads, and whether the muxes on the way let a message through.
use crate::{DevId, MuxId};

/// To whom an address on a bus leads.
#[derive(Clone, Copy)]
pub enum Grant {
    Named(DevId),
    Nobody,
    /// Another has it: a mux chip on the way, something below, or a bound device.
    Busy,
}

/// Whether the muxes over a bus let a message through.
#[derive(Clone, Copy)]
pub enum Way {
    Clear,
    /// This mux is absent: its chip acknowledges nothing.
    NoAck(MuxId),
    /// This arbitrator stays with its other controller.
    Held(MuxId),
}
