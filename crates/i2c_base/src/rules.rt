//! The first topology rule that a board breaks, and the two items at fault.
use crate::{DevId, MuxId};

/// A part of the board that a topology rule speaks of.
#[derive(Clone, Copy)]
pub enum Item {
    Mux(MuxId),
    Device(DevId),
}

/// The first topology rule that a board breaks, from 1 to 5, and the two items at fault.
#[derive(Clone, Copy)]
pub struct RuleBroken {
    pub rule: u8,
    pub first: Item,
    pub second: Item,
}
