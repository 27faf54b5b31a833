//! A step of a path: the mux between a bus and the one that it stands on.
ghost use Rattle.std.specs.Prelude.{◌≡◌};

use i2c_base::{MuxId, MuxKind, SegId};
use std::marker::Model;

/// A mux that is crossed on the way from a bus to its root. A contract sees the record of these parts.
#[derive(Clone, Copy)]
pub struct Hop {
    /// The bus behind the mux.
    pub bus: SegId,
    pub mux: MuxId,
    /// The channel of the mux that leads to the bus, from 0.
    pub channel: u16,
    /// The bus that the mux stands on.
    pub on: SegId,
    /// The mux is parent-locked.
    pub parent: bool,
    pub kind: MuxKind,
    /// The mux keeps its last channel when idle.
    pub stays: bool,
}

impl Model for Hop {
    ghost use Rattle.i2c_spec.specs.Tree.{Hop as HopView};

    ghost Value = { HopView };

    ghost view = { λ h. record { bus = h.bus; mux = h.mux; channel = h.channel; on = h.on; parent = h.parent; kind = h.kind; stays = h.stays } };

    ghost inverse = { λ h. record { bus = h.bus; mux = h.mux; channel = h.channel; on = h.on; parent = h.parent; kind = h.kind; stays = h.stays } };
}

/// The blank of an unused place.
impl Default for Hop {
    fn default() -> Self {
        Hop {
            bus: SegId(0),
            mux: MuxId(0),
            channel: 0,
            on: SegId(0),
            parent: false,
            kind: MuxKind::Gpio,
            stays: false,
        }
    }
}
