//! A target on two wires: where it stands within a message, and what it does to the lines.
ghost use Rattle.std.specs.Prelude.{◌≡◌, false};
ghost use Rattle.wire_spec.specs.Wires.{site_of, pulls, holds};
ghost use Rattle.wire_spec.specs.Calls.{released};

use crate::Wired;
use std::marker::Model;
use wire_spec::Mode;

/// A target on two wires. A contract sees its site and where it stands (`Bit`).
#[derive(Drop)]
pub struct BitTarget<T> {
    pub addr: u8,
    /// It is on the wires: the channel that leads to it is open in every mux over its bus.
    pub joined: bool,
    /// It has heard the message: it acknowledged the start, or was too slow.
    pub heard: bool,
    pub target: T,
    pub mode: Mode,
    /// For so many looks more it holds SCL low, once its acknowledge clock has begun.
    pub hold: u8,
}

impl<T> Model for BitTarget<T> {
    ghost use Rattle.wire_spec.specs.Wires.{Bit, stands, site_of};
    ghost use Rattle.tgt_bits.specs.Targets.{IsMode};

    ghost Value = { Bit T };

    ghost view = { λ b. stands (site_of b.addr b.joined b.heard b.target) b.mode b.hold };

    ghost invariant = { λ b. IsMode b.mode };
}

impl<T: Wired> BitTarget<T> {
    /// A target at this address that lets the lines go, and has heard nothing yet.
    pub fn released(addr: u8, joined: bool, target: T) -> Self
        ensures { result ≡ released (site_of addr joined false target) }
    {
        BitTarget {
            addr,
            joined,
            heard: false,
            target,
            mode: Mode::Out,
            hold: 0,
        }
    }

    /// It pulls SDA low: to acknowledge (UM10204 section 3.1.6), and for each low bit of the byte that it sends, the most
    /// significant one first (section 3.1.5).
    #[inline(always)]
    pub fn pulls_data(&self) -> bool
        ensures { result ≡ pulls T.table self.now }
    {
        match self.mode {
            Mode::Answered { begun, acked, .. } => begun && acked,
            Mode::Give { left } => left > 0 && (self.target.sends() >> (left - 1)) & 1 == 0,
            Mode::Out | Mode::In { .. } | Mode::Gave { .. } => false,
        }
    }

    /// It holds SCL low, from the fall after its address on (UM10204 section 3.1.9).
    #[inline(always)]
    pub fn holds_clock(&self) -> bool
        ensures { result ≡ holds self.now }
    {
        match self.mode {
            Mode::Answered { begun: false, .. } => false,
            _ => self.hold > 0,
        }
    }
}
