//! A mux chip or a device on the lines, as one type.
ghost use Rattle.std.specs.Prelude.{◌≡◌};
ghost use Rattle.i2c_spec.specs.Targets.{Silent};
ghost use Rattle.wire_spec.specs.Sites as node;
ghost use Rattle.i2c_bits.specs.Wiring.{node_level};
ghost use Rattle.bus_lines.specs.Aparts.{device_of, emptied};
ghost use Rattle.bus_lines.specs.Joins.{is_chip, node_opens};

use i2c_base::{Answer, Event, Target};
use std::marker::Model;
use std::mem::replace;
use targets::{Chip, DeviceState, silence};
use tgt_bits::Wired;

// A target of either kind.
#[derive(Drop)]
enum WireTargetKind {
    Chip(Chip),
    Device(Box<DeviceState>),
    Silent,
}

/// A mux chip or a device, which is boxed, since a chip is small. A contract sees the state of either (`NodeState`).
#[derive(Drop)]
pub struct WireTarget {
    target: WireTargetKind,
}

impl Model for WireTarget {
    ghost use Rattle.wire_spec.specs.Sites as node;
    ghost use Rattle.wire_spec.specs.Sites.{NodeState};
    ghost use Rattle.bus_lines.specs.declared.node.WireTargetKind.TheVariants as kind;
    ghost use Rattle.i2c_spec.specs.Targets.{Silent};

    ghost Value = { NodeState };

    ghost view = { λ n. elim n.target [
      | kind.Chip x ↦ node.Chip x
      | kind.Device x ↦ node.Device x.value
      | kind.Silent ↦ node.Device Silent
    ] };
}

impl WireTarget {
    /// The chip of a mux.
    pub fn of_chip(chip: Chip) -> Self
        ensures { result ≡ node.Chip chip }
    {
        WireTarget {
            target: WireTargetKind::Chip(chip),
        }
    }

    /// A device.
    pub fn of_device(device: Box<DeviceState>) -> Self
        ensures { result ≡ node.Device device.value }
    {
        WireTarget {
            target: WireTargetKind::Device(device),
        }
    }

    /// A device that isn't there: it answers nothing.
    pub fn away() -> Self
        ensures { result ≡ node.Device Silent }
    {
        WireTarget {
            target: WireTargetKind::Silent,
        }
    }

    /// Sets the line of a gpio mux, where it is one.
    pub fn set_level(&mut self, level: u8)
        ensures { self.new ≡ node_level self.old level }
    {
        match &mut self.target {
            WireTargetKind::Chip(chip) => chip.set_level(level),
            WireTargetKind::Device(_) | WireTargetKind::Silent => {}
        }
    }

    /// It is the chip of a mux.
    pub fn is_chip(&self) -> bool
        ensures { result ≡ is_chip self.now }
    {
        match &self.target {
            WireTargetKind::Chip(_) => true,
            WireTargetKind::Device(_) | WireTargetKind::Silent => false,
        }
    }

    /// Takes out the device, where it is one.
    pub fn take_device(&mut self) -> Option<DeviceState>
        ensures taken { result ≡ device_of self.old }
        ensures after { self.new ≡ emptied self.old }
    {
        match replace(&mut self.target, WireTargetKind::Silent) {
            WireTargetKind::Chip(chip) => {
                self.target = WireTargetKind::Chip(chip);
                None
            }
            WireTargetKind::Device(device) => Some(Box::into_inner(device)),
            WireTargetKind::Silent => Some(DeviceState::silent()),
        }
    }

    /// It is the chip of a mux that has this channel open.
    pub fn opens(&self, channel: u16) -> bool
        ensures { result ≡ node_opens channel self.now }
    {
        match &self.target {
            WireTargetKind::Chip(chip) => chip.opens(channel),
            WireTargetKind::Device(_) | WireTargetKind::Silent => false,
        }
    }
}

impl Target for WireTarget {
    ghost use Rattle.wire_spec.specs.Sites.{node_table};

    ghost table = { node_table };

    #[inline(always)]
    fn on(&mut self, event: Event) -> Answer {
        match &mut self.target {
            WireTargetKind::Chip(chip) => chip.on(event),
            WireTargetKind::Device(device) => device.on(event),
            WireTargetKind::Silent => silence(event),
        }
    }
}

impl Wired for WireTarget {
    ghost use Rattle.wire_spec.proofs.StartLemmas.{node_fair};
    ghost use Rattle.i2c_spec.proofs.StateLemmas.{states_fair};
    ghost use Rattle.std.proofs.Common.{rules};

    ghost fair = { node_fair (Prim.search rules) states_fair };

    fn sends(&self) -> u8 {
        match &self.target {
            WireTargetKind::Chip(chip) => chip.sends(),
            WireTargetKind::Device(device) => device.sends(),
            WireTargetKind::Silent => 0xff,
        }
    }

    /// A mux chip never holds the clock.
    fn hold(&self) -> u8 {
        match &self.target {
            WireTargetKind::Chip(_) | WireTargetKind::Silent => 0,
            WireTargetKind::Device(device) => device.hold(),
        }
    }
}
