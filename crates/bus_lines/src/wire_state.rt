//! What the pulls and looks of a controller have come to.
ghost use Rattle.std.specs.Prelude.{◌≡◌, true, false};
ghost use Rattle.i2c_bits.specs.Wiring.{wire_pulled, wire_looked};
ghost use Rattle.bus_lines.specs.LinesViews.{wire_nine, wire_begun, wire_ended};

use i2c_bits::{LOOKS, STOP_LOOKS};
use std::marker::Model;

/// What the controller pulls, what it saw at its last look, and the counts of its low looks and its pulses.
#[derive(Drop)]
pub struct WireState {
    clock_low: bool,
    data_low: bool,
    clock_high: bool,
    data_high: bool,
    low: u8,
    pulses: u64,
    slow: u64,
    stuck: u64,
}

impl Model for WireState {
    ghost use Rattle.i2c_bits.specs.Wiring.{Wire};

    ghost Value = { Wire };

    ghost view = { λ w. record { scl = w.clock_low; sda = w.data_low; scl_high = w.clock_high; sda_high = w.data_high; low = w.low; pulses = w.pulses; slow = w.slow; stuck = w.stuck } };
}

impl WireState {
    /// Both lines are let go, and were never looked at.
    pub fn free() -> Self
        ensures { result ≡ record { scl = false; sda = false; scl_high = true; sda_high = true; low = 0; pulses = 0; slow = 0; stuck = 0 } }
    {
        WireState {
            clock_low: false,
            data_low: false,
            clock_high: true,
            data_high: true,
            low: 0,
            pulses: 0,
            slow: 0,
            stuck: 0,
        }
    }

    /// The controller pulls SCL.
    #[inline(always)]
    pub fn pulls_clock(&self) -> bool
        ensures { result ≡ self.now.scl }
    {
        self.clock_low
    }

    /// The controller pulls SDA.
    #[inline(always)]
    pub fn pulls_data(&self) -> bool
        ensures { result ≡ self.now.sda }
    {
        self.data_low
    }

    /// The controller pulls each line, or lets it go.
    #[inline(always)]
    pub fn pull(&mut self, scl: bool, sda: bool)
        ensures { self.new ≡ wire_pulled self.old scl sda }
    {
        if scl && !self.clock_low {
            self.pulses = self.pulses.saturating_add(1);
        }
        self.clock_low = scl;
        self.data_low = sda;
        self.low = 0;
    }

    /// The controller has made a start, or a repeated one, before which it let both lines go.
    #[inline(always)]
    pub fn begun(&mut self, busy: bool)
        ensures { self.new ≡ wire_begun self.old busy }
    {
        self.pulses = self.pulses.saturating_add(1);
        self.clock_low = true;
        self.data_low = true;
        self.clock_high = busy || self.clock_high;
        self.data_high = busy || self.data_high;
        self.low = 0;
    }

    /// The controller has made a stop, and lets both lines go.
    #[inline(always)]
    pub fn ended(&mut self)
        ensures { self.new ≡ wire_ended self.old }
    {
        self.set(false, false, true, false);
    }

    /// The controller has made nine clocks, in the last of which it pulls SDA or not and sees it at this level.
    #[inline(always)]
    pub fn nine(&mut self, sda: bool, level: bool)
        ensures { self.new ≡ wire_nine self.old sda level }
    {
        self.pulses = self.pulses.saturating_add(9);
        self.set(true, sda, true, level);
    }

    /// The controller pulls each line or lets it go, and saw them at these levels, SCL never low.
    #[inline(always)]
    fn set(&mut self, scl: bool, sda: bool, scl_high: bool, sda_high: bool)
        ensures { self.new ≡ record self.old { scl = scl; sda = sda; scl_high = scl_high; sda_high = sda_high; low = 0 } }
    {
        self.clock_low = scl;
        self.data_low = sda;
        self.clock_high = scl_high;
        self.data_high = sda_high;
        self.low = 0;
    }

    /// The controller has looked at the lines, which had these levels.
    #[inline(always)]
    pub fn look(&mut self, scl_high: bool, sda_high: bool)
        ensures { self.new ≡ wire_looked self.old scl_high sda_high }
    {
        self.clock_high = scl_high;
        self.data_high = sda_high;
        if scl_high {
            self.low = 0;
            return;
        }
        if self.low == LOOKS - 1 {
            self.slow = self.slow.saturating_add(1);
        }
        if self.low == STOP_LOOKS - 1 {
            self.stuck = self.stuck.saturating_add(1);
        }
        self.low = self.low.saturating_add(1);
    }
}
