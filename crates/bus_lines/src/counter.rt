//! What the lines have shown, with how often SCL rose, and how often there was a start or a stop, as two numbers.
ghost use Rattle.std.specs.Prelude.{◌≡◌, min, [], ◌∷◌};
ghost use Rattle.wire_spec.specs.Bus.{Level, Started, Stopped, edges_in, flips_in};
ghost use Rattle.wire_spec.specs.Calls.{byte_seen};
ghost use Rattle.ports.specs.Causes.{MOST};

use crate::sign_log::SignLog;
use std::marker::Model;

/// How often SCL rose, and how often there was a start or a stop, as numbers up to 2^64 - 1. A contract sees all that the lines have
/// shown.
#[derive(Drop)]
pub struct Counter {
    all: SignLog,
    edges: u64,
    flips: u64,
}

impl Model for Counter {
    ghost use Rattle.wire_spec.specs.Bus.{Seen};
    ghost use Rattle.bus_lines.specs.Shown.{shown_by, AreCounted};

    ghost Value = { Seen };

    ghost view = { λ c. shown_by c.all };

    ghost invariant = { λ c. AreCounted (shown_by c.all) c.edges c.flips };
}

impl Counter {
    /// Nothing was seen.
    pub fn none() -> Self
        ensures { result ≡ [] }
    {
        Counter {
            all: SignLog::none(),
            edges: 0,
            flips: 0,
        }
    }

    /// SCL has risen, with SDA at this level: true is high.
    #[inline(always)]
    pub fn add_rise(&mut self, level: bool)
        ensures { self.new ≡ Level level ∷ self.old }
    {
        self.all.add_rise(level);
        self.edges = self.edges.saturating_add(1);
    }

    /// A byte has gone over the lines, with its acknowledge or without one: SCL has risen nine times.
    #[inline(always)]
    pub fn add_byte(&mut self, byte: u8, acked: bool)
        ensures { self.new ≡ byte_seen byte acked self.old }
    {
        self.all.add_byte(byte, acked);
        self.edges = self.edges.saturating_add(9);
    }

    /// There was a start.
    pub fn add_start(&mut self)
        ensures { self.new ≡ Started ∷ self.old }
    {
        self.all.add_start();
        self.flips = self.flips.saturating_add(1);
    }

    /// There was a stop.
    pub fn add_stop(&mut self)
        ensures { self.new ≡ Stopped ∷ self.old }
    {
        self.all.add_stop();
        self.flips = self.flips.saturating_add(1);
    }

    /// How often SCL rose, up to 2^64 - 1.
    pub fn edges(&self) -> u64
        ensures { result ≡ min (edges_in self.now) MOST }
    {
        self.edges
    }

    /// How often there was a start or a stop, up to 2^64 - 1.
    pub fn flips(&self) -> u64
        ensures { result ≡ min (flips_in self.now) MOST }
    {
        self.flips
    }
}
