//! A sink in memory, with limited room, whose writes fail where it is told.
ghost use Rattle.std.specs.Prelude.{◌≡◌, ◌↔◌, ◌-◌, ◌<◌, ◌≤◌, ◌++◌, [], true, IfOk, OnOk, OnErr, IsOk, length, min, take};
ghost use Rattle.ports.specs.Causes.{HasCause, counted};
ghost use Rattle.i2c_outside.specs.Sinks.{taken_of};

use crate::{Sink, is_listed};
use i2c_base::NoMemory;
use ports::Failed;
use std::alloc::Global;
use std::marker::Model;

/// A sink in memory: it keeps what is written, as far as it has room, and fails at the writes that it is told.
#[derive(Drop)]
pub struct VecSink {
    bytes: Vec<u8>,
    size: usize,
    fails: Vec<u32>,
    writes: u64,
    faults: u64,
}

impl Model for VecSink {
    ghost use Rattle.std.specs.Prelude.{◌≤◌, vec_len, vec_capacity};
    ghost use Rattle.i2c_outside.specs.Sinks.{SinkView};

    ghost Value = { SinkView };

    ghost view = { λ s. record { bytes = s.bytes.items; size = s.size; fails = s.fails.items; writes = s.writes; faults = s.faults } };

    ghost invariant = { λ s. (vec_len s.bytes ≤ s.size) × (s.size ≤ vec_capacity s.bytes) };
}

impl VecSink {
    /// A sink with room for `size` bytes. The writes whose numbers, from 0, stand in `fails` fail.
    pub fn open(alloc: Global, size: usize, fails: Vec<u32>) -> Result<Self, NoMemory>
        ensures { IfOk result (λ s. s ≡ record { bytes = []; size = size; fails = fails.items; writes = 0; faults = 0 }) }
    {
        Ok(VecSink {
            bytes: Vec::with_capacity(alloc, size)?,
            size,
            fails,
            writes: 0,
            faults: 0,
        })
    }

    /// What was written.
    pub fn bytes(&self) -> &[u8]
        ensures { result.now ≡ self.now.bytes }
    {
        self.bytes.as_slice()
    }

    /// How many faults were counted.
    pub fn faults(&self) -> u64
        ensures { result ≡ self.now.faults }
    {
        self.faults
    }

    /// How many bytes fit, of so many.
    fn fitting(&self, count: usize) -> usize
        ensures { result ≡ min count (self.now.size - length self.now.bytes) }
    {
        count.min(self.size - self.bytes.len())
    }
}

impl Sink for VecSink {
    ghost tells = { true };

    ghost bytes = { λ s. s.bytes };

    ghost faults = { λ s. s.faults };

    /// Writes as much of the piece as fits. It fails exactly where nothing fits or the write's number is listed.
    fn write(&mut self, piece: &[u8]) -> Result<usize, Failed>
        requires { 0 < length piece.now }
        ensures some { IfOk result (λ n. (0 < n) × (n ≤ length piece.now)) }
        ensures ok { IfOk result (λ n. self.new.bytes ≡ self.old.bytes ++ take n piece.now) }
        ensures err { OnErr result (self.new.bytes ≡ self.old.bytes) }
        ensures cause { HasCause self.old.faults self.new.faults result }
        ensures later { self.old.faults ≤ self.new.faults }

        // Which writes fail, and how many bytes the others take.
        ensures exact { IsOk result ↔ (0 < taken_of self.old piece.now) }
        ensures count { IfOk result (λ n. n ≡ taken_of self.old piece.now) }
        ensures room { self.new.size ≡ self.old.size }
        ensures fails { self.new.fails ≡ self.old.fails }
        ensures writes { self.new.writes ≡ counted self.old.writes }
        ensures calm { OnOk result (self.new.faults ≡ self.old.faults) }
        ensures fault { OnErr result (self.new.faults ≡ counted self.old.faults) }
    {
        let count = if is_listed(self.fails.as_slice(), self.writes) {
            0
        } else {
            self.fitting(piece.len())
        };
        self.writes = self.writes.saturating_add(1);
        if count == 0 {
            self.faults = self.faults.saturating_add(1);
            return Err(Failed);
        }
        let _ = self.bytes.extend_from_slice(&piece[..count]);
        Ok(count)
    }
}
