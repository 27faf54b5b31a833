//! Bytes that grow at their end, as what a command prints does.

ghost use Rattle.std.specs.Prelude.{◌≡◌, ◌+◌, ◌≤◌, [], ◌∷◌, ◌++◌, length, OnOk};
ghost use Rattle.tools.specs.Tables.{trimmed};

use i2c_base::NoMemory;
use std::alloc::Global;
use std::marker::Model;

/// Bytes that grow at their end. A contract sees them, and the room for more; where there is room, nothing here takes
/// memory.
#[derive(Drop)]
pub struct Text {
    bytes: Vec<u8>,
}

impl Model for Text {
    ghost use Rattle.std.specs.Prelude.{◌-◌, vec_len, vec_capacity};
    ghost use Rattle.tools.specs.View.{TextView};

    ghost Value = { TextView };

    ghost view = { λ t. record { bytes = t.bytes.items; room = vec_capacity t.bytes - vec_len t.bytes } };
}

impl Text {
    /// Nothing yet, and no room.
    pub fn new(alloc: Global) -> Self
        ensures { result.bytes ≡ [] }
    {
        Text {
            bytes: Vec::new(alloc),
        }
    }

    pub fn as_slice(&self) -> &[u8]
        ensures { result.now ≡ self.now.bytes }
    {
        self.bytes.as_slice()
    }

    /// Makes room for so many bytes. Those that are there stay.
    pub fn reserve(&mut self, bytes: usize) -> Result<(), NoMemory>
        ensures stays { self.new.bytes ≡ self.old.bytes }
        ensures ok { OnOk result (bytes ≤ self.new.room) }
    {
        self.bytes.reserve(bytes)?;
        Ok(())
    }

    /// Puts bytes at the end.
    pub fn push(&mut self, bytes: &[u8])
        requires { length bytes.now ≤ self.old.room }
        ensures bytes { self.new.bytes ≡ self.old.bytes ++ bytes.now }
        ensures room { self.old.room ≤ self.new.room + length bytes.now }
    {
        let _ = self.bytes.extend_from_slice(bytes);
    }

    /// Takes the spaces off the end.
    #[tactic(auto, using(crate::proofs::TableLemmas::trimmed_space, crate::proofs::TableLemmas::trimmed_done))]
    pub fn trim(&mut self)
        ensures bytes { self.new.bytes ≡ trimmed self.old.bytes }
        ensures room { self.old.room ≤ self.new.room }
    {
        while let Some(b' ') = self.bytes.last() {
            self.bytes.pop();
        }
    }

    /// Puts a byte at the end.
    pub fn push_byte(&mut self, byte: u8)
        requires { 1 ≤ self.old.room }
        ensures bytes { self.new.bytes ≡ self.old.bytes ++ byte ∷ [] }
        ensures room { self.old.room ≤ self.new.room + 1 }
    {
        self.bytes.push_reserved(byte);
    }
}
