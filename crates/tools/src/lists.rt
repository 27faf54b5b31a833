//! The lists of a command, which are taken from an allocator: numbers, bytes and messages.

ghost use Rattle.std.specs.Prelude.{◌≡◌, List, [], ◌∷◌, ◌++◌, OnOk};

use i2c_base::{Addr, NoMemory};
use std::alloc::Global;
use std::marker::Model;

/// Items, one after the other. A contract sees the list.
#[derive(Drop)]
pub struct Items<T: Drop> {
    items: Vec<T>,
}

impl<T: Drop> Model for Items<T> {
    ghost Value = { List T };

    ghost view = { λ s. s.items.items };
}

impl<T: Drop> Items<T> {
    /// A list of nothing.
    pub fn new(alloc: Global) -> Self
        ensures { result ≡ [] }
    {
        Items {
            items: Vec::new(alloc),
        }
    }

    /// Puts one at the end.
    pub fn push(&mut self, item: T) -> Result<(), NoMemory>
        ensures { OnOk result (self.new ≡ self.old ++ item ∷ []) }
    {
        self.items.push(item)?;
        Ok(())
    }

    /// The list.
    pub fn as_slice(&self) -> &[T]
        ensures { result.now ≡ self.now }
    {
        self.items.as_slice()
    }
}

/// Numbers of 16 bits.
pub type Words = Items<u16>;

/// Bytes.
pub type Octets = Items<u8>;

/// The messages of a transfer.
pub type Descs = Items<Desc>;

/// What a message does.
#[derive(Drop)]
pub enum DescOp {
    /// Reads so many bytes.
    Read(u16),
    /// Writes these bytes.
    Write(Octets),
}

/// A message, and whom it is to.
#[derive(Drop)]
pub struct Desc {
    pub addr: Addr,
    pub op: DescOp,
}
