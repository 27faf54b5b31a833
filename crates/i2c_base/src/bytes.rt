//! Lists of bytes with a fixed room, which take no memory.
ghost use Rattle.std.specs.Prelude.{◌≡◌, ℕ, ◌+◌, ◌<◌, ◌≤◌, List, [], ◌∷◌, ◌++◌, length};

use crate::Row;
use std::marker::Model;

/// Up to 4,096 bytes: those of a transfer.
pub type Bytes = ByteStore<4096>;

/// Up to 512 bytes: those of one message.
pub type ByteList = ByteStore<512>;

/// Up to so many bytes, which take no memory. A contract sees the list.
#[derive(Drop)]
pub struct ByteStore<const N: usize> {
    items: Row<u8, N>,
}

impl<const N: usize> Model for ByteStore<N> {
    ghost Value = { List ℕ };

    ghost view = { λ b. b.items };

    ghost inverse = { λ xs. record { items = xs } };
}

impl<const N: usize> ByteStore<N> {
    pub fn new() -> Self
        ensures { result ≡ [] }
    {
        ByteStore { items: Row::new() }
    }

    pub fn push(&mut self, byte: u8)
        requires { length self.old < N }
        ensures { self.new ≡ self.old ++ byte ∷ [] }
    {
        self.items.push(byte);
    }

    /// Puts these bytes at the end.
    pub fn extend(&mut self, bytes: &[u8])
        requires { length self.old + length bytes.now ≤ N }
        ensures { self.new ≡ self.old ++ bytes.now }
    {
        self.items.extend(bytes);
    }

    pub fn clear(&mut self)
        ensures { self.new ≡ [] }
    {
        self.items.clear();
    }

    pub fn as_slice(&self) -> &[u8]
        ensures value { result.now ≡ self.now }
        ensures fits { length self.now ≤ N }
    {
        self.items.as_slice()
    }

    /// The same bytes again.
    pub fn copied(&self) -> Self
        ensures { result ≡ self.now }
    {
        let mut copy = Self::new();
        copy.extend(self.as_slice());
        copy
    }
}
