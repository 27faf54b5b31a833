//! `Packed`: heads, and the bytes of all of them in one store.
ghost use Rattle.std.specs.Prelude.{◌≡◌, ℕ, ◌+◌, ◌-◌, ◌<◌, ◌≤◌, ◌^◌, ◌↔◌, List, [], ◌∷◌, ◌++◌, length, slice_index_or, IsTrue, IfOk, OnOk, vec_len, vec_capacity};

use std::alloc::{AllocError, Global};
use std::marker::Model;

// A head, and where its bytes lie.
#[derive(Drop)]
struct Run<H> {
    head: H,
    start: u32,
    len: u16,
}

/// Heads with a run of bytes each. A contract sees the list of them, and the room for more heads and for more bytes.
#[derive(Drop)]
pub struct Packed<H> {
    runs: Vec<Run<H>>,
    bytes: Vec<u8>,
    room_bytes: u32,
}

impl<H> Model for Packed<H> {
    ghost use Rattle.std.specs.Prelude.{ℕ, ◌+◌, ◌-◌, ◌<◌, ◌≤◌, ◌^◌, List, vec_len, vec_capacity, length};
    ghost use Rattle.std.specs.List.{All};
    ghost use Rattle.packed.specs.View.{PackedView};

    ghost Value = { PackedView H };

    ghost use Rattle.packed.specs.Unpacked.{unpacked, IsWithin};

    ghost view = { λ p. record { items = unpacked p.bytes.items p.runs.items; room = vec_capacity p.runs - vec_len p.runs; room_bytes = p.room_bytes } };

    ghost invariant = { λ p. All (IsWithin (vec_len p.bytes)) p.runs.items × (vec_len p.bytes + p.room_bytes < 2 ^ 32) × (vec_len p.bytes + p.room_bytes ≤ vec_capacity p.bytes) };
}

/// So few bytes are put one by one, which is faster for them.
const FEW: usize = 8;

// Puts bytes at the end of a store that has room for them.
fn append(store: &mut Vec<u8>, bytes: &[u8])
    requires { vec_len store.old + length bytes.now ≤ vec_capacity store.old }
    ensures items { store.new.items ≡ store.old.items ++ bytes.now }
    ensures room { vec_capacity store.old ≤ vec_capacity store.new }
{
    if bytes.len() > FEW {
        let _ = store.extend_from_slice(bytes);
    } else {
        for byte in bytes {
            store.push_reserved(*byte);
        }
    }
}

impl<H: Drop> Packed<H> {
    /// Nothing yet, with room for so many heads, and for so many bytes of all of them together.
    pub fn with_room(alloc: Global, heads: usize, bytes: u32) -> Result<Self, AllocError>
        ensures { IfOk result (λ p. p ≡ record { items = []; room = heads; room_bytes = bytes }) }
    {
        Ok(Packed {
            runs: Vec::with_capacity(alloc, heads)?,
            bytes: Vec::with_capacity(alloc, bytes as usize)?,
            room_bytes: bytes,
        })
    }

    pub fn len(&self) -> usize
        ensures { result ≡ length self.now.items }
    {
        self.runs.len()
    }

    pub fn is_empty(&self) -> bool
        ensures { IsTrue result ↔ (self.now.items ≡ []) }
    {
        self.runs.is_empty()
    }

    /// Puts a head and its bytes at the end. It takes no memory.
    #[inline(always)]
    pub fn push(&mut self, head: H, bytes: &[u8])
        requires room { 0 < self.old.room }
        requires room_bytes { length bytes.now ≤ self.old.room_bytes }
        requires short { length bytes.now < 2 ^ 16 }
        ensures items { self.new.items ≡ self.old.items ++ (head, bytes.now) ∷ [] }
        ensures room { self.new.room + 1 ≡ self.old.room }
        ensures room_bytes { self.new.room_bytes + length bytes.now ≡ self.old.room_bytes }
    {
        let start = self.bytes.len() as u32;
        let len = bytes.len() as u16;
        append(&mut self.bytes, bytes);
        self.room_bytes -= u32::from(len);
        self.runs.push_reserved(Run { head, start, len });
    }

    /// The head at a place, and its bytes.
    pub fn get(&self, place: usize) -> (&H, &[u8])
        requires { place < length self.now.items }
        ensures { (result.0.now, result.1.now) ≡ slice_index_or self.now.items place (result.0.now, result.1.now) }
    {
        let run = &self.runs[place];
        let start = run.start as usize;
        (&run.head, &self.bytes[start..start + usize::from(run.len)])
    }

    /// Makes room for so many heads and bytes. The items stay and no room is lost, also where it fails: that comes of
    /// being out of memory, or where there would be 4 GB of bytes.
    pub fn reserve(&mut self, heads: usize, bytes: u32) -> Result<(), AllocError>
        ensures items { self.new.items ≡ self.old.items }
        ensures room { self.old.room ≤ self.new.room }
        ensures room_bytes { self.old.room_bytes ≤ self.new.room_bytes }
        ensures ok { OnOk result ((heads ≤ self.new.room) × (bytes ≤ self.new.room_bytes)) }
    {
        if bytes > self.room_bytes {
            if bytes >= u32::MAX - self.bytes.len() as u32 {
                return Err(AllocError);
            }
            self.bytes.reserve(bytes as usize)?;
            self.room_bytes = bytes;
        }
        self.runs.reserve(heads)
    }
}
