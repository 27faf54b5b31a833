//! A text in pieces, which are written one after the other.
ghost use Rattle.std.specs.Prelude.{◌≡◌, ◌++◌};
ghost use Rattle.i2c_top.specs.Written.{lines_of};

use bus_journal::Journal;
use std::alloc::Global;
use std::marker::Model;

/// The text of a success, in pieces, so that none is copied after another: bytes, the lines of journals, and bytes again. A
/// contract sees the bytes of all.
#[derive(Drop)]
pub struct ReportText {
    front: Vec<u8>,
    journals: Vec<Journal>,
    back: Vec<u8>,
}

impl Model for ReportText {
    ghost use Rattle.std.specs.Prelude.{ℕ, List, ◌++◌};
    ghost use Rattle.i2c_top.specs.Written.{lines_of};

    ghost Value = { List ℕ };

    ghost view = { λ t. t.front.items ++ (lines_of t.journals.items ++ t.back.items) };
}

impl ReportText {
    pub fn new(front: Vec<u8>, journals: Vec<Journal>, back: Vec<u8>) -> Self
        ensures { result ≡ front.items ++ (lines_of journals.items ++ back.items) }
    {
        ReportText {
            front,
            journals,
            back,
        }
    }

    /// A text in one piece.
    pub fn whole(alloc: Global, bytes: Vec<u8>) -> Self
        ensures { result ≡ bytes.items }
    {
        ReportText::new(bytes, Vec::new(alloc), Vec::new(alloc))
    }

    /// Its pieces, in their order.
    pub fn pieces(&self) -> (&[u8], &[Journal], &[u8])
        ensures { self.now ≡ result.0.now ++ (lines_of result.1.now ++ result.2.now) }
    {
        (
            self.front.as_slice(),
            self.journals.as_slice(),
            self.back.as_slice(),
        )
    }
}
