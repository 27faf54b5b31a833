//! The trait of a shelf: the files that a command line names.
ghost use Rattle.std.specs.Prelude.{◌≡◌, ◌≢◌, ℕ, ◌^◌, ◌≤◌, Bool, List, Option, Some, Err, IfOk, IsTrue, length, slice_get};
ghost use Rattle.ports.specs.Causes.{Rose};

use crate::ReadFail;
use std::alloc::Global;

/// How many places a command line has.
pub(crate) const PLACES: usize = 16;

/// The most bytes that a file of a shelf has: 2^28.
pub(crate) const LARGEST: usize = 1 << 28;

/// The files that a command line names, each read by its place among the words.
pub trait Shelf {
    /// It tells what it holds.
    ghost tells: { Bool };

    /// The words of the command line that it was made over.
    ghost words: { Self → List (List ℕ) };

    /// The bytes of a file by its name, where there is such a file.
    ghost file: { Self → List ℕ → Option (List ℕ) };

    /// How many faults were counted at each place.
    ghost faults: { Self → ℕ → ℕ };

    /// Reads the file that the word at this place names. It has at most 2^28 bytes.
    fn read(&mut self, alloc: Global, place: u8, name: &str) -> Result<Vec<u8>, ReadFail>
        requires low { place ≤ 15 }
        requires named { slice_get (words self.old) place ≡ Some name.now }
        ensures words { words self.new ≡ words self.old }
        ensures files { (n : List ℕ) → file self.new n ≡ file self.old n }

        // A failure is counted at this place, and at no other.
        ensures cause { result ≡ Err ReadFail.Failed → Rose (faults self.old place) (faults self.new place) }
        ensures later { faults self.old place ≤ faults self.new place }
        ensures others { (p : ℕ) → p ≢ place → faults self.new p ≡ faults self.old p }

        ensures bytes { IsTrue tells → IfOk result (λ v. file self.old name.now ≡ Some v.items) }
        ensures small { IfOk result (λ v. length v.items ≤ 2 ^ 28) };
}
