//! A shelf in memory, whose reads fail where it is told.
ghost use Rattle.std.specs.Prelude.{◌≡◌, ◌≢◌, ◌↔◌, ℕ, ◌^◌, ◌≤◌, true, List, Some, Err, IfOk, OnErr, IsTrue, map, length, replicate, slice_get, slice_index, slice_set, string_bytes};
ghost use Rattle.ports.specs.Causes.{Rose, counted};
ghost use Rattle.i2c_outside.specs.Shelves.{held, is_refused};

use crate::shelf::{LARGEST, PLACES};
use crate::{ReadFail, Shelf, is_listed};
use std::alloc::Global;
use std::collections::BTreeMap;

/// A shelf in memory: the words of a command line, the files by name, and the numbers of the reads that fail.
#[derive(Drop)]
pub struct MapShelf {
    words: Vec<String>,
    files: BTreeMap<String, Vec<u8>>,
    fails: Vec<u32>,
    reads: u64,
    faults: [u64; PLACES],
}

impl MapShelf {
    /// A shelf over these words. The reads whose numbers, from 0, stand in `fails` fail.
    pub fn new(words: Vec<String>, files: BTreeMap<String, Vec<u8>>, fails: Vec<u32>) -> Self
        ensures { result ≡ record { words = words; files = files; fails = fails; reads = 0; faults = replicate 16 0 } }
    {
        MapShelf {
            words,
            files,
            fails,
            reads: 0,
            faults: [0; PLACES],
        }
    }

    /// How many faults were counted at this place.
    pub fn faults(&self, place: u8) -> u64
        requires { place ≤ 15 }
        ensures { result ≡ slice_index self.now.faults place }
    {
        self.faults[usize::from(place)]
    }
}

impl Shelf for MapShelf {
    ghost tells = { true };

    ghost words = { λ s. map string_bytes s.words.items };

    ghost file = { λ s n. held s.files n };

    ghost faults = { λ s p. slice_index s.faults p };

    /// It fails exactly where the read's number is listed, the name isn't held, or its file is too large.
    fn read(&mut self, alloc: Global, place: u8, name: &str) -> Result<Vec<u8>, ReadFail>
        requires low { place ≤ 15 }
        requires named { slice_get (map string_bytes self.old.words.items) place ≡ Some name.now }
        ensures words { self.new.words ≡ self.old.words }
        ensures files { self.new.files ≡ self.old.files }
        ensures cause { result ≡ Err ReadFail.Failed → Rose (slice_index self.old.faults place) (slice_index self.new.faults place) }
        ensures later { slice_index self.old.faults place ≤ slice_index self.new.faults place }
        ensures others { (p : ℕ) → p ≢ place → slice_index self.new.faults p ≡ slice_index self.old.faults p }
        ensures bytes { IfOk result (λ v. held self.old.files name.now ≡ Some v.items) }
        ensures small { IfOk result (λ v. length v.items ≤ 2 ^ 28) }

        // Which reads fail, and what is counted.
        ensures exact { result ≡ Err ReadFail.Failed ↔ IsTrue (is_refused self.old.fails.items self.old.reads (held self.old.files name.now)) }
        ensures fails { self.new.fails ≡ self.old.fails }
        ensures reads { self.new.reads ≡ counted self.old.reads }
        ensures fault { result ≡ Err ReadFail.Failed → self.new.faults ≡ slice_set self.old.faults place (counted (slice_index self.old.faults place)) }
        ensures calm { result ≢ Err ReadFail.Failed → self.new.faults ≡ self.old.faults }
    {
        let told_to_fail = is_listed(self.fails.as_slice(), self.reads);
        self.reads = self.reads.saturating_add(1);
        match self.files.get(name) {
            Some(bytes) if !told_to_fail && bytes.len() <= LARGEST => {
                Ok(Vec::from_slice(alloc, bytes.as_slice())?)
            }
            _ => {
                let count = self.faults[usize::from(place)];
                self.faults[usize::from(place)] = count.saturating_add(1);
                Err(ReadFail::Failed)
            }
        }
    }
}
