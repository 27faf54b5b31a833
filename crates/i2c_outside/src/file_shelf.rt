//! A shelf over the files of a file system.
ghost use Rattle.std.specs.Prelude.{◌≡◌, ◌≤◌, false, None, map, replicate, slice_index, string_bytes};

use crate::shelf::{LARGEST, PLACES};
use crate::{ReadFail, Shelf};
use std::alloc::Global;
use std::io::{ErrorKind, Read};
use std::rt::Files;
use std::{fs, io};

/// The files of a file system, by the words of the command line. A file above 2^28 bytes is a fault.
#[derive(Drop)]
pub struct FileShelf<'r, R: Files> {
    files: &'r R,
    words: &'r [String],
    faults: [u64; PLACES],
}

impl<'r, R: Files> FileShelf<'r, R> {
    /// A shelf over these words, whose reads go to `files`.
    pub fn new(files: &'r R, words: &'r [String]) -> Self
        ensures words { map string_bytes result.words.now ≡ map string_bytes words.now }
        ensures faults { result.faults ≡ replicate 16 0 }
    {
        FileShelf {
            files,
            words,
            faults: [0; PLACES],
        }
    }

    /// How many faults were counted at this place.
    pub fn faults(&self, place: u8) -> u64
        requires { place ≤ 15 }
        ensures { result ≡ slice_index self.now.faults place }
    {
        self.faults[usize::from(place)]
    }
}

impl<'r, R: Files> Shelf for FileShelf<'r, R> {
    ghost tells = { false };

    ghost words = { λ s. map string_bytes s.words.now };

    ghost file = { λ s n. None };

    ghost faults = { λ s p. slice_index s.faults p };

    fn read(&mut self, alloc: Global, place: u8, name: &str) -> Result<Vec<u8>, ReadFail> {
        match read_file(self.files, alloc, name) {
            Ok(bytes) if bytes.len() <= LARGEST => Ok(bytes),
            Err(error) if matches!(error.kind(), ErrorKind::OutOfMemory) => Err(ReadFail::Memory),
            _ => {
                let count = self.faults[usize::from(place)];
                self.faults[usize::from(place)] = count.saturating_add(1);
                Err(ReadFail::Failed)
            }
        }
    }
}

/// The bytes of a file, no more than one above the largest that a shelf gives.
fn read_file<R: Files>(files: &R, alloc: Global, name: &str) -> io::Result<Vec<u8>> {
    let file = fs::open(files, name)?;
    let mut bytes = Vec::new(alloc);
    file.take(LARGEST as u64 + 1).read_to_end(&mut bytes)?;
    Ok(bytes)
}
