//! The words of the command line, which stand behind the name of the program.
ghost use Rattle.std.specs.Prelude.{◌≡◌, map, string_bytes};

use std::alloc::{AllocError, Global};
use std::env::{Env, FillError};
use std::marker::Model;
use std::str::from_utf8;

/// The bytes that a word is read into at first.
const ROOM: usize = 256;

/// The words of the command line. Only `words_of` makes them. A contract sees the bytes of each.
#[derive(Drop)]
pub struct Words {
    words: Vec<String>,
}

impl Model for Words {
    ghost use Rattle.std.specs.Prelude.{ℕ, List, map, string_bytes};

    ghost Value = { List (List ℕ) };

    ghost view = { λ w. map string_bytes w.words.items };
}

impl Words {
    pub fn as_slice(&self) -> &[String]
        ensures { map string_bytes result.now ≡ self.now }
    {
        self.words.as_slice()
    }
}

// These bytes as a text, and an empty one where they aren't UTF-8.
fn text_of(alloc: Global, bytes: &[u8]) -> Result<String, AllocError> {
    match from_utf8(bytes) {
        Ok(text) => String::from_str(alloc, text),
        Err(_) => Ok(String::new(alloc)),
    }
}

// The word at a place, none after the last one. It is read into this room, which is doubled until the word fits.
fn word_at<R: Env>(
    rt: &R,
    alloc: Global,
    place: usize,
    room: &mut Vec<u8>,
) -> Result<Option<String>, AllocError> {
    for _ in 0..usize::BITS {
        match rt.arg(place, room.as_mut_slice()) {
            Ok(len) => return Ok(Some(text_of(alloc, &room[..len])?)),
            Err(FillError::NotPresent) => return Ok(None),
            Err(FillError::TooLong) => room.resize(room.len().saturating_mul(2), 0)?,
        }
    }
    Err(AllocError)
}

/// The words of the command line, without the name of the program, which is no word and may be anything. One that isn't UTF-8
/// is an empty word, which is the name of no file. `Err` is being out of memory.
pub fn words_of<R: Env>(rt: &R, alloc: Global) -> Result<Words, AllocError> {
    let mut words = Vec::new(alloc);
    let mut room = vec![in alloc; 0; ROOM]?;
    for place in 1..usize::MAX {
        let Some(word) = word_at(rt, alloc, place, &mut room)? else {
            break;
        };
        words.push(word)?;
    }
    Ok(Words { words })
}
