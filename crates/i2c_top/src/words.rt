//! The words of a command line, as the names of files.
ghost use Rattle.std.specs.Prelude.{◌≡◌, ◌<◌, ◌≤◌, length, drop, map, string_bytes};
ghost use Rattle.std.specs.List.{list_all};
ghost use Rattle.tools.specs.Readers.{word_at};
ghost use Rattle.i2c_top.specs.Endings.{name_in};
ghost use Rattle.i2c_top.specs.Names.{is_name, are_names};

use crate::Status;

/// The place of the board among the words.
pub const BOARD: u8 = 1;

/// The word at a place.
pub fn word_at(words: &[String], place: usize) -> &str
    requires { place < length words.now }
    ensures { result.now ≡ word_at (map string_bytes words.now) place }
{
    words[place].as_str()
}

/// The words from a place on.
pub fn words_from(words: &[String], place: usize) -> &[String]
    requires { place ≤ length words.now }
    ensures { map string_bytes result.now ≡ drop place (map string_bytes words.now) }
{
    &words[place..]
}

/// Whether a word may be a name.
pub fn is_name(word: &str) -> bool
    ensures { result ≡ is_name word.now }
{
    match word.as_bytes().first() {
        None => false,
        Some(byte) => *byte != b'-',
    }
}

// Each of the words may be.
fn each_is_name(words: &[String]) -> bool
    ensures { result ≡ list_all (λ w. is_name (string_bytes w)) words.now }
{
    words.iter().all(|word| is_name(word.as_str()))
}

/// Whether all words after the first may be.
pub fn are_names(words: &[String]) -> bool
    requires { 1 ≤ length words.now }
    ensures { result ≡ are_names (map string_bytes words.now) }
{
    each_is_name(words_from(words, 1))
}

/// The name in the line of a refusal: that of the file that was not read, which is the word at its place.
pub fn name_in<'a>(words: &'a [String], refusal: &Status) -> &'a [u8]
    ensures { result.now ≡ name_in (map string_bytes words.now) refusal.now }
{
    match refusal {
        Status::Read(place) => match words.get(usize::from(*place)) {
            None => b"",
            Some(word) => word.as_str().as_bytes(),
        },
        _ => b"",
    }
}
