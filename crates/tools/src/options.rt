//! What several lines have in common: their options, BUS, ADDR and REG.

ghost use Rattle.std.specs.Prelude.{◌≡◌, ◌+◌, ◌<◌, ◌≤◌, IfOk};
ghost use Rattle.tools.specs.Options.{bus_number, address, byte, options_at};
ghost use Rattle.tools.specs.Readers.{texts, one_at};

use crate::fault::WordRefused;
use crate::reader::{is_at, number_at};
use i2c_base::Addr;

/// Reads `-f`, which may be missing, and `-y`, in any order. Tells whether `-f` is there, and the place after both.
#[tactic(auto, unfolding(crate::specs::Options::options_at))]
pub fn options(words: &[&[u8]], at: u16) -> Result<(bool, u16), WordRefused>
    requires { at < 2 }
    ensures gives { result ≡ options_at (texts words.now) at }
    ensures near { IfOk result (λ o. o.1 ≤ at + 2) }
{
    if is_at(words, at, b"-f") {
        if is_at(words, at + 1, b"-y") {
            Ok((true, at + 2))
        } else {
            Err(WordRefused(at + 1))
        }
    } else if is_at(words, at, b"-y") {
        if is_at(words, at + 1, b"-f") {
            Ok((true, at + 2))
        } else {
            Ok((false, at + 1))
        }
    } else {
        Err(WordRefused(at))
    }
}

/// The number of the bus in the word at a place.
pub fn bus_at(words: &[&[u8]], at: u16) -> Result<u16, WordRefused>
    ensures { result ≡ one_at bus_number.of (texts words.now) at }
{
    number_at(words, at, 0, u16::MAX)
}

/// The address in the word at a place.
pub fn address_at(words: &[&[u8]], at: u16) -> Result<Addr, WordRefused>
    ensures { result ≡ one_at address.of (texts words.now) at }
{
    let number = number_at(words, at, u16::from(Addr::FIRST), u16::from(Addr::LAST))?;
    match Addr::new(number as u8) {
        Some(addr) => Ok(addr),
        None => Err(WordRefused(at)),
    }
}

/// The byte in the word at a place, as the number of a register is.
pub fn byte_at(words: &[&[u8]], at: u16) -> Result<u8, WordRefused>
    ensures { result ≡ one_at byte.of (texts words.now) at }
{
    let number = number_at(words, at, 0, 255)?;
    Ok(number as u8)
}
