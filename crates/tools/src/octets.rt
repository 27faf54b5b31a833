//! Bytes as the rest of a line.

ghost use Rattle.std.specs.Prelude.{◌≡◌, ◌<◌, ◌≤◌, [], Ok, MatchResult};
ghost use Rattle.tools.specs.ByteLists.{bytes_at};
ghost use Rattle.tools.specs.Readers.{texts, FaultIs};

use crate::fault::LineFault;
use crate::lists::Octets;
use crate::options::byte_at;
use crate::reader::is_past;

/// Reads the bytes from a place on into a list without any: one at least, and at most so many. The line ends after them.
pub fn read_bytes(
    words: &[&[u8]],
    from: u16,
    most: u16,
    bytes: &mut Octets,
) -> Result<(), LineFault>
    requires near { from < 100 }
    requires some { 0 < most }
    requires few { most ≤ 512 }
    requires empty { bytes.old ≡ [] }
    ensures { MatchResult result (λ _. bytes_at most [] (texts words.now) from ≡ Ok bytes.new) (FaultIs (bytes_at most [] (texts words.now) from)) }
{
    let mut at = from;
    for _ in 0..most {
        let byte = byte_at(words, at)?;
        bytes.push(byte)?;
        at += 1;
        if is_past(words, at) {
            return Ok(());
        }
    }
    Err(LineFault::Word(at))
}
