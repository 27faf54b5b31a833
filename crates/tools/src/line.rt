//! A line of a script: the command that it is read as, or its first refused word.

ghost use Rattle.std.specs.Prelude.{◌≡◌, ◌+◌, ◌≤◌, true, length, Ok, OnOk, MatchResult};
ghost use Rattle.tools.specs.Commands.{MOST_WORDS};
ghost use Rattle.tools.specs.Lines.{is_command, line_read};
ghost use Rattle.tools.specs.Readers.{texts, FaultIs};
ghost use Rattle.tools.specs.Splits.{words_of, joined_words};

use crate::command::{Cmd, MOST_WORDS, read_command};
use crate::fault::LineFault;
use crate::split::LineWords;
use std::alloc::Global;

// The words are a command: there are some, and the first doesn't begin with `#`.
fn is_command(words: &[&[u8]]) -> bool
    ensures { result ≡ is_command (texts words.now) }
{
    match words.first() {
        None => false,
        Some(word) => match word.first() {
            None => true,
            Some(byte) => *byte != b'#',
        },
    }
}

/// Reads a line of a script: none where it is empty or a comment. `words` is room for its words, and `limit` the block
/// limit of the board, 1 to 255 bytes. No more words are kept than the longest line of the grammar has, and one, by which
/// it is seen that a line is too long; so a longer line takes no more memory. The lists of the command are taken from
/// `alloc`.
pub fn read_line<'a>(
    alloc: Global,
    words: &mut LineWords<'a>,
    line: &'a [u8],
    limit: u8,
) -> Result<Option<Cmd>, LineFault>
    requires { 1 ≤ limit }
    ensures read { MatchResult result (λ o. line_read limit line.now ≡ Ok o) (FaultIs (line_read limit line.now)) }
    ensures kept { length words.new.words.items ≤ MOST_WORDS + 1 }
    ensures joined { OnOk result (words.new.joined ≡ true → joined_words (words_of line.now) ≡ line.now) }
{
    words.split_front(line, MOST_WORDS + 1)?;
    let words = words.words.as_slice();
    if !is_command(words) {
        return Ok(None);
    }
    match read_command(alloc, words, limit) {
        Ok(command) => Ok(Some(command)),
        Err(fault) => Err(fault),
    }
}
