//! A text, written to a sink piece by piece.
ghost use Rattle.std.specs.Prelude.{◌≡◌, ◌≤◌, ◌++◌, ℕ, length, take, drop, true, false, IsTrue};
ghost use Rattle.ports.specs.Causes.{Rose};
ghost use Rattle.i2c_top.specs.Written.{HasFront, lines_of};

use crate::text::ReportText;
use bus_journal::Journal;
use i2c_outside::Sink;

// What stands behind the first bytes of a text.
fn rest(text: &[u8], done: usize) -> &[u8]
    requires { done ≤ length text.now }
    ensures { result.now ≡ drop done text.now }
{
    &text[done..]
}

/// Writes a text piece by piece until all of it is out, and says whether it is. Else its front was written.
pub fn write_all<K: Sink>(sink: &mut K, text: &[u8]) -> bool
    ensures cause { result ≡ false → Rose (K.faults sink.old) (K.faults sink.new) }
    ensures later { K.faults sink.old ≤ K.faults sink.new }
    ensures whole { IsTrue K.tells → result ≡ true → K.bytes sink.new ≡ K.bytes sink.old ++ text.now }
    ensures front { IsTrue K.tells → HasFront (K.bytes sink.old) text.now (K.bytes sink.new) }
{
    let mut done = 0usize;
    while done < text.len() {
        match sink.write(rest(text, done)) {
            Ok(count) => done += count,
            Err(_) => return false,
        }
    }
    true
}

// The same for the lines of journals.
fn write_journals<K: Sink>(sink: &mut K, journals: &[Journal]) -> bool
    ensures cause { result ≡ false → Rose (K.faults sink.old) (K.faults sink.new) }
    ensures later { K.faults sink.old ≤ K.faults sink.new }
    ensures whole { IsTrue K.tells → result ≡ true → K.bytes sink.new ≡ K.bytes sink.old ++ lines_of journals.now }
    ensures front { IsTrue K.tells → HasFront (K.bytes sink.old) (lines_of journals.now) (K.bytes sink.new) }
{
    for journal in journals {
        if !write_all(sink, journal.text()) {
            return false;
        }
    }
    true
}

// The same for the lines of journals, and after them a text.
fn write_behind<K: Sink>(sink: &mut K, journals: &[Journal], back: &[u8]) -> bool
    ensures cause { result ≡ false → Rose (K.faults sink.old) (K.faults sink.new) }
    ensures later { K.faults sink.old ≤ K.faults sink.new }
    ensures whole { IsTrue K.tells → result ≡ true → K.bytes sink.new ≡ K.bytes sink.old ++ (lines_of journals.now ++ back.now) }
    ensures front { IsTrue K.tells → HasFront (K.bytes sink.old) (lines_of journals.now ++ back.now) (K.bytes sink.new) }
{
    write_journals(sink, journals) && write_all(sink, back)
}

/// The same for a text in pieces, each of which is written after the whole of those before it.
pub fn write_pieces<K: Sink>(sink: &mut K, text: &ReportText) -> bool
    ensures cause { result ≡ false → Rose (K.faults sink.old) (K.faults sink.new) }
    ensures later { K.faults sink.old ≤ K.faults sink.new }
    ensures whole { IsTrue K.tells → result ≡ true → K.bytes sink.new ≡ K.bytes sink.old ++ text.now }
    ensures front { IsTrue K.tells → HasFront (K.bytes sink.old) text.now (K.bytes sink.new) }
{
    let (front, journals, back) = text.pieces();
    write_all(sink, front) && write_behind(sink, journals, back)
}
