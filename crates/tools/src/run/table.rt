//! What the rows of printed tables have in common.

ghost use Rattle.std.specs.Prelude.{◌≡◌, ◌+◌, ◌≤◌, ◌∷◌, ◌++◌};
ghost use Rattle.bus_spec.specs.Lines.{two_digits};
ghost use Rattle.tools.specs.Tables.{row_front};

use crate::text::Text;
use bus_journal::hex_digit;

/// Prints the number of a row's first cell, as the row begins.
pub fn push_row_front(out: &mut Text, row: u8)
    requires { 3 ≤ out.old.room }
    ensures bytes { out.new.bytes ≡ out.old.bytes ++ row_front row }
    ensures room { out.old.room ≤ out.new.room + 3 }
{
    out.push(&[hex_digit(row / 16), hex_digit(row % 16), b':']);
}

/// Prints a cell of two digits, with a space before them.
pub fn push_digits_cell(out: &mut Text, byte: u8)
    requires { 3 ≤ out.old.room }
    ensures bytes { out.new.bytes ≡ out.old.bytes ++ 32 ∷ two_digits byte }
    ensures room { out.old.room ≤ out.new.room + 3 }
{
    out.push(&[b' ', hex_digit(byte / 16), hex_digit(byte % 16)]);
}
