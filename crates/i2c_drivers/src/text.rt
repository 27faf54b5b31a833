//! The names of errors, and numbers, at the end of a text.

ghost use Rattle.std.specs.Prelude.{◌≡◌, pos, neg_ℤ, ◌≤ℤ◌, ◌+◌, ◌≤◌, [], ◌++◌, length};
ghost use Rattle.std.specs.Fmt.{decimal, signed_decimal};
ghost use Rattle.std.specs.List.{flat_map};
ghost use Rattle.bus_journal.specs.Reports.{line_ended};
ghost use Rattle.bus_spec.specs.Lines.{errno_text};
ghost use Rattle.tools.specs.Lm75Lines.{IsMilli};
ghost use Rattle.i2c_drivers.specs.Refusals.{refused};

use bus_journal::errno_name;
use i2c_base::Errno;
use tools::Text;

/// The most bytes of the name of an error, with the end of its line.
pub const MOST_OF_ERRNO: usize = 11;

/// Prints the name of an error.
pub fn push_errno(out: &mut Text, errno: Errno)
    requires { 10 ≤ out.old.room }
    ensures bytes { out.new.bytes ≡ out.old.bytes ++ errno_text errno }
    ensures room { out.old.room ≤ out.new.room + 10 }
{
    out.push(errno_name(errno));
}

/// Prints the name of an error on a line.
pub fn push_errno_line(out: &mut Text, errno: Errno)
    requires { 11 ≤ out.old.room }
    ensures bytes { out.new.bytes ≡ out.old.bytes ++ line_ended (errno_text errno) }
    ensures room { out.old.room ≤ out.new.room + 11 }
{
    out.push(errno_name(errno));
    out.push_byte(b'\n');
}

/// Prints a refusal: the name of an error alone.
pub fn push_refusal(out: &mut Text, errno: Errno)
    requires { (refused errno).most ≤ out.old.room }
    ensures bytes { out.new.bytes ≡ out.old.bytes ++ flat_map line_ended ((refused errno).lines []) }
    ensures room { out.old.room ≤ out.new.room + (refused errno).most }
{
    out.push(errno_name(errno));
    out.push_byte(b'\n');
}

/// How many bytes it has.
pub fn refusal_size(errno: Errno) -> usize
    ensures { result ≡ (refused errno).most }
{
    errno_name(errno).len() + 1
}

/// Prints a number in decimal.
#[tactic(auto, using(std::proofs::lemmas::Fmt::decimal_digit, bus_journal::proofs::Decimal::digits_more, crate::proofs::TextLemmas::one_more))]
pub fn push_number(out: &mut Text, number: u32)
    requires { length (decimal number) ≤ out.old.room }
    ensures bytes { out.new.bytes ≡ out.old.bytes ++ decimal number }
    ensures room { out.old.room ≤ out.new.room + length (decimal number) }
{
    if number < 10 {
        out.push_byte(b'0' + number as u8);
    } else {
        push_number(out, number / 10);
        out.push_byte(b'0' + (number % 10) as u8);
    }
}

/// Prints a temperature in decimal, with `-` before one below 0.
#[tactic(auto, using(crate::proofs::TextLemmas::six_digits))]
pub fn push_milli(out: &mut Text, milli: i32)
    requires range { IsMilli milli }
    requires room { 7 ≤ out.old.room }
    ensures bytes { out.new.bytes ≡ out.old.bytes ++ signed_decimal milli }
    ensures room { out.old.room ≤ out.new.room + 7 }
{
    if milli < 0 {
        out.push_byte(b'-');
    }
    push_number(out, milli.unsigned_abs());
}
