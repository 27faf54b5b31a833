//! Bytes and numbers, put at the end of a text.
ghost use Rattle.std.specs.Prelude.{◌≡◌, ℕ, ◌<◌, ◌++◌, OnOk};
ghost use Rattle.std.specs.Fmt.{decimal};
ghost use Rattle.bus_spec.specs.Lines.{hex_digit};

use i2c_base::NoMemory;

/// The digits of 0 to 15.
const DIGITS: [u8; 16] = [
    b'0', b'1', b'2', b'3', b'4', b'5', b'6', b'7', b'8', b'9', b'a', b'b', b'c', b'd', b'e', b'f',
];

/// Puts bytes at the end of a text.
#[inline(always)]
pub fn push_bytes(out: &mut Vec<u8>, bytes: &[u8]) -> Result<(), NoMemory>
    ensures { OnOk result (out.new.items ≡ out.old.items ++ bytes.now) }
{
    out.extend_from_slice(bytes)?;
    Ok(())
}

/// Puts a number in decimal at the end of a text.
#[inline(always)]
#[tactic(auto, using(std::proofs::lemmas::Fmt::decimal_digit))]
pub fn push_number(out: &mut Vec<u8>, number: u64) -> Result<(), NoMemory>
    ensures { OnOk result (out.new.items ≡ out.old.items ++ decimal number) }
{
    if number < 10 {
        out.push(b'0' + number as u8)?;
        Ok(())
    } else {
        push_digits(out, number)
    }
}

// .. digit by digit.
#[tactic(auto, using(std::proofs::lemmas::Fmt::decimal_digit, crate::proofs::Decimal::digits_more))]
fn push_digits(out: &mut Vec<u8>, number: u64) -> Result<(), NoMemory>
    ensures { OnOk result (out.new.items ≡ out.old.items ++ decimal number) }
{
    if number < 10 {
        out.push(b'0' + number as u8)?;
    } else {
        push_digits(out, number / 10)?;
        out.push(b'0' + (number % 10) as u8)?;
    }
    Ok(())
}

/// A digit of 0 to 15.
#[inline(always)]
pub fn hex_digit(value: u8) -> u8
    requires { value < 16 }
    ensures { result ≡ hex_digit value }
{
    DIGITS[usize::from(value)]
}
