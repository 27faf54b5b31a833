//! Numbers in words: decimal, or `0x` and hexadecimal digits.

ghost use Rattle.std.specs.Prelude.{◌≡◌, ◌<◌, ◌≤◌, ◌&&◌, drop, length, Some, IfSome};
ghost use Rattle.tools.specs.Numbers.{decimal_digit, hexadecimal_digit, digit_of, digits_on, within, number_in_word, number_in, is_hexadecimal, is_decimal};

/// The largest number of a script.
const LARGEST: u32 = 128_000;

fn decimal_digit(byte: u8) -> Option<u8>
    ensures { result ≡ decimal_digit byte }
{
    match byte {
        b'0'..=b'9' => Some(byte - b'0'),
        _ => None,
    }
}

fn hexadecimal_digit(byte: u8) -> Option<u8>
    ensures { result ≡ hexadecimal_digit byte }
{
    match byte {
        b'0'..=b'9' => Some(byte - b'0'),
        b'a'..=b'f' => Some(byte - b'a' + 10),
        b'A'..=b'F' => Some(byte - b'A' + 10),
        _ => None,
    }
}

fn digit(hexadecimal: bool, byte: u8) -> Option<u8>
    ensures { result ≡ digit_of hexadecimal byte }
{
    if hexadecimal {
        hexadecimal_digit(byte)
    } else {
        decimal_digit(byte)
    }
}

// The value of these digits, where it is at most `LARGEST`.
fn value(hexadecimal: bool, digits: &[u8]) -> Option<u32>
    ensures { result ≡ within 0 128000 (digits_on hexadecimal 0 digits.now) }
{
    let base = if hexadecimal { 16 } else { 10 };
    let mut value = 0u32;
    for byte in digits {
        let digit = digit(hexadecimal, *byte)?;
        value = value * base + u32::from(digit);
        if value > LARGEST {
            return None;
        }
    }
    Some(value)
}

// It is `0x` and hexadecimal digits.
fn is_hexadecimal(word: &[u8]) -> bool
    ensures { result ≡ is_hexadecimal word.now }
{
    word.len() > 2 && word[0] == b'0' && word[1] == b'x'
}

// It has a digit, and several don't begin with 0.
fn is_decimal(word: &[u8]) -> bool
    ensures { result ≡ is_decimal word.now }
{
    !word.is_empty() && (word[0] != b'0' || word.len() == 1)
}

// What stands behind `0x`.
fn behind_prefix(word: &[u8]) -> &[u8]
    requires { 2 ≤ length word.now }
    ensures { result.now ≡ drop 2 word.now }
{
    &word[2..]
}

// The number in a word, where it is at most `LARGEST`.
fn number(word: &[u8]) -> Option<u32>
    ensures { result ≡ within 0 128000 (number_in_word word.now) }
{
    if is_hexadecimal(word) {
        value(true, behind_prefix(word))
    } else if is_decimal(word) {
        value(false, word)
    } else {
        None
    }
}

/// The number in a word, where it is from `low` to `high`, which is at most 128,000: decimal, or `0x` and hexadecimal digits.
pub fn long_number_in(word: &[u8], low: u32, high: u32) -> Option<u32>
    requires { high ≤ 128000 }
    ensures value { result ≡ number_in low high word.now }
    ensures high { IfSome result (λ n. n ≤ high) }
{
    let number = number(word)?;
    if low <= number && number <= high {
        Some(number)
    } else {
        None
    }
}

/// The same, of 16 bits.
pub fn number_in(word: &[u8], low: u16, high: u16) -> Option<u16>
    ensures value { result ≡ number_in low high word.now }
    ensures high { IfSome result (λ n. n ≤ high) }
{
    let number = long_number_in(word, u32::from(low), u32::from(high))?;
    Some(number as u16)
}

/// The number in a word, to 255.
pub fn byte_in(word: &[u8]) -> Option<u8>
    ensures { result ≡ number_in 0 255 word.now }
{
    let number = number_in(word, 0, 255)?;
    Some(number as u8)
}
