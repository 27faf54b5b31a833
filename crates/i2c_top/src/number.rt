//! The number that a word of a command line names.
ghost use Rattle.std.specs.Prelude.{◌≡◌, ◌≤◌, Some, IfSome};
ghost use Rattle.std.specs.Char.{is_ascii_digit};
ghost use Rattle.std.specs.List.{list_all};
ghost use Rattle.tools.specs.Numbers.{is_decimal, within};
ghost use Rattle.i2c_top.specs.Numbers.{is_numeral, number_named};

// It has a byte, and several don't begin with 0.
fn is_decimal(word: &[u8]) -> bool
    ensures { result ≡ is_decimal word.now }
{
    !word.is_empty() && (word[0] != b'0' || word.len() == 1)
}

// It has decimal digits alone.
fn are_digits(word: &[u8]) -> bool
    ensures { result ≡ list_all is_ascii_digit word.now }
{
    word.iter().all(|byte| byte.is_ascii_digit())
}

#[tactic(auto, using(crate::proofs::NumberLemmas::all_digits))]
fn is_numeral(word: &[u8]) -> bool
    ensures { result ≡ is_numeral word.now }
{
    is_decimal(word) && are_digits(word)
}

// A number, where it is from low to high.
fn within(low: u64, high: u64, number: u64) -> Option<u64>
    ensures value { result ≡ within low high (Some number) }
    ensures low { IfSome result (λ n. low ≤ n) }
    ensures high { IfSome result (λ n. n ≤ high) }
{
    if low <= number && number <= high {
        Some(number)
    } else {
        None
    }
}

/// The number that a word names, where it is from low to high.
pub fn number_named(word: &str, low: u64, high: u64) -> Option<u64>
    ensures value { result ≡ number_named low high word.now }
    ensures low { IfSome result (λ n. low ≤ n) }
    ensures high { IfSome result (λ n. n ≤ high) }
{
    if !is_numeral(word.as_bytes()) {
        return None;
    }
    match word.parse::<u64>() {
        Ok(number) => within(low, high, number),
        Err(_) => None,
    }
}
