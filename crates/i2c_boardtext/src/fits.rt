//! Whether a value is as its key has to have it.
ghost use Rattle.std.specs.Prelude.{◌≡◌, ◌==◌, ◌&&◌, length, map, option_map, is_some};
ghost use Rattle.std.specs.List.{list_all};
ghost use Rattle.toml.specs.Data.{as_table};
ghost use Rattle.toml.specs.View.{view};
ghost use Rattle.i2c_boardtext.specs.Rules.{is_in, is_run_of, is_run, is_array_of, is_pair, are_pairs, fits, fits_if_there};

use crate::find::{items, number};
use crate::names::{idle_in, lock_in, offers_in};
use crate::rule::Test;
use toml::Value;

/// An integer from `low` to `high`.
pub fn is_in(low: u32, high: u32, value: &Value) -> bool
    ensures { result ≡ is_in low high (view value.now) }
{
    match value.as_integer() {
        Some(integer) => i64::from(low) <= integer && integer <= i64::from(high),
        None => false,
    }
}

// All of them are bytes: each by itself, and as one list.
fn each_is_byte(values: &[Value]) -> bool
    ensures { result ≡ list_all (λ v. is_in 0 255 (view v)) values.now }
{
    values.iter().all(|value| is_in(0, 255, value))
}

fn are_bytes(values: &[Value]) -> bool
    ensures { result ≡ list_all (is_in 0 255) (map view values.now) }
{
    each_is_byte(values)
}

// A start and at least one byte, which end within `size` bytes.
fn is_run_of(size: u32, values: &[Value]) -> bool
    ensures { result ≡ is_run_of size (map view values.now) }
{
    match values.split_first() {
        Some((start, bytes)) => {
            is_in(0, size, start)
                && !bytes.is_empty()
                && are_bytes(bytes)
                && number(start) + bytes.len() as u64 <= u64::from(size)
        }
        None => false,
    }
}

fn is_run(size: u32, value: &Value) -> bool
    ensures { result ≡ is_run size (view value.now) }
{
    match items(value) {
        Some(values) => is_run_of(size, values),
        None => false,
    }
}

fn each_is_run(size: u32, runs: &[Value]) -> bool
    ensures { result ≡ list_all (λ v. is_run size (view v)) runs.now }
{
    runs.iter().all(|run| is_run(size, run))
}

fn are_runs(size: u32, value: &Value) -> bool
    ensures { result ≡ is_array_of (is_run size) (view value.now) }
{
    match items(value) {
        Some(runs) => each_is_run(size, runs),
        None => false,
    }
}

fn each_is_table(values: &[Value]) -> bool
    ensures { result ≡ list_all (λ v. is_some (as_table (view v))) values.now }
{
    values.iter().all(|value| value.is_table())
}

fn are_tables(value: &Value) -> bool
    ensures { result ≡ is_array_of (λ d. is_some (as_table d)) (view value.now) }
{
    match items(value) {
        Some(values) => each_is_table(values),
        None => false,
    }
}

// They are two integers from `low` to `high`.
fn are_two(low: u32, high: u32, values: &[Value]) -> bool
    ensures { result ≡ ((length values.now == 2) && list_all (is_in low high) (map view values.now)) }
{
    match values {
        [first, second] => is_in(low, high, first) && is_in(low, high, second),
        _ => false,
    }
}

fn is_pair(low: u32, high: u32, value: &Value) -> bool
    ensures { result ≡ is_pair low high (view value.now) }
{
    match items(value) {
        Some(values) => are_two(low, high, values),
        None => false,
    }
}

fn each_is_pair(low: u32, high: u32, values: &[Value]) -> bool
    ensures { result ≡ list_all (λ v. is_pair low high (view v)) values.now }
{
    values.iter().all(|value| is_pair(low, high, value))
}

fn all_are_pairs(low: u32, high: u32, values: &[Value]) -> bool
    ensures { result ≡ list_all (is_pair low high) (map view values.now) }
{
    each_is_pair(low, high, values)
}

fn are_pairs(low: u32, high: u32, value: &Value) -> bool
    ensures { result ≡ are_pairs low high (view value.now) }
{
    match items(value) {
        Some(values) => !values.is_empty() && all_are_pairs(low, high, values),
        None => false,
    }
}

// The value is as listed.
fn fits(test: Test, value: &Value) -> bool
    ensures { result ≡ fits test (view value.now) }
{
    match test {
        Test::Kind => true,
        Test::Range(low, high) => is_in(low, high, value),
        Test::Flag => value.is_bool(),
        Test::Offers => offers_in(value).is_some(),
        Test::Lock => lock_in(value).is_some(),
        Test::Idle => idle_in(value).is_some(),
        Test::Runs(size) => are_runs(size, value),
        Test::Tables => are_tables(value),
        Test::Pairs(low, high) => are_pairs(low, high, value),
    }
}

/// The value is as listed, or missing.
pub fn fits_if_there(test: Test, value: Option<&Value>) -> bool
    ensures { result ≡ fits_if_there test (option_map (λ v. view v.now) value.entry) }
{
    match value {
        Some(value) => fits(test, value),
        None => true,
    }
}
