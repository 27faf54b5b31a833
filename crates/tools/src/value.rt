//! How the value of an SMBus call is printed, or why there is none.

ghost use Rattle.std.specs.Prelude.{◌≡◌, ◌+◌, ◌*◌, ◌≤◌, ◌++◌, length};
ghost use Rattle.std.specs.List.{flat_map};
ghost use Rattle.bus_spec.specs.Lines.{errno_text};
ghost use Rattle.smb_emul.specs.Value.{value_seen, outcome_seen};
ghost use Rattle.tools.specs.Values.{byte_word, double_word, spaced_word, byte_words, fail_text, value_text, call_result_text, block_of_value, block_in};

use crate::text::Text;
use bus_journal::{errno_name, hex_digit};
use i2c_base::Errno;
use smb_emul::{SmbFail, SmbValue};

/// The most bytes of an answer that is no block: a wrong error code.
pub const MOST_BESIDE: usize = 26;

/// Prints a value, or why there is none.
pub fn push_outcome(out: &mut Text, outcome: Result<SmbValue<'_>, SmbFail>)
    requires { 26 + 5 * length (block_in (outcome_seen outcome)) ≤ out.old.room }
    ensures bytes { out.new.bytes ≡ out.old.bytes ++ call_result_text (outcome_seen outcome.entry) }
    ensures room { out.old.room ≤ out.new.room + (26 + 5 * length (block_in (outcome_seen outcome.entry))) }
{
    match outcome {
        Ok(value) => push_value(out, value),
        Err(fail) => push_fail(out, fail),
    }
}

// Prints a value.
fn push_value(out: &mut Text, value: SmbValue<'_>)
    requires { 26 + 5 * length (block_of_value (value_seen value)) ≤ out.old.room }
    ensures bytes { out.new.bytes ≡ out.old.bytes ++ value_text (value_seen value.entry) }
    ensures room { out.old.room ≤ out.new.room + (26 + 5 * length (block_of_value (value_seen value.entry))) }
{
    match value {
        SmbValue::Done => out.push(b"ok"),
        SmbValue::Byte(byte) => push_hex_byte(out, byte),
        SmbValue::Word(word) => push_hex_word(out, word),
        SmbValue::Block(bytes) => push_byte_words(out, bytes),
    }
}

// Prints why there is no value.
fn push_fail(out: &mut Text, fail: SmbFail)
    requires { 26 ≤ out.old.room }
    ensures bytes { out.new.bytes ≡ out.old.bytes ++ fail_text fail }
    ensures room { out.old.room ≤ out.new.room + 26 }
{
    match fail {
        SmbFail::Errno(errno) => push_errno(out, errno),
        SmbFail::Pec { got, want } => {
            out.push(b"EBADMSG got ");
            push_hex_byte(out, got);
            out.push(b" want ");
            push_hex_byte(out, want);
        }
    }
}

/// Prints the name of an error.
#[tactic(auto, using(crate::proofs::ValueLemmas::errno_short))]
pub fn push_errno(out: &mut Text, errno: Errno)
    requires { 26 ≤ out.old.room }
    ensures bytes { out.new.bytes ≡ out.old.bytes ++ errno_text errno }
    ensures room { out.old.room ≤ out.new.room + 26 }
{
    out.push(errno_name(errno));
}

// Puts a byte as a word at the end, with a space before it.
fn push_spaced_word(out: &mut Text, byte: u8)
    requires { 5 ≤ out.old.room }
    ensures bytes { out.new.bytes ≡ out.old.bytes ++ spaced_word byte }
    ensures room { out.old.room ≤ out.new.room + 5 }
{
    out.push(&[b' ', b'0', b'x', hex_digit(byte / 16), hex_digit(byte % 16)]);
}

// Puts a byte as a word at the end.
fn push_hex_byte(out: &mut Text, byte: u8)
    requires { 4 ≤ out.old.room }
    ensures bytes { out.new.bytes ≡ out.old.bytes ++ byte_word byte }
    ensures room { out.old.room ≤ out.new.room + 4 }
{
    out.push_byte(b'0');
    out.push_byte(b'x');
    out.push_byte(hex_digit(byte / 16));
    out.push_byte(hex_digit(byte % 16));
}

// Puts bytes as words at the end, with a space before each.
fn push_spaced_words(out: &mut Text, bytes: &[u8])
    requires { 5 * length bytes.now ≤ out.old.room }
    ensures bytes { out.new.bytes ≡ out.old.bytes ++ flat_map spaced_word bytes.now }
    ensures room { out.old.room ≤ out.new.room + 5 * length bytes.now }
{
    for byte in bytes {
        push_spaced_word(out, *byte);
    }
}

/// Puts bytes as words at the end, with a space between each two, so that some leave room for the end of their line.
pub fn push_byte_words(out: &mut Text, bytes: &[u8])
    requires { 5 * length bytes.now ≤ out.old.room }
    ensures bytes { out.new.bytes ≡ out.old.bytes ++ byte_words bytes.now }
    ensures room { out.old.room ≤ out.new.room + 5 * length bytes.now }
    ensures spare { 1 ≤ length bytes.now → out.old.room + 1 ≤ out.new.room + 5 * length bytes.now }
{
    if let Some((first, rest)) = bytes.split_first() {
        push_hex_byte(out, *first);
        push_spaced_words(out, rest);
    }
}

// Puts a word of two bytes at the end.
fn push_hex_word(out: &mut Text, word: u16)
    requires { 6 ≤ out.old.room }
    ensures bytes { out.new.bytes ≡ out.old.bytes ++ double_word word }
    ensures room { out.old.room ≤ out.new.room + 6 }
{
    let high = (word / 256) as u8;
    let low = (word % 256) as u8;
    out.push(&[
        b'0',
        b'x',
        hex_digit(high / 16),
        hex_digit(high % 16),
        hex_digit(low / 16),
        hex_digit(low % 16),
    ]);
}
