//! The words of cases and worked examples: bytes, addresses and answers.
use crate::page::Page;
use i2c_base::{Addr, Answer};

/// A byte in two hexadecimal digits.
pub fn byte(word: &str) -> Option<u8> {
    u8::from_str_radix(word, 16).ok()
}

/// What stands before and after the first `at` of a text. Where there is none, nothing stands behind it.
pub fn parted(text: &str, at: char) -> (&str, &str) {
    match text.split_once(at) {
        Some(parts) => parts,
        None => (text, ""),
    }
}

/// An address in hexadecimal digits.
pub fn addr(word: &str) -> Option<Addr> {
    Addr::new(byte(word)?)
}

/// Puts what a target answers, or the wires.
pub fn put_said(page: &mut Page, answer: Answer) {
    match answer {
        Answer::Ack => page.put("ack"),
        Answer::Nack => page.put("nack"),
        Answer::Slow => page.put("slow"),
        Answer::Byte(byte) => page.put_byte(byte),
        Answer::Nothing => page.put("."),
    }
}
