//! Worked examples of lines of a script: the word at which each is refused.
ghost use Rattle.std.specs.Prelude.{◌≤◌};

use case_parts::Page;
use std::alloc::Global;
use tools::{LineFault, LineWords, read_line};

/// Answers lines with a semicolon between them, over a board with this block limit: each by the number of the word at which
/// it is refused, or that it is taken, or that it is nothing. `WORD*N` in a line stands for the word N times.
pub fn answer_all(page: &mut Page, alloc: Global, limit: &str, lines: &str) {
    match limit.parse::<u8>() {
        Ok(limit) if limit >= 1 => answer_each(page, alloc, limit, lines),
        _ => page.put(" no limit"),
    }
}

fn answer_each(page: &mut Page, alloc: Global, limit: u8, lines: &str)
    requires { 1 ≤ limit }
{
    for line in lines.split(';') {
        page.put(" ");
        match written_out(alloc, line) {
            Some(line) => answer(page, alloc, limit, line.as_str().as_bytes()),
            None => page.require(false),
        }
    }
}

// A line in which each `WORD*N` is written out. None where N is no number, or there is no memory.
fn written_out(alloc: Global, line: &str) -> Option<String> {
    let mut text = String::new(alloc);
    for word in line.split_whitespace() {
        let (word, times) = word.split_once('*').unwrap_or((word, "1"));
        add_times(&mut text, word, times.parse().ok()?)?;
    }
    Some(text)
}

// Adds a word so many times.
fn add_times(text: &mut String, word: &str, times: u32) -> Option<()> {
    for _ in 0..times {
        text.push_str(word).ok()?;
        text.push_str(" ").ok()?;
    }
    Some(())
}

fn answer(page: &mut Page, alloc: Global, limit: u8, line: &[u8])
    requires { 1 ≤ limit }
{
    let mut words = LineWords::new(alloc);
    match read_line(alloc, &mut words, line, limit) {
        Ok(Some(_)) => page.put("taken"),
        Ok(None) => page.put("nothing"),
        Err(LineFault::Word(word)) => page.put_number("", u64::from(word)),
        Err(LineFault::Memory) => page.require(false),
    }
}
