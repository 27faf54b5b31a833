//! Boards, read from a file or a text.
use i2c_board::{Accepted, accept};
use i2c_boardtext::read_board;
use std::alloc::Global;
use std::fs;
use std::rt::Files;

/// The board of the file `NAME.toml`, none where it can't be read.
pub fn board_in<R: Files + AllocGlobal>(rt: &R, name: &str) -> Option<Accepted> {
    let path = format!(in rt.alloc(); "{name}.toml").ok()?;
    let text = fs::read(rt, path.as_str()).ok()?;
    board_of(rt.alloc(), text.as_slice())
}

/// The board that a text spells, none where it breaks a rule.
pub fn board_of(alloc: Global, text: &[u8]) -> Option<Accepted> {
    accept(read_board(alloc, text).ok()?).ok()
}
