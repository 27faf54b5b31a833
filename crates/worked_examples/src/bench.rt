//! Worked examples of the parts of a board, each told apart by the front of its line.
use crate::{chips, held, lines, reads, transfers, trees, wires};
use case_parts::{Page, board_in, parted};
use i2c_board::Accepted;
use std::alloc::Global;
use std::rt::Files;

// Answers the words of an example on a board.
fn answer_on(page: &mut Page, alloc: Global, board: &Accepted, kind: &str, words: &str) {
    match kind {
        "tree" => trees::answer_all(page, board.board(), words),
        "wires" => wires::answer_all(page, alloc, board, words),
        "edges" => reads::answer_all(page, alloc, board, words),
        "flat" => transfers::answer_all(page, alloc, board, words),
        _ => page.put(" no kind of example"),
    }
}

// Answers the words of an example on the board of this name.
fn answer_by_name<R: Files + AllocGlobal>(
    rt: &R,
    page: &mut Page,
    name: &str,
    kind: &str,
    words: &str,
) {
    match board_in(rt, name) {
        Some(board) => answer_on(page, rt.alloc(), &board, kind, words),
        None => page.put(" no board"),
    }
}

/// Answers a worked example by a line of the same front, up to its colon, with an answer for each word or transfer.
pub fn answer_line<R: Files + AllocGlobal>(rt: &R, page: &mut Page, line: &str) {
    let (front, words) = parted(line, ':');
    let (kind, subject) = parted(front, ' ');
    page.put(front);
    page.put(":");
    match kind {
        "chip" => chips::answer_all(page, subject, words),
        "held" => held::answer_all(page, rt.alloc(), subject, words),
        "line" => lines::answer_all(page, rt.alloc(), subject, words),
        _ => answer_by_name(rt, page, subject, kind, words),
    }
    page.put("\n");
}
