//! Worked examples of the tree of buses: ways, grants, and what is below what.
ghost use Rattle.std.specs.Prelude.{◌<◌, IfSome};
ghost use Rattle.i2c_spec.specs.Tree.{buses};

use case_parts::{Page, addr};
use i2c_base::SegId;
use i2c_board::{Board, Grant, Way};

/// Answers words: `BUS` asks for the way to a bus, `BUS/ADDR` where an address leads on it, `BUS/ADDR!` where it leads by
/// force, and `BUS<HIGH` whether the bus is below another.
pub fn answer_all(page: &mut Page, board: &Board, words: &str) {
    for word in words.split_whitespace() {
        page.put(" ");
        answer(page, board, word);
    }
}

fn answer(page: &mut Page, board: &Board, word: &str) {
    if let Some((bus, target)) = word.split_once('/') {
        put_grant(page, board, bus, target);
    } else if let Some((low, high)) = word.split_once('<') {
        put_below(page, board, low, high);
    } else {
        put_way(page, board, word);
    }
}

// The bus of a number.
fn seg_of(board: &Board, number: &str) -> Option<SegId>
    ensures { IfSome result (λ seg. seg < buses board.now) }
{
    board.seg(number.parse().ok()?)
}

// Where an address leads on a bus.
fn put_grant(page: &mut Page, board: &Board, bus: &str, target: &str) {
    let forced = target.strip_suffix('!');
    match (seg_of(board, bus), addr(forced.unwrap_or(target))) {
        (Some(seg), Some(addr)) => put_owner(page, board.grant(seg, addr, forced.is_some())),
        _ => page.put("no bus or address"),
    }
}

fn put_owner(page: &mut Page, grant: Grant) {
    match grant {
        Grant::Named(device) => page.put_number("d", u64::from(device.0)),
        Grant::Nobody => page.put("nobody"),
        Grant::Busy => page.put("busy"),
    }
}

// Whether a bus is below another.
fn put_below(page: &mut Page, board: &Board, low: &str, high: &str) {
    match (seg_of(board, low), seg_of(board, high)) {
        (Some(low), Some(high)) => page.put(if board.is_below(low, high) {
            "true"
        } else {
            "false"
        }),
        _ => page.put("no two buses"),
    }
}

// The buses of the path to a bus, from the root, with the mux and the channel before each; and what bars the way.
fn put_way(page: &mut Page, board: &Board, bus: &str) {
    match seg_of(board, bus) {
        Some(seg) => {
            put_path(page, board, seg);
            put_bar(page, board.way(seg));
        }
        None => page.put("no bus"),
    }
}

fn put_bar(page: &mut Page, way: Way) {
    match way {
        Way::Clear => {}
        Way::NoAck(mux) => page.put_number(":no-ack-m", u64::from(mux.0)),
        Way::Held(mux) => page.put_number(":held-m", u64::from(mux.0)),
    }
}

// The buses from the root to a bus.
fn put_path(page: &mut Page, board: &Board, seg: SegId)
    requires { seg < buses board.now }
{
    for bus in board.path(seg).iter() {
        put_hop(page, board, bus.0);
    }
}

// A bus, behind its mux and channel.
fn put_hop(page: &mut Page, board: &Board, bus: u16) {
    match board.seg(bus) {
        Some(seg) => put_over(page, board, seg),
        None => page.put("no bus"),
    }
}

fn put_over(page: &mut Page, board: &Board, seg: SegId)
    requires { seg < buses board.now }
{
    if let Some((mux, channel)) = board.over(seg) {
        page.put_number("-m", u64::from(mux.0));
        page.put_number(".", u64::from(channel));
        page.put("-");
    }
    page.put_number("", u64::from(seg.0));
}
