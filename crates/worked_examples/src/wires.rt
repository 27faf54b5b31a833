//! Worked examples of the wires of a root, call by call.
use crate::driver::Driver;
use crate::watched::{Watched, same_ends};
use bus_lines::BusLines;
use case_parts::{Page, addr, byte, put_said, same_answer};
use i2c_base::{Answer, MuxId, NoMemory, PortCall, SegId};
use i2c_bits::BitPort;
use i2c_board::Accepted;
use i2c_physics::SimWorld;
use std::alloc::Global;

/// The wires of a root, as a world of bytes, and beside it as two wires, as far as a port may make the calls: wires that take
/// whole bytes, and such as are watched, on which each goes bit by bit.
#[derive(Drop)]
struct Wires {
    world: SimWorld,
    port: Driver<BusLines>,
    watched: Driver<Watched>,
    /// How many calls were answered alike by all.
    alike: u64,
    /// The ports have made each call so far.
    is_beside: bool,
}

impl Wires {
    fn open(alloc: Global, board: &Accepted) -> Result<Self, NoMemory> {
        let root = SegId(0);
        Ok(Wires {
            world: SimWorld::open(alloc, board, root)?,
            port: Driver::of(BitPort::open(BusLines::open(alloc, board, root)?)),
            watched: Driver::of(BitPort::open(Watched::open(alloc, board, root)?)),
            alike: 0,
            is_beside: true,
        })
    }

    // Puts what the world answers to a call, and what the ports answer, where that is anything else.
    fn put_answer(&mut self, page: &mut Page, call: &PortCall) {
        let said = answer(&mut self.world, *call);
        put_said(page, said);
        if self.is_beside {
            match (self.port.make(*call), self.watched.make(*call)) {
                (Some(short), Some(long)) => self.compare(page, said, short, long),
                (None, None) => self.is_beside = false,
                _ => page.require(false),
            }
        }
    }

    fn compare(&mut self, page: &mut Page, said: Answer, short: Answer, long: Answer) {
        if same_answer(said, short) && same_answer(said, long) {
            self.alike = self.alike.saturating_add(1);
        } else {
            page.put(" over two wires ");
            put_said(page, short);
            page.put(" bit by bit ");
            put_said(page, long);
        }
    }
}

/// Answers words about the wires of the first root of a board, as they are opened: `wADDR` and `rADDR` are starts, to write and
/// to read, two hexadecimal digits a byte that is put, `+` and `-` a read that is acknowledged or isn't, `.` a stop, `!` a call
/// that fails, which acts as one, and `mN=K` the line of mux N at level K. Then it tells how many of them, from the first
/// on, ports over two wires answer too, whole bytes at once and bit by bit: up to one that may not come where it stands, or
/// sets a line. The two ports have to come to the same.
pub fn answer_all(page: &mut Page, alloc: Global, board: &Accepted, words: &str) {
    match Wires::open(alloc, board) {
        Ok(mut wires) => {
            answer_each(page, &mut wires, words);
            let devices = board.board().devices().len();
            let port = wires.port.into_port();
            let watched = wires.watched.into_port();
            page.require(same_ends(alloc, port, watched, devices));
        }
        Err(_) => page.require(false),
    }
}

fn answer_each(page: &mut Page, wires: &mut Wires, words: &str) {
    for word in words.split_whitespace() {
        page.put(" ");
        match call_of(word) {
            Some(call) => wires.put_answer(page, &call),
            None => page.put("no call"),
        }
    }
    page.put_number(" | ", wires.alike);
}

/// The call that a word stands for.
pub fn call_of(word: &str) -> Option<PortCall> {
    match word {
        "+" => Some(PortCall::Get(true)),
        "-" => Some(PortCall::Get(false)),
        "." => Some(PortCall::Stop),
        "!" => Some(PortCall::Fault),
        _ => start_of(word),
    }
}

fn start_of(word: &str) -> Option<PortCall> {
    if let Some(to) = word.strip_prefix('w') {
        return Some(PortCall::Start(addr(to)?, false));
    }
    if let Some(from) = word.strip_prefix('r') {
        return Some(PortCall::Start(addr(from)?, true));
    }
    line_or_byte(word)
}

fn line_or_byte(word: &str) -> Option<PortCall> {
    match word.strip_prefix('m') {
        Some(line) => line_of(line),
        None => Some(PortCall::Put(byte(word)?)),
    }
}

fn line_of(word: &str) -> Option<PortCall> {
    let (mux, level) = word.split_once('=')?;
    Some(PortCall::Line(MuxId(mux.parse().ok()?), byte(level)?))
}

// What the wires answer to a call.
fn answer(world: &mut SimWorld, call: PortCall) -> Answer {
    match call {
        PortCall::Start(addr, reading) => world.start(addr, reading),
        PortCall::Put(byte) => taken(world.put(byte)),
        PortCall::Get(ack) => Answer::Byte(world.get(ack)),
        PortCall::Line(mux, level) => {
            world.set_line(mux, level);
            Answer::Nothing
        }
        PortCall::Stop | PortCall::Fault => {
            world.stop();
            Answer::Nothing
        }
    }
}

// Whether a byte was acknowledged.
fn taken(taken: bool) -> Answer {
    if taken { Answer::Ack } else { Answer::Nack }
}
