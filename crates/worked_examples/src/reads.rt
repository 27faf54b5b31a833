//! Worked examples of the edges of one read: how often SCL rises while a register is read, on the rig of two wires.
ghost use Rattle.std.specs.Prelude.{◌≡◌, ◌+◌, ◌≤◌, IfSome, length};
ghost use Rattle.i2c_base.specs.Limits.{MOST_CALLS};
ghost use Rattle.i2c_base.specs.declared.port.Phase.{Phase};
ghost use Rattle.worked_examples.specs.Reads.{read_seen};

use case_parts::{Page, addr, byte};
use i2c_base::{Addr, Answer};
use i2c_board::Accepted;
use i2c_outside::Rig;
use i2c_physics::{BitRig, BusLines, WirePort};
use ports::Port;
use std::alloc::Global;

/// What a read has come to.
#[derive(Drop)]
pub struct Read {
    /// The byte of the register.
    pub byte: u8,
    /// How often SCL rose on all roots, from the plug of the rig to its unplug.
    pub edges: u64,
}

/// Reads a register as SMBus 3.2 has it (section 6.5.5): a start to write, the number of the register, a repeated start to
/// read, one byte that isn't acknowledged, and a stop. None where the rest was not acknowledged. All of it is seen on the wires.
fn read_register(port: &mut WirePort<BusLines>, addr: Addr, register: u8) -> Option<u8>
    requires idle { port.old.phase ≡ Phase.Idle }
    requires room { length port.old.log + 5 ≤ MOST_CALLS }
    ensures { IfSome result (λ byte. port.new.seen ≡ read_seen addr register byte port.old.seen) }
{
    let Ok(Answer::Ack) = port.start(addr, false) else {
        return None;
    };
    let Ok(true) = port.put(register) else {
        return None;
    };
    let Ok(Answer::Ack) = port.start(addr, true) else {
        return None;
    };
    let Ok(byte) = port.get(false) else {
        return None;
    };
    let Ok(()) = port.stop() else {
        return None;
    };
    Some(byte)
}

/// The edges of one read: a rig is plugged for a board, a register is read on its first root, and the rig is unplugged and asked how
/// often SCL rose. None where the board has no root, something isn't acknowledged, or there is no memory.
pub fn read_once(alloc: Global, board: &Accepted, addr: Addr, register: u8) -> Option<Read>
    ensures { IfSome result (λ read. read.edges ≡ 38) }
{
    let mut rig = BitRig::<BusLines>::new();
    let Ok(mut ports) = rig.plug(alloc, board) else {
        return None;
    };
    if ports.is_empty() {
        return None;
    }
    let byte = read_register(&mut ports[0], addr, register)?;
    rig.unplug(ports);
    Some(Read {
        byte,
        edges: rig.edges(),
    })
}

/// Answers words about the registers of devices on the first root of a board, each on a rig of its own: `ADDR/REGISTER`, in two
/// hexadecimal digits each, by its byte and how often SCL rose.
pub fn answer_all(page: &mut Page, alloc: Global, board: &Accepted, words: &str) {
    for word in words.split_whitespace() {
        page.put(" ");
        match read_of(alloc, board, word) {
            Some(read) => {
                page.put_byte(read.byte);
                page.put_number("/", read.edges);
            }
            None => page.put("none"),
        }
    }
}

// The read that a word stands for. None where it stands for none.
fn read_of(alloc: Global, board: &Accepted, word: &str) -> Option<Read> {
    let (to, register) = word.split_once('/')?;
    read_once(alloc, board, addr(to)?, byte(register)?)
}
