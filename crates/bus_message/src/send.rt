//! The message of a walk that comes next, sent over the port of its root.
ghost use Rattle.std.specs.Prelude.{◌≡◌, ◌+◌, ℕ, Some};
ghost use Rattle.i2c_base.specs.Phases.{MayStart};
ghost use Rattle.i2c_base.specs.Transfer.{TransferView};
ghost use Rattle.i2c_base.specs.declared.entry.Purpose.TheVariants as purpose;
ghost use Rattle.i2c_spec.specs.Flat.{block_limit};
ghost use Rattle.i2c_spec.specs.Messages.{bytes_most};
ghost use Rattle.i2c_spec.specs.Tree.{addr_of_mux};
ghost use Rattle.bus_message.specs.Cursors.{HasNext};
ghost use Rattle.bus_message.specs.Ports.{HasRoom, root_port};
ghost use Rattle.bus_message.specs.Sends.{MaySend, NextSent, control_message, device_of};

use crate::cursor::TransferCursor;
use crate::message::{Message, MsgResult, send_message};
use i2c_base::{Addr, ByteList, Grant, MuxId, Node, Purpose};
use i2c_board::{Board, CachedBoard};
use mux_plan::NextMsg;
use ports::Port;

// Who hears a caller's message where its start is acknowledged.
fn device(grant: Grant) -> Option<Node>
    ensures { result ≡ device_of grant }
{
    match grant {
        Grant::Named(device) => Some(Node::Device(device)),
        Grant::Nobody | Grant::Busy => None,
    }
}

// The address of a mux's chip. A gpio mux has none, and none is sent to it: then it is any.
fn chip_addr(board: &Board, mux: MuxId) -> Addr
    ensures { (a : ℕ) → addr_of_mux board.now mux ≡ Some a → result ≡ a }
{
    board
        .muxes()
        .get(usize::from(mux.0))
        .and_then(|spec| spec.addr)
        .unwrap_or_default()
}

// Sends a control message to the chip of a mux: it writes a byte, or reads one where there is none to write.
#[inline(always)]
fn send_control<P: Port>(
    board: &CachedBoard<'_>,
    port: &mut P,
    mux: MuxId,
    next: &NextMsg,
    bytes: &mut ByteList,
) -> MsgResult
    requires control { next.now.purpose ≡ purpose.Control mux }
    requires start { MayStart (P.phase port.old) }
    requires room { (addr : ℕ) → HasRoom P.Port port.old (bytes_most (block_limit board.now) (control_message addr next.now.control) + 2) }
    ensures { (t : TransferView) (sent root : ℕ) → NextSent board.now P.tells t sent next.now (root_port P.Port (root, port.old)) (root_port P.Port (root, port.new)) bytes.new result }
{
    let limit = u16::from(board.board().limit());
    let addr = chip_addr(board.board(), mux);
    let chip = Some(Node::Chip(mux));
    match next.control {
        Some(byte) => {
            let message = Message {
                addr,
                reading: false,
                counted: false,
                len: 1,
                bytes: &[byte],
            };
            send_message(port, limit, &message, chip, true, bytes)
        }
        None => {
            let message = Message {
                addr,
                reading: true,
                counted: false,
                len: 1,
                bytes: &[],
            };
            send_message(port, limit, &message, chip, true, bytes)
        }
    }
}

/// Sends the message of a walk that comes next over the port of its root: the next one of the caller's transfer, or a
/// control message, which writes its byte to the chip of its mux, or reads one there. `bytes` gets of a write those that
/// were acknowledged, of a read all that came.
#[inline(always)]
pub fn send_next<P: Port>(
    board: &CachedBoard<'_>,
    port: &mut P,
    cursor: &TransferCursor<'_>,
    next: &NextMsg,
    bytes: &mut ByteList,
) -> MsgResult
    requires next { next.now.purpose ≡ purpose.Call → HasNext board.now cursor.now }
    requires may { (root : ℕ) → MaySend board.now P.tells cursor.now.transfer cursor.now.sent next.now (root_port P.Port (root, port.old)) }
    ensures { (root : ℕ) → NextSent board.now P.tells cursor.now.transfer cursor.now.sent next.now (root_port P.Port (root, port.old)) (root_port P.Port (root, port.new)) bytes.new result }
{
    match next.purpose {
        Purpose::Call => {
            let limit = u16::from(board.board().limit());
            let hearer = device(cursor.grant);
            send_message(
                port,
                limit,
                &cursor.message(),
                hearer,
                next.is_last(),
                bytes,
            )
        }
        Purpose::Control(mux) => send_control(board, port, mux, next, bytes),
    }
}
