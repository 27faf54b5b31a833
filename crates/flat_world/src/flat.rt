//! `Flat`, the flat world, which does one transfer at a time.
ghost use Rattle.std.specs.Prelude.{◌≡◌, IfOk};
ghost use Rattle.i2c_spec.specs.Flat as spec;
ghost use Rattle.i2c_board.specs.Layouts.{board_of};
ghost use Rattle.i2c_spec.specs.Plain.{IsPlainBoard};
ghost use Rattle.flat_world.specs.Worlds.{opened};

use crate::devices::Devices;
use crate::site::Site;
use crate::transfer::send_all;
use i2c_base::{Bytes, Cut, End, Errno, NoMemory, Reply, SegId, Transfer, Way};
use i2c_board::{Accepted, Layout, refusal};
use i2c_spec::errno_of;
use std::alloc::Global;
use std::marker::Model;
use targets::DeviceState;

/// The devices of a board in a world of their own, in which each transfer happens alone: no mux has to be switched, no
/// lock taken, and nobody else is there. A contract sees the board and the states of its devices, in file order.
#[derive(Drop)]
pub struct Flat<'b> {
    board: &'b Accepted,
    devices: Devices,
}

impl<'b> Model for Flat<'b> {
    ghost use Rattle.flat_world.specs.Worlds.{FlatView};

    ghost Value = { FlatView };

    ghost view = { λ f. record { board = f.board.now; states = f.devices.states } };
}

impl<'b> Flat<'b> {
    /// The devices as the board says that they are opened. Nothing but this takes memory.
    pub fn open(alloc: Global, board: &'b Accepted) -> Result<Self, NoMemory>
        ensures { IfOk result (λ f. f ≡ opened board.now) }
    {
        let devices = Devices::open(alloc, board.board().layout())?;
        Ok(Flat { board, devices })
    }

    /// Does one transfer: its reply, and the devices as it leaves them. `cut` says where a call on the port fails, and so
    /// ends it: on the way, in one of its messages, or nowhere.
    pub fn apply(&mut self, transfer: &Transfer, cut: Cut) -> Reply
        ensures told { record { reply = result; states = self.new.states } ≡ spec.flat self.old.board self.old.states transfer.now cut }
        ensures board { self.new.board ≡ self.old.board }
    {
        let board = self.board.board();
        if let Some(errno) = barred(&board.layout(), transfer, cut) {
            return Reply::Err(errno);
        }
        let site = Site::new(board, SegId(transfer.bus()), transfer.force());
        let mut got = Bytes::new();
        self.devices.begin();
        let end = send_all(&site, &mut self.devices, transfer, cut, &mut got);
        reply_of(transfer, end, got)
    }

    /// The devices as the transfers so far have left them, in file order.
    pub fn states(&self) -> &[DeviceState]
        ensures { result.now ≡ self.now.states }
    {
        self.devices.states()
    }
}

/// Why no message of a transfer is sent: it is refused, a port call failed on the way, or the way is barred.
fn barred(layout: &Layout<'_>, transfer: &Transfer, cut: Cut) -> Option<Errno>
    requires { IsPlainBoard (board_of layout.now) }
    ensures { result ≡ spec.barred (board_of layout.now) transfer.now cut }
{
    if let Some(errno) = refusal(layout, transfer) {
        return Some(errno);
    }
    if matches!(cut, Cut::Way) {
        return Some(Errno::Eremoteio);
    }
    match layout.way(SegId(transfer.bus())) {
        Way::Clear => None,
        Way::NoAck(_) => Some(Errno::Enxio),
        Way::Held(_) => Some(Errno::Etimedout),
    }
}

/// The reply of a transfer whose messages were sent, by how the last of them ended, and what they read.
fn reply_of(transfer: &Transfer, end: End, got: Bytes) -> Reply
    ensures { result ≡ spec.or_done (spec.errno_of end) transfer.now got }
{
    if let Some(errno) = errno_of(end) {
        return Reply::Err(errno);
    }
    if transfer.reads() {
        Reply::Read(got)
    } else {
        Reply::Done
    }
}
