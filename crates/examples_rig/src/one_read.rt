//! A caller of one's own: it asks for one read, and keeps what came of it.
ghost use Rattle.std.specs.Prelude.{◌≡◌, [], ◌∷◌, None, slice_get};
ghost use Rattle.std.specs.Option.{option_map_or};
ghost use Rattle.i2c_base.specs.Need.{bytes_given};
ghost use Rattle.i2c_spec.specs.Fair.{IsFairCaller};
ghost use Rattle.examples_rig.specs.OneReads.{asked_by, board_of, left_of, owed_by, room_of, transfer_to};

use i2c_base::{Addr, Caller, NoMemory, Reply, ReplyHead, Transfer, TransferKind};
use i2c_board::Accepted;
use std::marker::Model;
use std::snapshot::Snapshot;

/// What it is opened with, as contracts see it: the board, a bus and an address. No value of it is made.
pub struct OneReadData {}

impl Model for OneReadData {
    ghost use Rattle.std.specs.Prelude.{[]};
    ghost use Rattle.examples_rig.specs.OneReads.{ReadView};

    ghost Value = { ReadView };

    ghost view = { λ d. record { board = record { version = 1; roots = []; muxes = []; devices = [] }; bus = 0; addr = 0 } };
}

/// Reads one byte from an address of a bus.
#[derive(Drop)]
pub struct OneRead {
    board: Snapshot<Accepted>,
    bus: u16,
    addr: Addr,
    /// The reply, once it came.
    reply: Option<Reply>,
}

impl OneRead {
    /// It asked for nothing yet.
    pub fn open(board: &Accepted, bus: u16, addr: Addr) -> Self
        ensures opened { (result.board.value ≡ board.now) × (result.bus ≡ bus) × (result.addr ≡ addr) }
        ensures fresh { result.reply ≡ None }
    {
        OneRead {
            board: Snapshot::of(board),
            bus,
            addr,
            reply: None,
        }
    }

    /// The byte that was read; none before it was, or where it failed.
    pub fn byte(&self) -> Option<u8>
        ensures { result ≡ option_map_or (λ r. slice_get (bytes_given r) 0) self.now.reply None }
    {
        match &self.reply {
            Some(Reply::Read(bytes)) => bytes.as_slice().first().copied(),
            _ => None,
        }
    }
}

// The transfer: a read of one byte.
fn transfer_to(bus: u16, addr: Addr) -> Transfer
    ensures { result ≡ transfer_to bus addr }
{
    let mut transfer = Transfer::new(bus, TransferKind::Plain, false);
    let _ = transfer.add_read(addr, 1);
    transfer
}

impl Caller for OneRead {
    type Script = OneReadData;

    ghost script = { λ c. record { board = c.board.value; bus = c.bus; addr = c.addr } };

    ghost board = { board_of };

    ghost taken = { λ c. option_map_or (λ r. r ∷ []) c.reply [] };

    ghost asked = { asked_by };

    ghost left = { left_of };

    ghost owed = { owed_by };

    ghost spare = { λ c. room_of };

    fn next(&self) -> Option<Transfer> {
        match &self.reply {
            None => Some(transfer_to(self.bus, self.addr)),
            Some(_) => None,
        }
    }

    fn reserve(&mut self) -> Result<(), NoMemory> {
        Ok(())
    }

    fn take(&mut self, head: ReplyHead, bytes: &[u8]) {
        self.reply = Some(Reply::new(head, bytes));
    }
}

/// It is a fair caller, whatever board, bus and address it is opened with.
pub fn one_reads_are_fair()
    ensures { IsFairCaller asked_by left_of board_of }
{}
