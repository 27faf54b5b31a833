//! Where a transfer is sent, and what the board there says of it.
ghost use Rattle.std.specs.Prelude.{◌≡◌, ◌<◌, IfSome};
ghost use Rattle.i2c_base.specs.Limits.{MOST_DEVICES};
ghost use Rattle.i2c_spec.specs.Flat.{block_limit, granted_on};

use i2c_base::{Addr, Grant, SegId};
use i2c_board::Board;
use std::marker::Model;

/// Where a transfer is sent: a bus of a board, forced or not. A contract sees the record of these parts.
#[derive(Drop)]
pub struct Site<'b> {
    board: &'b Board,
    bus: SegId,
    force: bool,
}

impl<'b> Model for Site<'b> {
    ghost use Rattle.flat_world.specs.Worlds.{SiteView};

    ghost Value = { SiteView };

    ghost view = { λ s. record { board = s.board.now; bus = s.bus; force = s.force } };
}

impl<'b> Site<'b> {
    pub fn new(board: &'b Board, bus: SegId, force: bool) -> Self
        ensures { result ≡ record { board = board.now; bus = bus; force = force } }
    {
        Site { board, bus, force }
    }

    /// The most bytes of a block.
    pub fn limit(&self) -> u8
        ensures { result ≡ block_limit self.now.board }
    {
        self.board.limit()
    }

    /// The device that an address leads to.
    pub fn granted(&self, addr: Addr) -> Option<u16>
        ensures value { result ≡ granted_on self.now.board self.now.bus self.now.force addr }
        ensures small { IfSome result (λ d. d < MOST_DEVICES) }
    {
        match self.board.layout().grant(self.bus, addr, self.force) {
            Grant::Named(device) => Some(device.0),
            Grant::Nobody | Grant::Busy => None,
        }
    }
}
