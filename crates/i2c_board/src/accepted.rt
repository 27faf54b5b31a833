//! A board that meets the topology rules, and what the transfers on its buses cost.

ghost use Rattle.std.specs.Prelude.{◌≡◌};

use crate::{Board, BusBill};
use std::marker::Model;

/// A board that meets the five topology rules. A contract sees the board.
#[derive(Drop)]
pub struct Accepted {
    board: Board,
}

impl Model for Accepted {
    ghost use Rattle.i2c_base.specs.Board.{BoardView};
    ghost use Rattle.i2c_spec.specs.Rules.{MeetsRules};

    ghost Value = { BoardView };

    ghost view = { λ a. a.board };

    ghost invariant = { λ a. MeetsRules a.board };
}

impl Accepted {
    ghost use Rattle.i2c_board.specs.Bills.{IsBill};
    ghost use Rattle.i2c_spec.specs.Rules.{MeetsRules};

    /// Seals a board that meets the rules.
    pub fn seal(board: Board) -> Self
        requires { MeetsRules board }
        ensures { result ≡ board }
    {
        Accepted { board }
    }

    pub fn board(&self) -> &Board
        ensures value { result.now ≡ self.now }
        ensures rules { MeetsRules self.now }
    {
        &self.board
    }

    /// What the transfers on a bus ask for.
    pub fn bill(&self, bus: u16) -> BusBill
        ensures bus { result.bus ≡ bus }
        ensures bill { IsBill self.now result }
    {
        self.board.layout().bill(bus)
    }
}
