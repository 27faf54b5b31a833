//! A map of translators: the lowered board, and what it makes of a transfer.
ghost use Rattle.std.specs.Prelude.{◌≡◌};

use crate::lower::route;
use i2c_base::{AliasPair, MuxId, Transfer};
use i2c_board::Accepted;
use std::marker::Model;
use std::snapshot::Snapshot;

/// A mux that stands for a translator, and by which alias each device behind it is reached.
#[derive(Drop)]
pub struct Translator {
    pub mux: MuxId,
    pub pairs: Vec<AliasPair>,
}

impl Model for Translator {
    ghost use Rattle.addr_atr.specs.Maps.{TranslatorView};

    ghost Value = { TranslatorView };

    ghost view = { λ t. record { mux = t.mux; pairs = t.pairs.items } };
}

/// A map of translators over an accepted board. A contract sees the board as written, and the translators.
///
/// Its type keeps that the map is one of this board, and that the lowered board is accepted too.
#[derive(Drop)]
pub struct AtrMap {
    written: Snapshot<Accepted>,
    lowered: Accepted,
    translators: Vec<Translator>,
}

impl Model for AtrMap {
    ghost use Rattle.addr_atr.specs.Maps.{MapView};
    ghost use Rattle.addr_atr.specs.Kept.{IsKept};

    ghost Value = { MapView };

    ghost view = { λ m. record { board = m.written.value; translators = m.translators.items } };

    ghost invariant = { λ m. IsKept (record { board = m.written.value; translators = m.translators.items }) m.lowered };
}

impl AtrMap {
    ghost use Rattle.addr_atr.specs.Kept.{IsKept};
    ghost use Rattle.addr_atr.specs.Lowering.{lowered as lowered_of, translated, IsMap};

    /// The map of these translators, over a board and the lowered one.
    pub(crate) fn new(written: &Accepted, lowered: Accepted, translators: Vec<Translator>) -> Self
        requires map { IsMap written.now translators.items }
        requires lowered { lowered ≡ lowered_of written.now translators.items }
        ensures { result ≡ record { board = written.now; translators = translators.items } }
    {
        let board = written.board();
        let _roots = board.roots();
        let _low = lowered.board();
        AtrMap {
            written: Snapshot::of(written),
            lowered,
            translators,
        }
    }

    /// The board in which each device on a translator's child bus stands on the mux's bus at its alias.
    pub fn lowered(&self) -> &Accepted
        ensures value { result.now ≡ lowered_of self.now.board self.now.translators }
        ensures kept { IsKept self.now result.now }
    {
        &self.lowered
    }

    /// Sends a transfer on a translator's child bus to the mux's bus, each paired address as its alias. Any other stays as it is.
    pub fn translate(&self, transfer: &mut Transfer)
        ensures { transfer.new ≡ translated self.now.board self.now.translators transfer.old }
    {
        if let Some((bus, pairs)) = route(self.lowered.board(), &self.translators, transfer.bus()) {
            transfer.redirect(bus.0, pairs);
        }
    }
}
