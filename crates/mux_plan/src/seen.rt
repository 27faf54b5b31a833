//! What a walk is told of the lock words.
ghost use Rattle.std.specs.Prelude.{◌≡◌};
ghost use Rattle.bus_spec.specs.Grammar.{keeps};
ghost use Rattle.mux_plan.specs.Plans.{mark_on, kept_of};

use i2c_base::{MuxId, SegId};
use i2c_board::Hop;
use std::marker::Model;

/// What lock words tell: the mark of each bus, and the channel that each mux keeps open. A contract sees the record of
/// these lists.
#[derive(Drop)]
pub struct Seen<'a> {
    pub marks: &'a [Option<MuxId>],
    pub kept: &'a [Option<u8>],
}

impl<'a> Model for Seen<'a> {
    ghost use Rattle.mux_plan.specs.Plans.{SeenView};

    ghost Value = { SeenView };

    ghost view = { λ s. record { marks = s.marks.now; kept = s.kept.now } };
}

impl<'a> Seen<'a> {
    /// The same once more: for a call that isn't made often, so that what is handed to the others needs no place in memory.
    #[inline(always)]
    pub fn again(&self) -> Seen<'a>
        ensures { result ≡ self.now }
    {
        Seen {
            marks: self.marks,
            kept: self.kept,
        }
    }

    /// The mark that the lock of the muxes on a bus carries.
    pub fn mark(&self, bus: SegId) -> Option<MuxId>
        ensures { result ≡ mark_on self.now bus }
    {
        self.marks.get(usize::from(bus.0)).copied().flatten()
    }

    // The channel that a mux keeps open.
    fn channel(&self, mux: MuxId) -> Option<u8>
        ensures { result ≡ kept_of self.now mux }
    {
        self.kept.get(usize::from(mux.0)).copied().flatten()
    }

    /// The mux stays as it is, and keeps the channel of this hop open.
    pub fn keeps(&self, hop: &Hop) -> bool
        ensures { result ≡ keeps hop.now (kept_of self.now hop.now.mux) }
    {
        if !hop.stays {
            return false;
        }
        match self.channel(hop.mux) {
            None => false,
            Some(channel) => u16::from(channel) == hop.channel,
        }
    }
}
