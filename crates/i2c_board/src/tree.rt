//! The tree calls of a board: its buses, the paths to them, to whom an address leads, and whether a way is clear.

ghost use Rattle.std.specs.Prelude.{◌≡◌, ◌<◌, ◌↔◌, length, SomeIff, IsNone, option_map};

use crate::Board;
use arrayvec::ArrayVec;
use i2c_base::{Addr, Grant, MOST_ON_PATH, MuxId, SegId, Way};

impl Board {
    ghost use Rattle.i2c_spec.specs.Tree.{buses, over, path, root_of, is_below};
    ghost use Rattle.i2c_spec.specs.Grant.{grant_of, way_of};

    /// How many buses the board has: its roots, and each mux's channels. They are numbered from 0 in that order.
    #[tactic(auto, using(i2c_spec::proofs::PlainLemmas::buses_le))]
    pub fn buses(&self) -> u16
        ensures { result ≡ buses self.now }
    {
        self.layout().buses()
    }

    /// The bus of this number, none where the board has no such bus.
    pub fn seg(&self, bus: u16) -> Option<SegId>
        ensures { SomeIff result (bus < buses self.now) bus }
    {
        (bus < self.buses()).then_some(SegId(bus))
    }

    /// The mux over a bus and the channel that leads there, none for a root.
    pub fn over(&self, seg: SegId) -> Option<(MuxId, u8)>
        requires { seg < buses self.now }
        ensures value { result ≡ option_map (λ h. (h.mux, h.channel)) (over self.now seg) }
        ensures root { IsNone result ↔ (seg < length self.now.roots) }
    {
        let hop = self.layout().over(seg)?;
        Some((hop.mux, hop.channel as u8))
    }

    /// The buses from the root to a bus, the bus included.
    pub fn path(&self, seg: SegId) -> ArrayVec<SegId, MOST_ON_PATH>
        requires { seg < buses self.now }
        ensures { result.items ≡ path self.now seg }
    {
        self.layout().path(seg)
    }

    /// The root that a bus hangs from; a root's own.
    pub fn root(&self, seg: SegId) -> SegId
        requires { seg < buses self.now }
        ensures { result ≡ root_of self.now seg }
    {
        self.layout().root(seg)
    }

    /// Whether `high` is strictly over `low`: on its path, and another.
    pub fn is_below(&self, low: SegId, high: SegId) -> bool
        requires low_there { low < buses self.now }
        requires high_there { high < buses self.now }
        ensures { result ≡ is_below self.now low high }
    {
        self.layout().is_below(low, high)
    }

    /// To whom an address on a bus leads. It is busy where a mux chip on the bus's path has it, or a chip or
    /// device below the bus, or, unless forced, a bound device on the path; else it leads to the first device
    /// on the path that has it, or to nobody.
    pub fn grant(&self, seg: SegId, addr: Addr, force: bool) -> Grant
        requires { seg < buses self.now }
        ensures { result ≡ grant_of self.now seg addr force }
    {
        self.layout().grant(seg, addr, force)
    }

    /// Whether the muxes over a bus let a message through: the first one from the root that is absent, or that
    /// is an arbitrator which stays with its other controller, stops it.
    pub fn way(&self, seg: SegId) -> Way
        requires { seg < buses self.now }
        ensures { result ≡ way_of self.now seg }
    {
        self.layout().way(seg)
    }
}
