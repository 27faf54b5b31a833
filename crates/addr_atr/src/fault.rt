//! Why a text is no map of translators.
ghost use Rattle.std.specs.Prelude.{◌≡◌};

use i2c_base::RuleBroken;
use std::alloc::{AllocError, AllocFailed};

/// Why a text is no map of a board's translators. Tables count from 0, in file order; the top is told as table 0.
#[derive(Clone, Copy)]
pub enum MapFault {
    /// It isn't a TOML document.
    NotToml,
    /// A key that isn't listed, or a required one that is missing.
    Key(u16),
    /// A value that isn't as listed.
    Value(u16),
    /// The mux isn't a gpio with one channel, an earlier table names it, or a mux stands on its child bus.
    Mux(u16),
    /// The addresses of the pairs aren't those of the devices on the child bus, each once, or one of these is an smbus device.
    Pairs(u16),
    /// The first rule that the lowered board breaks.
    Rule(RuleBroken),
    /// Memory ran out, which says nothing of the text.
    Memory,
}

impl From<AllocError> for MapFault {
    ghost use Rattle.addr_atr.specs.declared.fault.MapFault.TheVariants.{Memory};

    ghost from_gives = { λ _ e. e ≡ Memory };

    fn from(_: AllocError) -> Self {
        MapFault::Memory
    }
}

/// A push that took no memory gives its value back, which is dropped here.
impl<T: Drop> From<AllocFailed<T>> for MapFault {
    ghost use Rattle.addr_atr.specs.declared.fault.MapFault.TheVariants.{Memory};

    ghost from_gives = { λ _ e. e ≡ Memory };

    fn from(_: AllocFailed<T>) -> Self {
        MapFault::Memory
    }
}
