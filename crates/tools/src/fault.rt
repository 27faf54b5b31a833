//! Which word of a line is refused, and why a line was not read.

ghost use Rattle.std.specs.Prelude.{◌≡◌, ℕ};

use i2c_base::NoMemory;
use std::marker::Model;

/// The place of a word that is refused, from 0. A contract sees the number.
#[derive(Clone, Copy)]
pub struct WordRefused(pub u16);

impl Model for WordRefused {
    ghost Value = { ℕ };

    ghost view = { λ w. w.0 };

    ghost inverse = { λ n. record { 0 = n } };
}

/// Why a line was not read.
#[derive(Clone, Copy)]
pub enum LineFault {
    /// The place of the refused word, from 0: so many words are the longest front that begins a line of the grammar.
    Word(u16),
    Memory,
}

impl From<NoMemory> for LineFault {
    ghost use Rattle.tools.specs.declared.fault.LineFault.TheVariants.{Memory as NoRoomForLine};

    ghost from_gives = { λ _ e. e ≡ NoRoomForLine };

    fn from(_error: NoMemory) -> Self {
        LineFault::Memory
    }
}

impl From<WordRefused> for LineFault {
    ghost use Rattle.tools.specs.declared.fault.LineFault.TheVariants.{Word as RefusedWord};

    ghost from_gives = { λ w e. e ≡ RefusedWord w };

    fn from(refused: WordRefused) -> Self {
        LineFault::Word(refused.0)
    }
}
