//! What one file more of a replay says, or one word more.
ghost use Rattle.std.specs.Prelude.{◌≡◌, ◌⊎◌, ℕ, Bool, List, IfOk, IfErr};
ghost use Rattle.i2c_base.specs.declared.port.PortCall.{PortCall};
ghost use Rattle.i2c_base.specs.Board.{BoardView};
ghost use Rattle.i2c_spec.specs.Targets.{TargetState};
ghost use Rattle.i2c_top.specs.declared.status.Status.{Status};
ghost use Rattle.i2c_top.specs.declared.status.Status.TheVariants as status;

use crate::Status;
use i2c_board::Accepted;
use std::alloc::Global;

/// What one file more says over a board, or one word more of the command line.
pub trait ExtraFile: Drop {
    /// Its text is the word itself, and no file is read.
    ghost in_word: { Bool };

    /// Over a board a text spells this.
    ghost spells: { BoardView → List ℕ → Self → Type 0 };

    /// This refusal is the first thing that is wrong with a text over a board.
    ghost fails: { BoardView → List ℕ → Status → Type 0 };

    /// By this, scripts of these texts that follow the words are run over the board, and these bytes are the report, with the calls on
    /// the ports, the devices and the counts that the rig then holds.
    ghost runs: { BoardView → Self → List (List ℕ) → List ℕ → List ℕ → List (List PortCall) → List TargetState → List ℕ → Type 0 };

    /// Whether its text is the word itself.
    fn in_word() -> bool
        ensures { result ≡ in_word };

    /// Reads a text over a board: what it spells; or the refusal, or that there was no memory.
    fn read(alloc: Global, board: &Accepted, text: &[u8]) -> Result<Self, Status>
        ensures spelled { IfOk result (spells board.now text.now) }
        ensures refused { IfErr result (λ e. (e ≡ status.Memory) ⊎ fails board.now text.now e) };
}
