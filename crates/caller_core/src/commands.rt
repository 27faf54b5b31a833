//! The commands of a script, each with its words as they are printed.

ghost use Rattle.std.specs.Prelude.{◌≡◌, ◌<◌, [], ◌∷◌, ◌++◌, length, slice_index_or, IfOk, OnOk};

use crate::run::CommandRun;
use i2c_base::NoMemory;
use std::alloc::Global;
use std::marker::Model;

// A command, and where its words lie.
#[derive(Drop)]
struct Placed {
    run: CommandRun,
    start: usize,
    len: usize,
}

/// The commands of a script, each with its words as they are printed. A contract sees the list of them.
#[derive(Drop)]
pub struct Commands {
    placed: Vec<Placed>,
    echoes: Vec<u8>,
}

impl Model for Commands {
    ghost use Rattle.std.specs.Prelude.{List, vec_len};
    ghost use Rattle.std.specs.List.{All};
    ghost use Rattle.caller_core.specs.View.{CommandView};

    ghost Value = { List CommandView };

    ghost use Rattle.caller_core.specs.Kept.{commands_in, IsInside};

    ghost view = { λ c. commands_in c.echoes.items c.placed.items };

    ghost invariant = { λ c. All (IsInside (vec_len c.echoes)) c.placed.items };
}

impl Commands {
    /// None yet, with room for so many.
    pub fn with_room(alloc: Global, commands: usize) -> Result<Self, NoMemory>
        ensures { IfOk result (λ c. c ≡ []) }
    {
        Ok(Commands {
            placed: Vec::with_capacity(alloc, commands)?,
            echoes: Vec::new(alloc),
        })
    }

    pub fn len(&self) -> usize
        ensures { result ≡ length self.now }
    {
        self.placed.len()
    }

    /// Puts a command with these words at the end.
    #[tactic(auto, using(crate::proofs::PlacedLemmas::commands_push))]
    #[inline(always)]
    pub fn push(&mut self, run: CommandRun, echo: &[u8]) -> Result<(), NoMemory>
        ensures { OnOk result (self.new ≡ self.old ++ record { echo = echo.now; run = run } ∷ []) }
    {
        let placed = Placed {
            run,
            start: self.echoes.len(),
            len: echo.len(),
        };
        self.echoes.extend_from_slice(echo)?;
        self.placed.push(placed)?;
        Ok(())
    }

    /// The command at a place, and its words.
    #[inline(always)]
    pub fn get(&self, place: usize) -> (&CommandRun, &[u8])
        requires { place < length self.now }
        ensures { record { echo = result.1.now; run = result.0.now } ≡ slice_index_or self.now place (record { echo = result.1.now; run = result.0.now }) }
    {
        let placed = &self.placed[place];
        (
            &placed.run,
            &self.echoes[placed.start..placed.start + placed.len],
        )
    }
}
