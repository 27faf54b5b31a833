//! The root whose waves are asked for, as one word more of a replay.
ghost use Rattle.std.specs.Prelude.{◌≡◌, ◌⊎◌, true, IfOk, IfErr};
ghost use Rattle.i2c_top.specs.declared.status.Status.TheVariants as status;
ghost use Rattle.i2c_lab.specs.Waves.{root_named, HasWaved, NamesNoRoot, NamesRoot};

use crate::number::number_in;
use i2c_base::SegId;
use i2c_board::Accepted;
use i2c_top::Status;
use i2c_top::extra::ExtraFile;
use std::alloc::Global;
use std::marker::Model;

/// A number of a root up to this is spelled, and no board has so many roots.
pub const LAST_ROOT: u16 = u16::MAX;

/// The root whose waves are asked for. A contract sees its number.
#[derive(Drop)]
pub struct WaveRoot {
    root: SegId,
}

impl Model for WaveRoot {
    ghost use Rattle.std.specs.Prelude.{ℕ};

    ghost Value = { ℕ };

    ghost view = { λ r. r.root };
}

impl WaveRoot {
    pub fn number(&self) -> SegId
        ensures { result ≡ self.now }
    {
        self.root
    }
}

// The number that a word spells; one that spells none stands for no root.
fn root_named(word: &[u8]) -> u16
    ensures { result ≡ root_named word.now }
{
    match number_in(word, u32::from(LAST_ROOT)) {
        Some(root) => root as u16,
        None => LAST_ROOT,
    }
}

impl ExtraFile for WaveRoot {
    ghost in_word = { true };

    ghost spells = { NamesRoot };

    ghost fails = { NamesNoRoot };

    ghost runs = { HasWaved };

    fn in_word() -> bool {
        true
    }

    fn read(_alloc: Global, board: &Accepted, text: &[u8]) -> Result<Self, Status>
        ensures root { IfOk result (NamesRoot board.now text.now) }
        ensures refused { IfErr result (λ e. (e ≡ status.Memory) ⊎ NamesNoRoot board.now text.now e) }
    {
        let root = root_named(text);
        if usize::from(root) < board.board().roots().len() {
            Ok(WaveRoot { root: SegId(root) })
        } else {
            Err(Status::NoRoot(root))
        }
    }
}
