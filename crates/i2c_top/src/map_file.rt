//! The file of a map of address translators.
ghost use Rattle.std.specs.Prelude.{◌≡◌, ◌⊎◌, false, IfOk, IfErr};
ghost use Rattle.addr_atr.specs.MapTexts.{IsMapOf};
ghost use Rattle.i2c_top.specs.MapFiles.{HasAtrRun, IsMapFault};
ghost use Rattle.i2c_top.specs.declared.status.Status.TheVariants as status;

use crate::Status;
use crate::extra::ExtraFile;
use addr_atr::{AtrMap, MapFault, read_map};
use i2c_board::Accepted;
use std::alloc::Global;

impl ExtraFile for AtrMap {
    ghost in_word = { false };

    ghost spells = { IsMapOf };

    ghost fails = { IsMapFault };

    ghost runs = { λ b m texts words bytes logs states counts. HasAtrRun m texts words bytes logs states counts };

    fn in_word() -> bool {
        false
    }

    fn read(alloc: Global, board: &Accepted, text: &[u8]) -> Result<Self, Status>
        ensures map { IfOk result (IsMapOf board.now text.now) }
        ensures refused { IfErr result (λ e. (e ≡ status.Memory) ⊎ IsMapFault board.now text.now e) }
    {
        match read_map(alloc, board, text) {
            Ok(map) => Ok(map),
            Err(MapFault::Memory) => Err(Status::Memory),
            Err(fault) => Err(Status::Map(fault)),
        }
    }
}
