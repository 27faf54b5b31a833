//! How a call of the program ended, and its exit status.
ghost use Rattle.std.specs.Prelude.{◌≡◌};
ghost use Rattle.i2c_top.specs.Status.{code_of};
ghost use Rattle.i2c_top.specs.declared.status.Status.TheVariants.{Memory as NoRoomToRun};

use addr_atr::MapFault;
use i2c_base::{NoMemory, RuleBroken};
use i2c_boardtext::BoardFault;
use journal_check::CheckFault;
use std::alloc::{AllocError, AllocFailed};

/// Why a board was refused.
#[derive(Clone, Copy)]
pub enum BoardRefusal {
    /// Its text spells no board, by this first fault. Being out of memory has a status of its own.
    Fault(BoardFault),
    /// It breaks this topology rule, and none before it.
    Rule(RuleBroken),
}

/// How a call of the program ended.
#[derive(Clone, Copy)]
pub enum Status {
    /// The report was written whole.
    Ok,
    /// The words are none of the forms.
    Usage,
    /// The board was refused.
    Board(BoardRefusal),
    /// The first line of a script, from 1, that the grammar doesn't have, and its refused word, from 0.
    Script { caller: u8, line: u32, word: u16 },
    /// The scripts' cost, which is above the limit.
    Cost(u64),
    /// The file that is named at this place of the words was not read; only where the shelf counted a fault there.
    Read(u8),
    /// The output failed, and counted a fault: what was written is a front of the text due.
    Write,
    /// There was no memory, and nothing was written.
    Memory,
    /// The rig was not plugged, and counted a fault.
    Rig,
    /// The first word of the schedule, from 0, that is no caller's number.
    Schedule(u32),
    /// The first thing that is wrong with a journal's file. Being out of memory has a status of its own.
    Verify(CheckFault),
    /// The first thing that is wrong with a map's file. Being out of memory has a status of its own.
    Map(MapFault),
    /// The bus of this number is no root of the board.
    NoRoot(u16),
    /// The first word of a list of failing calls, from 0, that names no call on a root of the board.
    Faults(u32),
    /// The input failed, and counted a fault: the lines before were answered.
    Input,
}

impl Status {
    /// The exit status of the program.
    pub fn code(&self) -> u8
        ensures { result ≡ code_of self.now }
    {
        match self {
            Status::Ok => 0,
            Status::Usage => 2,
            Status::Board(_) => 3,
            Status::Script { .. } => 4,
            Status::Cost(_) => 4,
            Status::Read(_) => 5,
            Status::Write => 6,
            Status::Memory => 7,
            Status::Rig => 8,
            Status::Schedule(_) => 9,
            Status::Verify(_) => 10,
            Status::Map(_) => 11,
            Status::NoRoot(_) => 12,
            Status::Faults(_) => 13,
            Status::Input => 5,
        }
    }
}

impl From<NoMemory> for Status {
    ghost from_gives = { λ _ e. e ≡ NoRoomToRun };

    fn from(_error: NoMemory) -> Self {
        Status::Memory
    }
}

impl From<AllocError> for Status {
    ghost from_gives = { λ _ e. e ≡ NoRoomToRun };

    fn from(_error: AllocError) -> Self {
        Status::Memory
    }
}

impl<T: Drop> From<AllocFailed<T>> for Status {
    ghost from_gives = { λ _ e. e ≡ NoRoomToRun };

    fn from(_error: AllocFailed<T>) -> Self {
        Status::Memory
    }
}
