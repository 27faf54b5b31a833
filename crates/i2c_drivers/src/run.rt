//! The lines of the drivers as they run, a row a driver.

ghost use Rattle.std.specs.Prelude.{◌≡◌, ℕ, true, List, ◌+◌, ◌-◌, ◌<◌, ◌≤◌, ◌++◌, IfOk};
ghost use Rattle.std.specs.List.{flat_map};
ghost use Rattle.bus_journal.specs.Reports.{line_ended};
ghost use Rattle.i2c_base.specs.Replies.{reply_by};
ghost use Rattle.i2c_drivers.specs.At24.{eeprom_write_run};
ghost use Rattle.i2c_drivers.specs.Runs.{driver_dialogue, driver_run, repeats};
ghost use Rattle.tools.specs.Dialogues.{MOST_PLACES, AreAlike, AreReplies, next_place};
ghost use Rattle.tools.specs.At24Lines.{IsWriteInRange};
ghost use Rattle.tools.specs.DriverLines.{IsDriverInRange};

use crate::at24::At24Run;
use crate::lm75::Lm75Run;
use crate::sensors::Sensors;
use i2c_base::{NoMemory, ReplyHead, Transfer};
use i2c_board::Board;
use std::alloc::Global;
use tools::{At24Write, DriverCmd, Text, Window};

/// A line of a driver as it runs: what the board's answers leave of it. How far it has come, and the replies, are its caller's.
#[derive(Drop)]
pub enum DriverRun {
    /// Reads or writes an EEPROM.
    At24(At24Run),
    /// Reads or writes a register of a temperature sensor.
    Lm75(Lm75Run),
    /// Reads all temperature sensors.
    Sensors(Sensors),
}

// A write that begins over a board.
fn open_write(board: &Board, write: At24Write) -> At24Run
    requires { IsWriteInRange write }
    ensures { result ≡ eeprom_write_run board.now write.bus write.addr write.offset write.bytes }
{
    let At24Write {
        bus,
        addr,
        offset,
        bytes,
    } = write;
    At24Run::open_write(board, bus, addr, offset, bytes)
}

impl DriverRun {
    /// A line that begins over a board. Only `sensors` takes memory.
    pub fn open(alloc: Global, board: &Board, line: DriverCmd) -> Result<Self, NoMemory>
        requires { IsDriverInRange line }
        ensures { IfOk result (λ r. r ≡ driver_run board.now line) }
    {
        let run = match line {
            DriverCmd::At24Read(read) => DriverRun::At24(At24Run::open_read(
                board,
                read.bus,
                read.addr,
                read.offset,
                read.count,
            )),
            DriverCmd::At24Write(write) => DriverRun::At24(open_write(board, write)),
            DriverCmd::Lm75Read(read) => {
                DriverRun::Lm75(Lm75Run::open_read(board, read.bus, read.addr, read.which))
            }
            DriverCmd::Lm75Write(write) => DriverRun::Lm75(Lm75Run::open_write(
                board,
                write.bus,
                write.addr,
                write.which,
                write.milli,
            )),
            DriverCmd::Sensors => DriverRun::Sensors(Sensors::open(alloc, board)?),
        };
        Ok(run)
    }

    /// How many places it has.
    pub fn places(&self) -> u16
        ensures value { result ≡ (driver_dialogue self.now).places }
        ensures few { result ≤ MOST_PLACES }
    {
        match self {
            DriverRun::At24(run) => run.places(),
            DriverRun::Lm75(run) => run.places(),
            DriverRun::Sensors(sensors) => sensors.places(),
        }
    }

    /// Puts the transfer at a place in place of another.
    pub fn put(&self, place: u16, transfer: &mut Transfer)
        requires { place < (driver_dialogue self.now).places }
        ensures { transfer.new ≡ (driver_dialogue self.now).at place }
    {
        match self {
            DriverRun::At24(run) => run.put(place, transfer),
            DriverRun::Lm75(run) => run.put(place, transfer),
            DriverRun::Sensors(sensors) => sensors.put(place, transfer),
        }
    }

    /// The transfer at a place asks for the same as the one before, so that what it costs and what it may bring needn't be asked
    /// again. It is said of each try of a piece but the first, and it may do so where none is said to.
    pub fn repeats(&self, place: u16) -> bool
        ensures value { result ≡ repeats self.now place }
        ensures later { result ≡ true → 0 < place }
        ensures alike { result ≡ true → AreAlike ((driver_dialogue self.now).at (place - 1)) ((driver_dialogue self.now).at place) }
    {
        match self {
            DriverRun::At24(run) => run.repeats(place),
            DriverRun::Lm75(_) => false,
            DriverRun::Sensors(_) => false,
        }
    }

    /// The place after a reply, whatever bytes it brings.
    pub fn behind(&self, place: u16, head: ReplyHead) -> u16
        requires { place < (driver_dialogue self.now).places }
        ensures { (bytes : List ℕ) → result ≡ next_place (driver_dialogue self.now) place (reply_by head bytes) }
    {
        match self {
            DriverRun::At24(run) => run.behind(place, head),
            DriverRun::Lm75(run) => run.behind(place, head),
            DriverRun::Sensors(sensors) => sensors.behind(place),
        }
    }

    /// Prints its lines.
    pub fn print(&self, replies: Window<'_>, out: &mut Text)
        requires fit { AreReplies (driver_dialogue self.now) 0 replies }
        requires room { (driver_dialogue self.now).most ≤ out.old.room }
        ensures bytes { out.new.bytes ≡ out.old.bytes ++ flat_map line_ended ((driver_dialogue self.now).lines replies.entry) }
        ensures room { out.old.room ≤ out.new.room + (driver_dialogue self.now).most }
    {
        match self {
            DriverRun::At24(run) => run.print(replies, out),
            DriverRun::Lm75(run) => run.print(replies, out),
            DriverRun::Sensors(sensors) => sensors.print(replies, out),
        }
    }

    /// The most bytes that it prints.
    pub fn most(&self) -> usize
        ensures { result ≡ (driver_dialogue self.now).most }
    {
        match self {
            DriverRun::At24(run) => run.most(),
            DriverRun::Lm75(run) => run.most(),
            DriverRun::Sensors(sensors) => sensors.most(),
        }
    }
}
