//! The commands of a script, a row for each: the words that it is read from, and how it runs.

ghost use Rattle.std.specs.Prelude.{◌≡◌, ℕ, ◌≤◌, IfOk};
ghost use Rattle.tools.specs.Commands.{grammar, IsToolInRange, tool_run};
ghost use Rattle.tools.specs.DriverLines.{driver_lines};
ghost use Rattle.tools.specs.Grammars.{read_at};
ghost use Rattle.tools.specs.HandleLines.{handle_lines};
ghost use Rattle.tools.specs.Readers.{texts, Gives};

mod detect;
mod driver;
mod dump;
mod get;
mod handle;
mod set;
mod transfer;

use crate::fault::LineFault;
use crate::reader::{is_at, is_past};
use crate::run::ToolRun;
use crate::run::messages::Messages;
pub use detect::{Detect, Probe};
pub use driver::{At24Read, At24Write, DriverCmd, Lm75Read, Lm75Write, RegName};
pub use dump::{Dump, DumpMode};
pub use get::{Get, GetMode};
pub use handle::HandleCmd;
use i2c_base::{MOST_BYTES, MOST_MESSAGES, NoMemory};
use i2c_board::Board;
pub use set::{Set, SetMode};
use std::alloc::Global;
pub use transfer::Combined;

/// A command of a script.
#[derive(Drop)]
pub enum Cmd {
    /// A tool of i2c-tools.
    Tool(ToolCmd),
    /// A line of a driver.
    Driver(DriverCmd),
    /// A line of a handle.
    Handle(HandleCmd),
}

/// A tool of i2c-tools.
#[derive(Drop)]
pub enum ToolCmd {
    /// Reads a register, or the next byte where none is named.
    Get(Get),
    /// Writes a register.
    Set(Set),
    /// Sends messages as one transfer.
    Combined(Combined),
    /// Reads registers one after the other.
    Dump(Dump),
    /// Lists the buses.
    List,
    /// Probes the addresses of a bus.
    Detect(Detect),
}

/// The words of the longest line.
pub(crate) const MOST_WORDS: usize = 4 + MOST_MESSAGES + MOST_BYTES;

/// Reads the words of a command by the first of them, over a board with this block limit.
#[tactic(auto, unfolding(crate::specs::Commands::grammar))]
pub(crate) fn read_command(alloc: Global, words: &[&[u8]], limit: u8) -> Result<Cmd, LineFault>
    requires { 1 ≤ limit }
    ensures { Gives (read_at (grammar limit) (texts words.now) 0) result }
{
    if is_at(words, 0, b"i2cget") {
        Ok(get::read_get(words)?)
    } else if is_at(words, 0, b"i2cset") {
        set::read_set(alloc, words, limit)
    } else if is_at(words, 0, b"i2ctransfer") {
        transfer::read_combined(alloc, words)
    } else if is_at(words, 0, b"i2cdump") {
        Ok(dump::read_dump(words)?)
    } else if is_at(words, 0, b"i2cdetect") {
        Ok(detect::read_detect(words)?)
    } else {
        read_other(alloc, words, limit)
    }
}

// Reads the words of a driver's line, or of a handle's.
#[tactic(auto, unfolding(crate::specs::DriverLines::driver_lines))]
fn read_other(alloc: Global, words: &[&[u8]], limit: u8) -> Result<Cmd, LineFault>
    requires { 1 ≤ limit }
    ensures { Gives (read_at (driver_lines (handle_lines limit)) (texts words.now) 0) result }
{
    if is_at(words, 0, b"at24") {
        driver::at24::read_at24(alloc, words)
    } else if is_at(words, 0, b"lm75") {
        Ok(driver::lm75::read_lm75(words)?)
    } else if is_at(words, 0, b"sensors") {
        if !is_past(words, 1) {
            return Err(LineFault::Word(1));
        }
        Ok(Cmd::Driver(DriverCmd::Sensors))
    } else {
        handle::read_handle(alloc, words, limit)
    }
}

/// How a tool runs over a board.
pub(crate) fn run_of(alloc: Global, board: &Board, tool: ToolCmd) -> Result<ToolRun, NoMemory>
    requires { (limit : ℕ) × IsToolInRange limit tool }
    ensures { IfOk result (λ run. run ≡ tool_run board.now tool) }
{
    match tool {
        ToolCmd::Get(get) => Ok(get::run(&get)),
        ToolCmd::Set(set) => set::run(alloc, &set),
        ToolCmd::Combined(combined) => Ok(ToolRun::Transfers(Messages::new(combined))),
        ToolCmd::Dump(dump) => Ok(ToolRun::Dumps(dump)),
        ToolCmd::List => Ok(ToolRun::Says(detect::bus_lines(alloc, board)?)),
        ToolCmd::Detect(detect) => Ok(ToolRun::Scans(detect)),
    }
}
