//! `i2cget`: its line, and the SMBus calls that read a register.

ghost use Rattle.std.specs.Prelude.{◌≡◌, ℕ, ◌+◌, ◌<◌, false, None, Some};
ghost use Rattle.tools.specs.Gets.{mode_named, get_len, get_reg, get_bus, get_words, IsGetInRange, mode_of_get, len_of, get_callee, get_call, register_run, get_run};
ghost use Rattle.tools.specs.Grammars.{read_at};
ghost use Rattle.tools.specs.Readers.{texts, one_at};

use crate::command::{Cmd, ToolCmd};
use crate::fault::WordRefused;
use crate::options::{address_at, bus_at, byte_at, options};
use crate::reader::{is_past, is_text, number_at, over_at, word_at};
use crate::run::ToolRun;
use crate::run::call::{BlockLen, Callee, HeldCall, HeldOp};
use crate::run::chain::Chain;
use i2c_base::{Addr, I2C_BLOCK_LIMIT};

/// How `i2cget` reads a register.
#[derive(Clone, Copy)]
pub enum GetMode {
    /// A byte: `b`, or no MODE.
    Byte,
    /// A word, low byte first: `w`.
    Word,
    /// The register's number is sent alone, and then a byte is received: `c`.
    SendReceive,
    /// A block that comes after its count: `s`.
    Block,
    /// A block of so many bytes as are asked for: `i`.
    I2cBlock,
}

/// The line `i2cget [-f] -y BUS ADDR [REG [MODE [LEN]]]`. None stands for what is missing.
#[derive(Clone, Copy)]
pub struct Get {
    /// A device that a driver is bound to is read as well: `-f`.
    pub force: bool,
    pub bus: u16,
    pub addr: Addr,
    pub reg: Option<u8>,
    pub mode: Option<GetMode>,
    /// With an error code: the `p` after MODE.
    pub pec: bool,
    /// How many bytes the block of `i` has, 1 to 32.
    pub len: Option<u8>,
}

// The mode that a word names, and whether with an error code.
fn mode_named(word: &[u8]) -> Option<(GetMode, bool)>
    ensures { result ≡ mode_named word.now }
{
    if is_text(word, b"b") {
        Some((GetMode::Byte, false))
    } else if is_text(word, b"w") {
        Some((GetMode::Word, false))
    } else if is_text(word, b"c") {
        Some((GetMode::SendReceive, false))
    } else if is_text(word, b"s") {
        Some((GetMode::Block, false))
    } else if is_text(word, b"i") {
        Some((GetMode::I2cBlock, false))
    } else if is_text(word, b"bp") {
        Some((GetMode::Byte, true))
    } else if is_text(word, b"wp") {
        Some((GetMode::Word, true))
    } else if is_text(word, b"cp") {
        Some((GetMode::SendReceive, true))
    } else if is_text(word, b"sp") {
        Some((GetMode::Block, true))
    } else {
        None
    }
}

// The mode that the word at a place names.
fn mode_at(words: &[&[u8]], at: u16) -> Result<(GetMode, bool), WordRefused>
    ensures { result ≡ one_at mode_named (texts words.now) at }
{
    let word = word_at(words, at)?;
    mode_named(word).ok_or(WordRefused(at))
}

// Reads what stands behind MODE: LEN, which may be missing, after `i`, and nothing after another.
#[tactic(auto, unfolding(crate::specs::Gets::get_len))]
fn read_len(words: &[&[u8]], at: u16, get: Get, mode: (GetMode, bool)) -> Result<Cmd, WordRefused>
    requires { at < 9 }
    ensures { (reg : ℕ) → get.reg ≡ Some reg → result ≡ read_at (get_len get.force get.bus get.addr reg mode) (texts words.now) at }
{
    let get = Get {
        mode: Some(mode.0),
        pec: mode.1,
        len: None,
        ..get
    };
    if is_past(words, at) {
        return Ok(Cmd::Tool(ToolCmd::Get(get)));
    }
    match mode {
        (GetMode::I2cBlock, false) => {
            let len = Some(number_at(words, at, 1, u16::from(I2C_BLOCK_LIMIT))? as u8);
            over_at(words, at + 1, Cmd::Tool(ToolCmd::Get(Get { len, ..get })))
        }
        _ => Err(WordRefused(at)),
    }
}

// Reads what stands behind ADDR.
#[tactic(auto, unfolding(crate::specs::Gets::get_reg))]
fn read_reg(words: &[&[u8]], at: u16, get: Get) -> Result<Cmd, WordRefused>
    requires near { at < 7 }
    requires bare { (get.reg ≡ None) × (get.mode ≡ None) × (get.pec ≡ false) × (get.len ≡ None) }
    ensures { result ≡ read_at (get_reg get.force get.bus get.addr) (texts words.now) at }
{
    if is_past(words, at) {
        return Ok(Cmd::Tool(ToolCmd::Get(get)));
    }
    let reg = Some(byte_at(words, at)?);
    let get = Get { reg, ..get };
    if is_past(words, at + 1) {
        return Ok(Cmd::Tool(ToolCmd::Get(get)));
    }
    let mode = mode_at(words, at + 1)?;
    read_len(words, at + 2, get, mode)
}

// Reads what stands behind the options.
#[tactic(auto, unfolding(crate::specs::Gets::get_bus))]
fn read_bus(words: &[&[u8]], at: u16, force: bool) -> Result<Cmd, WordRefused>
    requires { at < 5 }
    ensures { result ≡ read_at (get_bus force) (texts words.now) at }
{
    let bus = bus_at(words, at)?;
    let addr = address_at(words, at + 1)?;
    let get = Get {
        force,
        bus,
        addr,
        reg: None,
        mode: None,
        pec: false,
        len: None,
    };
    read_reg(words, at + 2, get)
}

/// Reads what stands behind the first word.
#[tactic(auto, unfolding(crate::specs::Gets::get_words), using(crate::proofs::OptionLemmas::options_read))]
pub fn read_get(words: &[&[u8]]) -> Result<Cmd, WordRefused>
    ensures { result ≡ read_at get_words (texts words.now) 1 }
{
    let (force, at) = options(words, 1)?;
    read_bus(words, at, force)
}

fn mode_of(get: &Get) -> GetMode
    ensures { result ≡ mode_of_get get.now }
{
    get.mode.unwrap_or(GetMode::Byte)
}

fn len_of(get: &Get) -> u8
    ensures { result ≡ len_of get.now }
{
    get.len.unwrap_or(I2C_BLOCK_LIMIT)
}

// To whom its calls go.
fn callee(get: &Get) -> Callee
    ensures { result ≡ get_callee get.now }
{
    Callee {
        bus: get.bus,
        addr: get.addr,
        force: get.force,
        pec: get.pec,
    }
}

// One call.
fn call(get: &Get, op: HeldOp) -> ToolRun
    ensures { result ≡ get_call get.now op }
{
    ToolRun::Calls(HeldCall {
        to: callee(get),
        op,
    })
}

// How it reads this register.
fn register_run(get: &Get, reg: u8) -> ToolRun
    requires { IsGetInRange get.now }
    ensures { result ≡ register_run get.now reg (mode_of_get get.now) }
{
    match mode_of(get) {
        GetMode::Byte => call(get, HeldOp::ReadByte(reg)),
        GetMode::Word => call(get, HeldOp::ReadWord(reg)),
        GetMode::SendReceive => ToolRun::Chains(Chain {
            to: callee(get),
            sent: reg,
        }),
        GetMode::Block => call(get, HeldOp::BlockRead(reg)),
        GetMode::I2cBlock => call(get, HeldOp::I2cBlockRead(reg, BlockLen::new(len_of(get)))),
    }
}

/// How it runs.
pub fn run(get: &Get) -> ToolRun
    requires { IsGetInRange get.now }
    ensures { result ≡ get_run get.now }
{
    match get.reg {
        None => call(get, HeldOp::ReceiveByte),
        Some(reg) => register_run(get, reg),
    }
}
