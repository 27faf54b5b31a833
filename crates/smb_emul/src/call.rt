//! The calls, and what they bring. A block is left where it lies.

use i2c_base::{Addr, Errno};

/// A call with what it sends (SMBus 3.2, section 6.5). The first byte of each is its command byte.
#[derive(Clone, Copy)]
pub enum SmbOp<'b> {
    Quick,
    SendByte(u8),
    ReceiveByte,
    WriteByte(u8, u8),
    ReadByte(u8),
    WriteWord(u8, u16),
    ReadWord(u8),
    ProcCall(u8, u16),
    BlockWrite(u8, &'b [u8]),
    BlockRead(u8),
    BlockProc(u8, &'b [u8]),
    I2cBlockWrite(u8, &'b [u8]),
    I2cBlockRead(u8, u8),
}

/// A call to a target. With `force` it goes to a device that a driver is bound to as well, and with `pec` it has an
/// error code where its row knows one.
#[derive(Clone, Copy)]
pub struct SmbCall<'b> {
    pub bus: u16,
    pub addr: Addr,
    pub force: bool,
    pub pec: bool,
    pub op: SmbOp<'b>,
}

/// What a call brings. A block comes without its count, and lies in the reply.
#[derive(Clone, Copy)]
pub enum SmbValue<'r> {
    Done,
    Byte(u8),
    Word(u16),
    Block(&'r [u8]),
}

/// Why a call brings no value: its transfer failed, or the error code that was read is not that of the bytes.
#[derive(Clone, Copy)]
pub enum SmbFail {
    Errno(Errno),
    Pec { got: u8, want: u8 },
}
