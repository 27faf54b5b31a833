//! SMBus calls that are kept until their turn, and what is printed of the reply to one.

ghost use Rattle.std.specs.Prelude.{◌≡◌, ◌+◌, ◌*◌, ◌≤◌, ◌++◌, length};
ghost use Rattle.std.specs.List.{flat_map};
ghost use Rattle.bus_journal.specs.Reports.{line_ended};
ghost use Rattle.i2c_base.specs.Fitting.{Fits};
ghost use Rattle.i2c_base.specs.Replies.{reply_by};
ghost use Rattle.smb_emul.specs.Calls.{HasBlock, IsBlockLength, messages_of_call};
ghost use Rattle.tools.specs.Calls.{DoesTheSame, call_to, held_call, smb_op, block_most, calls, call_text, text_most};
ghost use Rattle.tools.specs.Dialogues.{AreReplies};

use crate::lists::Octets;
use crate::replies::Window;
use crate::text::Text;
use crate::value::{MOST_BESIDE, push_errno, push_outcome};
use i2c_base::{Addr, I2C_BLOCK_LIMIT, LARGEST_BLOCK, ReplyHead, Transfer};
use smb_emul::{SmbCall, SmbOp, put_messages, value_read};
use std::marker::Model;

/// To whom a call goes: also to a device that a driver is bound to, with `force`, and with an error code, with `pec`.
#[derive(Clone, Copy)]
pub struct Callee {
    pub bus: u16,
    pub addr: Addr,
    pub force: bool,
    pub pec: bool,
}

impl Callee {
    /// A call to it.
    #[inline(always)]
    pub fn call<'b>(&self, op: SmbOp<'b>) -> SmbCall<'b>
        ensures { result ≡ call_to self.now op.entry }
    {
        SmbCall {
            bus: self.bus,
            addr: self.addr,
            force: self.force,
            pec: self.pec,
            op,
        }
    }
}

/// How many bytes are asked for of a block that has no count, 1 to 32. A contract sees the number.
#[derive(Clone, Copy)]
pub struct BlockLen {
    bytes: u8,
}

impl Model for BlockLen {
    ghost use Rattle.std.specs.Prelude.{ℕ};
    ghost use Rattle.i2c_base.specs.Limits.{I2C_BLOCK_LIMIT};
    ghost use Rattle.smb_emul.specs.Calls.{IsBlockLength};

    ghost Value = { ℕ };

    ghost view = { λ l. l.bytes };

    ghost invariant = { λ l. IsBlockLength I2C_BLOCK_LIMIT l.bytes };

    ghost inverse = { λ n. record { bytes = n } };
}

impl BlockLen {
    /// So many bytes.
    pub fn new(bytes: u8) -> Self
        requires { IsBlockLength I2C_BLOCK_LIMIT bytes }
        ensures { result ≡ bytes }
    {
        BlockLen { bytes }
    }

    fn get(self) -> u8
        ensures value { result ≡ self }
        ensures range { IsBlockLength I2C_BLOCK_LIMIT self }
    {
        self.bytes
    }
}

/// The bytes of a block that is written, 1 to `MOST` of them. A contract sees the list.
#[derive(Drop)]
pub struct HeldBlock<const MOST: u8> {
    bytes: Octets,
}

impl<const MOST: u8> Model for HeldBlock<MOST> {
    ghost use Rattle.std.specs.Prelude.{ℕ, List, length};
    ghost use Rattle.smb_emul.specs.Calls.{IsBlockLength};

    ghost Value = { List ℕ };

    ghost view = { λ b. b.bytes };

    ghost invariant = { λ b. IsBlockLength MOST (length b.bytes) };
}

impl<const MOST: u8> HeldBlock<MOST> {
    pub fn new(bytes: Octets) -> Self
        requires { IsBlockLength MOST (length bytes) }
        ensures { result ≡ bytes }
    {
        HeldBlock { bytes }
    }

    fn as_slice(&self) -> &[u8]
        ensures value { result.now ≡ self.now }
        ensures length { IsBlockLength MOST (length result.now) }
    {
        self.bytes.as_slice()
    }
}

/// What a call does.
#[derive(Drop)]
pub enum HeldOp {
    SendByte(u8),
    ReceiveByte,
    WriteByte(u8, u8),
    WriteWord(u8, u16),
    BlockWrite(u8, HeldBlock<LARGEST_BLOCK>),
    I2cBlockWrite(u8, HeldBlock<I2C_BLOCK_LIMIT>),
    ReadByte(u8),
    ReadWord(u8),
    BlockRead(u8),
    I2cBlockRead(u8, BlockLen),
    ProcCall(u8, u16),
    BlockProc(u8, HeldBlock<LARGEST_BLOCK>),
}

impl HeldOp {
    // The same, as it goes into a call.
    #[inline(always)]
    fn lend(&self) -> SmbOp<'_>
        ensures same { DoesTheSame result (smb_op self.now) }
        ensures block { HasBlock result }
    {
        match self {
            HeldOp::SendByte(byte) => SmbOp::SendByte(*byte),
            HeldOp::ReceiveByte => SmbOp::ReceiveByte,
            HeldOp::WriteByte(reg, byte) => SmbOp::WriteByte(*reg, *byte),
            HeldOp::WriteWord(reg, word) => SmbOp::WriteWord(*reg, *word),
            HeldOp::BlockWrite(reg, block) => SmbOp::BlockWrite(*reg, block.as_slice()),
            HeldOp::I2cBlockWrite(reg, block) => SmbOp::I2cBlockWrite(*reg, block.as_slice()),
            HeldOp::ReadByte(reg) => SmbOp::ReadByte(*reg),
            HeldOp::ReadWord(reg) => SmbOp::ReadWord(*reg),
            HeldOp::BlockRead(reg) => SmbOp::BlockRead(*reg),
            HeldOp::I2cBlockRead(reg, len) => SmbOp::I2cBlockRead(*reg, len.get()),
            HeldOp::ProcCall(reg, word) => SmbOp::ProcCall(*reg, *word),
            HeldOp::BlockProc(reg, block) => SmbOp::BlockProc(*reg, block.as_slice()),
        }
    }

    // The block that is read has at most so many bytes.
    fn block_most(&self) -> usize
        ensures value { result ≡ block_most (smb_op self.now) }
        ensures few { result ≤ 255 }
    {
        match self {
            HeldOp::BlockRead(_) => usize::from(LARGEST_BLOCK),
            HeldOp::BlockProc(_, _) => usize::from(LARGEST_BLOCK),
            HeldOp::I2cBlockRead(_, len) => usize::from(len.get()),
            _ => 0,
        }
    }
}

/// An SMBus call that is kept until its turn.
#[derive(Drop)]
pub struct HeldCall {
    pub to: Callee,
    pub op: HeldOp,
}

impl HeldCall {
    /// Puts its transfer in place of another.
    #[inline(always)]
    pub fn put(&self, transfer: &mut Transfer)
        ensures { transfer.new ≡ messages_of_call (held_call self.now) }
    {
        let op = self.op.lend();
        let call = self.to.call(op);
        put_messages(&call, transfer);
    }

    /// Prints its value on a line, or why there is none.
    pub fn print(&self, replies: Window<'_>, out: &mut Text)
        requires fit { AreReplies (calls self.now) 0 replies }
        requires room { (calls self.now).most ≤ out.old.room }
        ensures bytes { out.new.bytes ≡ out.old.bytes ++ flat_map line_ended ((calls self.now).lines replies.entry) }
        ensures room { out.old.room ≤ out.new.room + (calls self.now).most }
    {
        match replies.get(0) {
            Some((head, bytes)) => {
                let op = self.op.lend();
                let call = self.to.call(op);
                push_call(out, &call, head, bytes);
            }
            None => out.push(b"ok"),
        }
        out.push_byte(b'\n');
    }

    /// The most bytes of its line.
    pub fn most(&self) -> usize
        ensures { result ≡ (calls self.now).most }
    {
        MOST_BESIDE + 5 * self.op.block_most() + 1
    }
}

/// Prints the value of a call, or why there is none.
pub fn push_call(out: &mut Text, call: &SmbCall<'_>, head: ReplyHead, bytes: &[u8])
    requires block { HasBlock call.now.op }
    requires fits { Fits (messages_of_call call.now) (reply_by head bytes.now) }
    requires room { text_most call.now.op ≤ out.old.room }
    ensures bytes { out.new.bytes ≡ out.old.bytes ++ call_text call.now (reply_by head bytes.now) }
    ensures room { out.old.room ≤ out.new.room + text_most call.now.op }
{
    match head {
        ReplyHead::Done => out.push(b"ok"),
        ReplyHead::Read => push_outcome(out, value_read(call, bytes)),
        ReplyHead::Err(errno) => push_errno(out, errno),
    }
}
