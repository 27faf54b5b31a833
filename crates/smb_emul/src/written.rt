//! The bytes of a call's write, with its block left where it lies.

ghost use Rattle.i2c_base.specs.Limits.{LARGEST_BLOCK};
ghost use Rattle.std.specs.Prelude.{◌≤◌, length};

use crate::SmbOp;
use i2c_base::ByteStore;

/// The bytes of a write: the command byte with what stands beside it, and after them the block.
#[derive(Drop)]
pub(crate) struct Written<'b> {
    pub head: ByteStore<3>,
    pub block: &'b [u8],
    ghost few: { length head ≤ 3 },
    ghost short: { length block.now ≤ LARGEST_BLOCK },
}

impl<'b> Written<'b> {
    ghost use Rattle.std.specs.Prelude.{◌≡◌, [], ◌∷◌, ◌++◌, option_map};
    ghost use Rattle.i2c_spec.specs.SmbusCalls.{low_byte_first, counted_block};
    ghost use Rattle.smb_emul.specs.Calls.{HasBlock, call_row};
    ghost use Rattle.smb_emul.specs.Written.{written_bytes};

    /// What a call writes; one without a write begins with its read.
    pub(crate) fn of(op: &SmbOp<'b>) -> Option<Self>
        requires { HasBlock op.now }
        ensures { option_map written_bytes result ≡ (call_row op.now).write }
    {
        match op {
            SmbOp::Quick => Some(Self::few(&[])),
            SmbOp::SendByte(byte) => Some(Self::one(*byte)),
            SmbOp::ReceiveByte => None,
            SmbOp::WriteByte(command, byte) => Some(Self::few(&[*command, *byte])),
            SmbOp::ReadByte(command) => Some(Self::one(*command)),
            SmbOp::WriteWord(command, word) => Some(Self::few(&Self::word_behind(*command, *word))),
            SmbOp::ReadWord(command) => Some(Self::one(*command)),
            SmbOp::ProcCall(command, word) => Some(Self::few(&Self::word_behind(*command, *word))),
            SmbOp::BlockWrite(command, block) => Some(Self::counted(*command, block)),
            SmbOp::BlockRead(command) => Some(Self::one(*command)),
            SmbOp::BlockProc(command, block) => Some(Self::counted(*command, block)),
            SmbOp::I2cBlockWrite(command, block) => Some(Self::behind(&[*command], block)),
            SmbOp::I2cBlockRead(command, _) => Some(Self::one(*command)),
        }
    }

    // This byte, and no block.
    fn one(byte: u8) -> Self
        ensures { written_bytes result ≡ byte ∷ [] }
    {
        let mut head = ByteStore::new();
        head.push(byte);
        Written { head, block: &[] }
    }

    // These bytes, and no block.
    fn few(bytes: &[u8]) -> Self
        requires { length bytes.now ≤ 3 }
        ensures { written_bytes result ≡ bytes.now }
    {
        Self::behind(bytes, &[])
    }

    // A command byte, a count and the block.
    fn counted(command: u8, block: &'b [u8]) -> Self
        requires { length block.now ≤ LARGEST_BLOCK }
        ensures { written_bytes result ≡ command ∷ counted_block block.now }
    {
        Self::behind(&[command, block.len() as u8], block)
    }

    // A block after these bytes.
    fn behind(bytes: &[u8], block: &'b [u8]) -> Self
        requires head { length bytes.now ≤ 3 }
        requires short { length block.now ≤ LARGEST_BLOCK }
        ensures { written_bytes result ≡ bytes.now ++ block.now }
    {
        let mut head = ByteStore::new();
        head.extend(bytes);
        Written { head, block }
    }

    // A command byte, and a word with its low byte first.
    fn word_behind(command: u8, word: u16) -> [u8; 3]
        ensures { result ≡ command ∷ low_byte_first word }
    {
        [command, (word % 256) as u8, (word / 256) as u8]
    }
}
