//! What the row of each call says beside the bytes of its write.

ghost use Rattle.std.specs.Prelude.{◌≡◌, ◌≤◌};
ghost use Rattle.smb_emul.specs.Calls.{HasBlock, IsShortRead, least_read, bytes_needed, call_row};

use crate::SmbOp;
use i2c_spec::{ReadShape, ValueShape};

/// A row without the bytes of its write.
#[derive(Clone, Copy)]
pub(crate) struct RowShape {
    pub read: ReadShape,
    pub checked: bool,
    pub value: ValueShape,
}

/// The row of a call.
pub(crate) fn row_shape(op: &SmbOp<'_>) -> RowShape
    requires { HasBlock op.now }
    ensures read { result.read ≡ (call_row op.now).read }
    ensures checked { result.checked ≡ (call_row op.now).checked }
    ensures value { result.value ≡ (call_row op.now).value }
    ensures short { IsShortRead result.read }
    ensures enough { bytes_needed result.value ≤ least_read result.read }
{
    let (read, checked, value) = match op {
        SmbOp::Quick => (ReadShape::Nothing, false, ValueShape::Done),
        SmbOp::SendByte(_) => (ReadShape::Nothing, true, ValueShape::Done),
        SmbOp::ReceiveByte => (ReadShape::Plain(1), true, ValueShape::Byte),
        SmbOp::WriteByte(_, _) => (ReadShape::Nothing, true, ValueShape::Done),
        SmbOp::ReadByte(_) => (ReadShape::Plain(1), true, ValueShape::Byte),
        SmbOp::WriteWord(_, _) => (ReadShape::Nothing, true, ValueShape::Done),
        SmbOp::ReadWord(_) => (ReadShape::Plain(2), true, ValueShape::Word),
        SmbOp::ProcCall(_, _) => (ReadShape::Plain(2), true, ValueShape::Word),
        SmbOp::BlockWrite(_, _) => (ReadShape::Nothing, true, ValueShape::Done),
        SmbOp::BlockRead(_) => (ReadShape::Counted, true, ValueShape::CountedBlock),
        SmbOp::BlockProc(_, _) => (ReadShape::Counted, true, ValueShape::CountedBlock),
        SmbOp::I2cBlockWrite(_, _) => (ReadShape::Nothing, false, ValueShape::Done),
        SmbOp::I2cBlockRead(_, len) => {
            (ReadShape::Plain(u16::from(*len)), false, ValueShape::Block)
        }
    };
    RowShape {
        read,
        checked,
        value,
    }
}
