//! The value of a call's reply.

ghost use Rattle.std.specs.Prelude.{◌≡◌, ◌≤◌, length};
ghost use Rattle.i2c_base.specs.Fitting.{Fits};
ghost use Rattle.i2c_base.specs.declared.reply.Reply.TheVariants.{Read};
ghost use Rattle.smb_emul.specs.Calls.{HasBlock, messages_of_call, bytes_needed, call_row, value_by, value_of_call, wanted_code};
ghost use Rattle.smb_emul.specs.Value.{value_seen, outcome_seen};

use crate::codes::{code_behind, code_written};
use crate::rows::row_shape;
use crate::{SmbCall, SmbFail, SmbValue};
use i2c_base::Reply;
use i2c_spec::ValueShape;

/// The value of a call whose transfer was answered so (SMBus 3.2, section 6.5); a block is left in the reply. `Pec` comes
/// exactly where the call has an error code, the reply is `Read`, and the last byte is not the code of those before it.
pub fn value_of<'r>(call: &SmbCall<'_>, reply: &'r Reply) -> Result<SmbValue<'r>, SmbFail>
    requires block { HasBlock call.now.op }
    requires reply { Fits (messages_of_call call.now) reply.now }
    ensures { outcome_seen result ≡ value_of_call call.now reply.now }
{
    match reply {
        Reply::Done => Ok(SmbValue::Done),
        Reply::Read(bytes) => value_read(call, bytes.as_slice()),
        Reply::Err(errno) => Err(SmbFail::Errno(*errno)),
    }
}

/// The value of a call whose transfer read these bytes; a block is left among them. `Pec` comes exactly where the call
/// has an error code and the last byte is not the code of those before it (SMBus 3.2, section 6.4).
pub fn value_read<'r>(call: &SmbCall<'_>, bytes: &'r [u8]) -> Result<SmbValue<'r>, SmbFail>
    requires block { HasBlock call.now.op }
    requires reply { Fits (messages_of_call call.now) (Read bytes.now) }
    ensures { outcome_seen result ≡ value_of_call call.now (Read bytes.now) }
{
    let shape = row_shape(&call.op);
    if !(call.pec && shape.checked) {
        return Ok(value(shape.value, bytes));
    }
    let last = bytes.len() - 1;
    let held = &bytes[..last];
    let got = bytes[last];
    let want = wanted_code(call, held);
    if got == want {
        Ok(value(shape.value, held))
    } else {
        Err(SmbFail::Pec { got, want })
    }
}

// The error code of the bytes written and read, with the address bytes.
fn wanted_code(call: &SmbCall<'_>, held: &[u8]) -> u8
    requires { HasBlock call.now.op }
    ensures { result ≡ wanted_code call.now.addr (call_row call.now.op) held.now }
{
    let code = code_behind(code_written(call), &[2 * call.addr.get() + 1]);
    code_behind(code, held)
}

// The value of these bytes.
fn value(shape: ValueShape, held: &[u8]) -> SmbValue<'_>
    requires { bytes_needed shape ≤ length held.now }
    ensures { value_seen result ≡ value_by shape held.now }
{
    match shape {
        ValueShape::Done => SmbValue::Done,
        ValueShape::Byte => SmbValue::Byte(held[0]),
        ValueShape::Word => SmbValue::Word(u16::from(held[0]) + 256 * u16::from(held[1])),
        ValueShape::Block => SmbValue::Block(held),
        ValueShape::CountedBlock => SmbValue::Block(&held[1..]),
    }
}
