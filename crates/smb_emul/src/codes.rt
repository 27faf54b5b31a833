//! The error code, which runs along with the bytes (SMBus 3.2, section 6.4).

ghost use Rattle.std.specs.Prelude.{◌≡◌, ◌*◌, Some};
ghost use Rattle.smb_pec.specs.LongDivision.{pec};
ghost use Rattle.smb_emul.specs.Calls.{HasBlock, call_row, write_on_wire};
ghost use Rattle.smb_emul.specs.Codes.{RunsOn};
ghost use Rattle.smb_emul.specs.Written.{written_bytes};

use crate::SmbCall;
use crate::written::Written;
use i2c_base::Addr;
use smb_pec::pec_with;

/// The error code of some bytes and of these after them, from the code of those; of no byte it is 0.
pub(crate) fn code_behind(code: u8, bytes: &[u8]) -> u8
    ensures { RunsOn code bytes.now result }
{
    let mut along = code;
    for byte in bytes {
        along = pec_with(along, *byte);
    }
    along
}

/// The error code of a write, with its address byte.
pub(crate) fn code_of_write(addr: Addr, write: &Written<'_>) -> u8
    ensures { result ≡ pec (write_on_wire addr (Some (written_bytes write.now))) }
{
    let code = code_behind(0, &[2 * addr.get()]);
    let code = code_behind(code, write.head.as_slice());
    code_behind(code, write.block)
}

/// The error code of what a call writes, with the address byte; of no write it is 0.
pub(crate) fn code_written(call: &SmbCall<'_>) -> u8
    requires { HasBlock call.now.op }
    ensures { result ≡ pec (write_on_wire call.now.addr (call_row call.now.op).write) }
{
    match Written::of(&call.op) {
        Some(write) => code_of_write(call.addr, &write),
        None => 0,
    }
}
