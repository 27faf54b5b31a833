//! The messages of a call.

ghost use Rattle.std.specs.Prelude.{◌≡◌, ◌+◌, ◌<◌, ◌++◌, Some, length};
ghost use Rattle.smb_emul.specs.Calls.{HasBlock, IsShortRead, messages_of_call, read_messages, write_messages, bytes_sent};
ghost use Rattle.smb_emul.specs.Written.{written_bytes};
ghost use Rattle.i2c_base.specs.Transfer.{HasRoom};

use crate::SmbCall;
use crate::codes::code_of_write;
use crate::rows::row_shape;
use crate::written::Written;
use i2c_base::{Addr, ByteList, ByteStore, Transfer, TransferKind};
use i2c_spec::ReadShape;

/// The transfer that a call asks for (SMBus 3.2, sections 6.4 and 6.5).
pub fn messages(call: &SmbCall<'_>) -> Transfer
    requires { HasBlock call.now.op }
    ensures { result ≡ messages_of_call call.now }
{
    let mut transfer = Transfer::new(call.bus, TransferKind::Smbus, call.force);
    put_messages(call, &mut transfer);
    transfer
}

/// Makes this transfer the one that a call asks for, in place. What was in it is gone.
pub fn put_messages(call: &SmbCall<'_>, transfer: &mut Transfer)
    requires { HasBlock call.now.op }
    ensures { transfer.new ≡ messages_of_call call.now }
{
    let shape = row_shape(&call.op);
    let coded = call.pec && shape.checked;
    transfer.restart(call.bus, TransferKind::Smbus, call.force);
    if let Some(write) = Written::of(&call.op) {
        add_write(transfer, call.addr, coded, shape.read, &write);
    }
    add_read(transfer, call.addr, coded, shape.read);
}

// Adds what is written, with the error code after it where nothing is read.
fn add_write(transfer: &mut Transfer, addr: Addr, coded: bool, read: ReadShape, write: &Written<'_>)
    requires room { HasRoom transfer.old.msgs 259 259 }
    ensures { let bytes = Some (written_bytes write.now) in transfer.new ≡ record transfer.old {
      msgs = transfer.old.msgs ++ write_messages addr coded read bytes;
      out = transfer.old.out ++ bytes_sent addr coded read bytes;
    } }
{
    let has_code = coded && matches!(read, ReadShape::Nothing);
    if write.block.is_empty() && !has_code {
        let _ = transfer.add_write(addr, write.head.as_slice());
    } else if write.block.is_empty() {
        let bytes: ByteStore<4> = sent(addr, coded, read, write);
        let _ = transfer.add_write(addr, bytes.as_slice());
    } else {
        let bytes: ByteList = sent(addr, coded, read, write);
        let _ = transfer.add_write(addr, bytes.as_slice());
    }
}

// The bytes of a write, with the error code after them where nothing is read.
fn sent<const N: usize>(
    addr: Addr,
    coded: bool,
    read: ReadShape,
    write: &Written<'_>,
) -> ByteStore<N>
    requires { length (written_bytes write.now) < N }
    ensures { result ≡ bytes_sent addr coded read (Some (written_bytes write.now)) }
{
    let mut bytes = ByteStore::new();
    bytes.extend(write.head.as_slice());
    bytes.extend(write.block);
    if coded && matches!(read, ReadShape::Nothing) {
        bytes.push(code_of_write(addr, write));
    }
    bytes
}

// Adds what is read, with the error code after it.
fn add_read(transfer: &mut Transfer, addr: Addr, coded: bool, read: ReadShape)
    requires short { IsShortRead read }
    requires room { HasRoom transfer.old.msgs 258 258 }
    ensures { transfer.new ≡ record transfer.old { msgs = transfer.old.msgs ++ read_messages addr coded read } }
{
    match read {
        ReadShape::Nothing => {}
        ReadShape::Plain(len) => {
            let len = if coded { len + 1 } else { len };
            let _ = transfer.add_read(addr, len);
        }
        ReadShape::Counted => {
            let _ = transfer.add_counted(addr, coded);
        }
    }
}
