//! The messages of a transfer.

ghost use Rattle.std.specs.Prelude.{◌≡◌, ◌==◌, [], length};
ghost use Rattle.i2c_base.specs.Transfer.{written_of};
ghost use Rattle.i2c_spec.specs.Conversation as spec;
ghost use Rattle.i2c_spec.specs.Flat.{block_limit, cut_in, flat_listener, granted_on};
ghost use Rattle.i2c_spec.specs.Messages.{messages_of};
ghost use Rattle.flat_world.specs.Devices.{once_listener};
ghost use Rattle.flat_world.specs.Sending.{all_with};

use crate::devices::Devices;
use crate::message::send;
use crate::site::Site;
use i2c_base::{Bytes, Cut, End, Transfer};

/// Sends the messages of a transfer, one after the other, until one doesn't go through. How the last one ended; what
/// they read is put into `got`.
pub fn send_all(
    site: &Site<'_>,
    now: &mut Devices,
    transfer: &Transfer,
    cut: Cut,
    got: &mut Bytes,
) -> End
    requires { got.old ≡ [] }
    ensures { all_with got.new now.new result
        ≡ spec.talk_all (once_listener (granted_on site.now.board site.now.bus site.now.force)) (block_limit site.now.board) now.old (messages_of transfer.now) 0 (cut_in cut) [] }
{
    let limit = site.limit();
    let msgs = transfer.msgs();
    let mut rest = transfer.out();
    for (i, msg) in msgs.iter().enumerate() {
        let (bytes, behind) = rest.split_at(usize::from(msg.written()));
        rest = behind;
        let last = i + 1 == msgs.len();
        let end = send(
            now,
            site.granted(msg.addr),
            cut_in(cut, i),
            last,
            limit,
            msg,
            bytes,
            got,
        );
        if !is_good(end) {
            return end;
        }
    }
    End::Ok
}

/// The message went through.
fn is_good(end: End) -> bool
    ensures { result ≡ spec.is_good end }
{
    match end {
        End::Ok => true,
        End::Nack | End::Slow | End::Refused | End::Proto | End::Cut(_) => false,
    }
}

/// The place of failure in message `i`.
fn cut_in(cut: Cut, i: usize) -> Option<u16>
    ensures { result ≡ cut_in cut i }
{
    match cut {
        Cut::No | Cut::Way => None,
        Cut::At { msg, call } => { if msg as usize == i { Some(call) } else { None } }
    }
}
