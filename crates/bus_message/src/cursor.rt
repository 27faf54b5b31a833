//! A caller's transfer partway: how far it has come, and its next message.
ghost use Rattle.std.specs.Prelude.{◌≡◌, ◌+◌, ◌<◌, ◌≤◌, ℕ, length, take, drop, sum_by};
ghost use Rattle.i2c_base.specs.Limits.{LARGEST_BLOCK};
ghost use Rattle.i2c_base.specs.Transfer.{written_of};
ghost use Rattle.bus_message.specs.Sends.{call_message};
ghost use Rattle.bus_message.specs.Talks.{IsSendable};

use crate::message::Message;
use i2c_base::{Grant, Transfer};
use std::marker::Model;

/// A caller's transfer partway. A contract sees the record of these parts.
#[derive(Drop)]
pub struct TransferCursor<'a> {
    pub transfer: &'a Transfer,
    /// So many of its messages are gone, and so many bytes of its writes with them.
    pub sent: u8,
    pub written: u16,
    /// To whom its next message leads.
    pub grant: Grant,
}

impl<'a> Model for TransferCursor<'a> {
    ghost use Rattle.bus_message.specs.Cursors.{CursorView};

    ghost Value = { CursorView };

    ghost view = { λ c. record { transfer = c.transfer.now; sent = c.sent; written = c.written; grant = c.grant } };
}

// So many bytes from a place on.
fn part(bytes: &[u8], start: usize, len: usize) -> &[u8]
    requires { start + len ≤ length bytes.now }
    ensures { result.now ≡ take len (drop start bytes.now) }
{
    let (_, behind) = bytes.split_at(start);
    let (part, _) = behind.split_at(len);
    part
}

impl<'a> TransferCursor<'a> {
    /// The next message of its transfer.
    pub fn message(&self) -> Message<'_>
        requires more { self.now.sent < length self.now.transfer.msgs }
        requires wrote { self.now.written ≡ sum_by written_of (take self.now.sent self.now.transfer.msgs) }
        ensures value { result ≡ call_message self.now.transfer self.now.sent }
        ensures sendable { (limit : ℕ) → 1 ≤ limit → limit ≤ LARGEST_BLOCK → IsSendable limit result }
    {
        let msg = self.transfer.msgs()[usize::from(self.sent)];
        let len = msg.written();
        Message {
            addr: msg.addr,
            reading: msg.is_read(),
            counted: msg.is_counted(),
            len: msg.len,
            bytes: part(
                self.transfer.out(),
                usize::from(self.written),
                usize::from(len),
            ),
        }
    }
}
