//! The reply of a transfer in progress, gathered as its reads come.
ghost use Rattle.std.specs.Prelude.{◌≡◌, ◌+◌, ◌≤◌, ◌++◌, [], length};
ghost use Rattle.i2c_base.specs.Limits.{MOST_BYTES};
ghost use Rattle.i2c_base.specs.Replies.{reply_by, most_read};
ghost use Rattle.bus_core.specs.Replies.{reply_decided};

use i2c_base::{Bytes, Errno, ReplyHead};
use std::marker::Model;

/// Which of its replies a transfer was settled with.
#[derive(Clone, Copy)]
pub enum Decided {
    Done,
    Read,
    Failed,
}

/// What a transfer in progress has come to: what its reads gave so far, and the error that it ended with, if it did. A
/// contract sees both.
#[derive(Drop)]
pub struct Replies {
    got: Bytes,
    errno: Errno,
}

impl Model for Replies {
    ghost use Rattle.bus_core.specs.Replies.{RepliesView};

    ghost Value = { RepliesView };

    ghost view = { λ r. record { got = r.got; errno = r.errno } };
}

impl Replies {
    /// Nothing was read yet.
    pub fn new() -> Self
        ensures { result.got ≡ [] }
    {
        Replies {
            got: Bytes::new(),
            errno: Errno::Eio,
        }
    }

    /// Nothing was read of the next transfer yet.
    pub fn clear(&mut self)
        ensures { self.new.got ≡ [] }
    {
        self.got.clear();
    }

    /// Puts bytes that were read at the end.
    pub fn extend(&mut self, bytes: &[u8])
        requires { length self.old.got + length bytes.now ≤ MOST_BYTES }
        ensures { self.new ≡ record self.old { got = self.old.got ++ bytes.now } }
    {
        self.got.extend(bytes);
    }

    /// The transfer ended with this error.
    pub fn fail(&mut self, errno: Errno)
        ensures { self.new ≡ record self.old { errno = errno } }
    {
        self.errno = errno;
    }

    /// The reply that the transfer was settled with: its head, and its bytes where they lie.
    pub fn reply(&self, decided: Decided) -> (ReplyHead, &[u8])
        ensures same { reply_by result.0 result.1.now ≡ reply_decided decided self.now }
        ensures few { length result.1.now ≤ most_read result.0 }
    {
        match decided {
            Decided::Done => (ReplyHead::Done, &[]),
            Decided::Read => (ReplyHead::Read, self.got.as_slice()),
            Decided::Failed => (ReplyHead::Err(self.errno), &[]),
        }
    }
}
