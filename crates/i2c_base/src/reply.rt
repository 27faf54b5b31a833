//! The reply of a transfer, and where a failed call on the port cut it off.
ghost use Rattle.std.specs.Prelude.{◌≡◌, ◌≤◌, length};
ghost use Rattle.i2c_base.specs.Need.{bytes_given};
ghost use Rattle.i2c_base.specs.Replies.{reply_by, most_read};

use crate::{Bytes, Errno};

/// A reply without its bytes.
#[derive(Clone, Copy)]
pub enum ReplyHead {
    /// It went through, and no message of it reads.
    Done,
    /// It went through: what its reads gave stands beside.
    Read,
    Err(Errno),
}

/// The answer of a transfer.
#[derive(Drop)]
pub enum Reply {
    /// It went through, and no message of it reads.
    Done,
    /// It went through: the bytes of its reads, in order.
    Read(Bytes),
    Err(Errno),
}

impl Reply {
    /// The reply of this head and these bytes.
    pub fn new(head: ReplyHead, bytes: &[u8]) -> Self
        requires { length bytes.now ≤ most_read head }
        ensures { result ≡ reply_by head bytes.now }
    {
        match head {
            ReplyHead::Done => Reply::Done,
            ReplyHead::Read => {
                let mut read = Bytes::new();
                read.extend(bytes);
                Reply::Read(read)
            }
            ReplyHead::Err(errno) => Reply::Err(errno),
        }
    }

    /// Its head, and its bytes where they lie.
    pub fn split(&self) -> (ReplyHead, &[u8])
        ensures same { reply_by result.0 result.1.now ≡ self.now }
        ensures bytes { result.1.now ≡ bytes_given self.now }
        ensures few { length result.1.now ≤ most_read result.0 }
    {
        match self {
            Reply::Done => (ReplyHead::Done, &[]),
            Reply::Read(bytes) => (ReplyHead::Read, bytes.as_slice()),
            Reply::Err(errno) => (ReplyHead::Err(*errno), &[]),
        }
    }

    /// The same reply again.
    pub fn copied(&self) -> Self
        ensures { result ≡ self.now }
    {
        match self {
            Reply::Done => Reply::Done,
            Reply::Read(bytes) => Reply::Read(bytes.copied()),
            Reply::Err(errno) => Reply::Err(*errno),
        }
    }
}

/// Where a failed call on the port cut a transfer off.
#[derive(Clone, Copy)]
pub enum Cut {
    No,
    /// On the way, before its first message.
    Way,
    /// In its message `msg`, from 0, after so many port calls of that message.
    At { msg: u8, call: u16 },
}
