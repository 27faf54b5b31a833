//! Entries of the journal whose bytes lie elsewhere.
ghost use Rattle.std.specs.Prelude.{◌≡◌, ◌≤◌, length};
ghost use Rattle.i2c_base.specs.declared.entry.Entry.TheVariants as entry;
ghost use Rattle.bus_journal.specs.Borrowed.{entry_seen, most_bytes};
ghost use Rattle.i2c_base.specs.Need.{bytes_given};
ghost use Rattle.i2c_base.specs.Replies.{reply_by, most_read};

use i2c_base::{
    Addr, ByteStore, Cut, End, Entry, LockId, MuxId, Node, Purpose, Reply, ReplyHead, SegId,
};

/// An entry without its bytes: its other parts are those of an `Entry`.
#[derive(Clone, Copy)]
pub enum Head {
    Take {
        caller: u8,
        lock: LockId,
    },
    Free {
        caller: u8,
        lock: LockId,
    },
    Message {
        caller: u8,
        bus: SegId,
        purpose: Purpose,
        part: u8,
        parts: u8,
        addr: Addr,
        reading: bool,
        heard: Option<Node>,
        end: End,
    },
    Line {
        caller: u8,
        mux: MuxId,
        level: u8,
        failed: bool,
    },
    Settle {
        caller: u8,
        answer: ReplyHead,
        cut: Cut,
    },
}

/// An entry whose bytes lie elsewhere: of a message at most 512, of a settle at most 4,096, and none of any other.
#[derive(Clone, Copy)]
pub struct EntryRef<'a> {
    pub head: Head,
    pub bytes: &'a [u8],
}

// The same bytes in a list that holds them.
fn held<const N: usize>(bytes: &[u8]) -> ByteStore<N>
    requires { length bytes.now ≤ N }
    ensures { result ≡ bytes.now }
{
    let mut held = ByteStore::new();
    held.extend(bytes);
    held
}

impl<'a> EntryRef<'a> {
    /// The entry of a settle with a reply of this head and these bytes.
    pub fn settle(caller: u8, answer: ReplyHead, bytes: &'a [u8], cut: Cut) -> Self
        requires { length bytes.now ≤ most_read answer }
        ensures seen { entry_seen result ≡ entry.Settle caller (reply_by answer bytes.now) cut }
        ensures bytes { result.bytes.now ≡ bytes_given (reply_by answer bytes.now) }
        ensures few { length result.bytes.now ≤ most_bytes result.head }
    {
        EntryRef {
            head: Head::Settle {
                caller,
                answer,
                cut,
            },
            bytes,
        }
    }

    /// The entry, its bytes left where they lie.
    pub fn new(entry: &'a Entry) -> Self
        ensures seen { entry_seen result ≡ entry.now }
        ensures few { length result.bytes.now ≤ most_bytes result.head }
    {
        match entry {
            Entry::Take { caller, lock } => EntryRef {
                head: Head::Take {
                    caller: *caller,
                    lock: *lock,
                },
                bytes: &[],
            },
            Entry::Free { caller, lock } => EntryRef {
                head: Head::Free {
                    caller: *caller,
                    lock: *lock,
                },
                bytes: &[],
            },
            Entry::Message {
                caller,
                bus,
                purpose,
                part,
                parts,
                addr,
                reading,
                bytes,
                heard,
                end,
            } => EntryRef {
                head: Head::Message {
                    caller: *caller,
                    bus: *bus,
                    purpose: *purpose,
                    part: *part,
                    parts: *parts,
                    addr: *addr,
                    reading: *reading,
                    heard: *heard,
                    end: *end,
                },
                bytes: bytes.as_slice(),
            },
            Entry::Line {
                caller,
                mux,
                level,
                failed,
            } => EntryRef {
                head: Head::Line {
                    caller: *caller,
                    mux: *mux,
                    level: *level,
                    failed: *failed,
                },
                bytes: &[],
            },
            Entry::Settle { caller, reply, cut } => {
                let (answer, bytes) = reply.split();
                EntryRef::settle(*caller, answer, bytes, *cut)
            }
        }
    }

    /// The entry with bytes of its own.
    pub fn to_entry(self) -> Entry
        requires { length self.bytes.now ≤ most_bytes self.head }
        ensures { result ≡ entry_seen self.entry }
    {
        let EntryRef { head, bytes } = self;
        match head {
            Head::Take { caller, lock } => Entry::Take { caller, lock },
            Head::Free { caller, lock } => Entry::Free { caller, lock },
            Head::Message {
                caller,
                bus,
                purpose,
                part,
                parts,
                addr,
                reading,
                heard,
                end,
            } => Entry::Message {
                caller,
                bus,
                purpose,
                part,
                parts,
                addr,
                reading,
                bytes: held(bytes),
                heard,
                end,
            },
            Head::Line {
                caller,
                mux,
                level,
                failed,
            } => Entry::Line {
                caller,
                mux,
                level,
                failed,
            },
            Head::Settle {
                caller,
                answer,
                cut,
            } => Entry::Settle {
                caller,
                reply: Reply::new(answer, bytes),
                cut,
            },
        }
    }
}
