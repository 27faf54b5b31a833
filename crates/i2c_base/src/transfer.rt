//! Messages, and the transfers that they make up.
ghost use Rattle.std.specs.Prelude.{◌≡◌, ◌+◌, ◌^◌, ◌<◌, ◌≤◌, ◌↔◌, [], ◌∷◌, ◌++◌, length, map, sum_by, IsTrue, IsOk, OnOk, OnErr};
ghost use Rattle.i2c_base.specs.Bytes.{AreBytes};
ghost use Rattle.i2c_base.specs.Limits as limits;
ghost use Rattle.i2c_base.specs.Alias.{alias_of, readdressed};
ghost use Rattle.i2c_base.specs.Transfer.{HasRoom, counted_read};

use crate::limits::{MOST_BYTES, MOST_LENGTH, MOST_MESSAGES};
use crate::{Addr, AliasPair, MsgFlags, Row, alias_of};
use bitflags::Flags;
use std::marker::Model;

/// Whether a transfer is a call of SMBus or a plain one of I2C.
#[derive(Clone, Copy)]
pub enum TransferKind {
    Smbus,
    Plain,
}

/// A message: one start, the address byte, and its data. Its bytes stand in its transfer.
#[derive(Clone, Copy, Default)]
pub struct Msg {
    pub addr: Addr,
    pub flags: MsgFlags,
    /// How many bytes are written or read. A counted read asks for so many beside those that it counts.
    pub len: u16,
}

impl Msg {
    ghost use Rattle.i2c_base.specs.Transfer.{is_read, is_counted, size_of, written_of};

    /// It is a read.
    pub fn is_read(&self) -> bool
        ensures { result ≡ is_read self.now }
    {
        self.flags.contains(MsgFlags::READ)
    }

    /// It is a read whose first byte says how many more come.
    pub fn is_counted(&self) -> bool
        ensures { result ≡ is_counted self.now }
    {
        self.flags.contains(MsgFlags::RECV_LEN)
    }

    /// How many bytes it writes.
    pub fn written(&self) -> u16
        ensures { result ≡ written_of self.now }
    {
        if self.is_read() { 0 } else { self.len }
    }

    /// How many bytes it stands for in the sum of its transfer.
    pub fn size(&self) -> usize
        ensures value { result ≡ size_of self.now }
        ensures small { result < 2 ^ 16 }
    {
        if self.is_counted() {
            COUNTED_SIZE
        } else {
            self.len as usize
        }
    }
}

/// The message would pass a limit of its transfer.
#[derive(Clone, Copy)]
pub struct TooLong;

/// Messages up to one stop, on one bus, joined by repeated starts. A contract sees its parts as plain lists.
///
/// It has at most 42 messages and 4,096 bytes, and each message at most 512 (the limits of Linux's
/// `I2C_RDWR`, and of the buffers here). A counted read stands for 258 bytes.
#[derive(Drop)]
pub struct Transfer {
    bus: u16,
    kind: TransferKind,
    force: bool,
    /// The sum of the sizes of its messages.
    size: u16,
    msgs: Row<Msg, MOST_MESSAGES>,
    out: Row<u8, MOST_BYTES>,
}

impl Model for Transfer {
    ghost use Rattle.std.specs.Prelude.{◌≡◌, sum_by};
    ghost use Rattle.i2c_base.specs.Transfer.{TransferView, IsTransfer, size_of};

    ghost Value = { TransferView };

    ghost view = { λ t. record { bus = t.bus; kind = t.kind; force = t.force; msgs = t.msgs; out = t.out } };

    ghost invariant = { λ t. IsTransfer t.msgs t.out × (t.size ≡ sum_by size_of t.msgs) };
}

impl Transfer {
    ghost use Rattle.std.specs.List.{list_any};
    ghost use Rattle.i2c_base.specs.Alias.{alias_of, redirected};
    ghost use Rattle.i2c_base.specs.Transfer.{HasRoom, IsMessage, IsTransfer, with_message, written, plain_read, counted_read, is_read, size_of, written_of, COUNTED_SIZE};

    /// A transfer with no message yet. With `force` it goes to devices that a driver is bound to as well.
    pub fn new(bus: u16, kind: TransferKind, force: bool) -> Self
        ensures { result ≡ record { bus = bus; kind = kind; force = force; msgs = []; out = [] } }
    {
        Transfer {
            bus,
            kind,
            force,
            size: 0,
            msgs: Row::new(),
            out: Row::new(),
        }
    }

    /// Begins it anew, in place: it has no message, and goes to this bus.
    pub fn restart(&mut self, bus: u16, kind: TransferKind, force: bool)
        ensures { self.new ≡ record { bus = bus; kind = kind; force = force; msgs = []; out = [] } }
    {
        self.bus = bus;
        self.kind = kind;
        self.force = force;
        self.size = 0;
        self.msgs.clear();
        self.out.clear();
    }

    /// Adds a write of these bytes. It is too long where 42 messages are there, where it has more than 512
    /// bytes, or where the sum would pass 4,096; the transfer is then as it was.
    pub fn add_write(&mut self, addr: Addr, bytes: &[u8]) -> Result<(), TooLong>
        ensures fits { IsOk result ↔ HasRoom self.old.msgs (length bytes.now) (length bytes.now) }
        ensures ok { OnOk result (self.new ≡ with_message self.old (written addr (length bytes.now)) bytes.now) }
        ensures err { OnErr result (self.new ≡ self.old) }
    {
        if !self.has_room(bytes.len(), bytes.len()) {
            return Err(TooLong);
        }
        let msg = Msg {
            addr,
            flags: MsgFlags::empty(),
            len: bytes.len() as u16,
        };
        self.add(msg, bytes);
        Ok(())
    }

    /// Adds a read of `len` bytes. It is too long where it has none, and else as a write is.
    pub fn add_read(&mut self, addr: Addr, len: u16) -> Result<(), TooLong>
        ensures fits { IsOk result ↔ ((0 < len) × HasRoom self.old.msgs len len) }
        ensures ok { OnOk result (self.new ≡ with_message self.old (plain_read addr len) []) }
        ensures err { OnErr result (self.new ≡ self.old) }
    {
        if len == 0 || !self.has_room(usize::from(len), usize::from(len)) {
            return Err(TooLong);
        }
        let msg = Msg {
            addr,
            flags: MsgFlags::READ,
            len,
        };
        self.add(msg, &[]);
        Ok(())
    }

    /// Adds a counted read: the target's first byte says how many more come, and with `extra` one more follows
    /// (SMBus 3.2, Block Read). It stands for 258 bytes, and is too long as a write of these is.
    pub fn add_counted(&mut self, addr: Addr, extra: bool) -> Result<(), TooLong>
        ensures fits { IsOk result ↔ HasRoom self.old.msgs COUNTED_SIZE COUNTED_SIZE }
        ensures ok { OnOk result (self.new ≡ with_message self.old (counted_read addr extra) []) }
        ensures err { OnErr result (self.new ≡ self.old) }
    {
        if !self.has_room(COUNTED_SIZE, COUNTED_SIZE) {
            return Err(TooLong);
        }
        self.add(counted(addr, extra), &[]);
        Ok(())
    }

    // Whether one more message of this length and size is within the limits.
    fn has_room(&self, len: usize, size: usize) -> bool
        ensures { IsTrue result ↔ HasRoom self.now.msgs len size }
    {
        let left = MOST_BYTES - usize::from(self.size);
        self.msgs().len() < MOST_MESSAGES && len <= MOST_LENGTH && size <= left
    }

    // Adds a message within the limits, and its bytes.
    #[tactic(auto, using(crate::proofs::TransferLemmas::written_size))]
    fn add(&mut self, msg: Msg, bytes: &[u8])
        requires message { IsMessage msg }
        requires written { length bytes.now ≡ written_of msg }
        requires room { HasRoom self.old.msgs msg.len (size_of msg) }
        ensures { self.new ≡ with_message self.old msg bytes.now }
    {
        self.size += msg.size() as u16;
        append(&mut self.msgs, &mut self.out, msg, bytes);
    }

    /// Sends it to another bus, and each message to the alias of its address. All else stays.
    pub fn redirect(&mut self, bus: u16, pairs: &[AliasPair])
        ensures { self.new ≡ redirected self.old bus (alias_of pairs.now) }
    {
        self.bus = bus;
        readdress(&mut self.msgs, pairs);
    }

    /// How many bytes its messages stand for, all together.
    pub fn size(&self) -> u16
        ensures value { result ≡ sum_by size_of self.now.msgs }
        ensures few { result ≤ limits.MOST_BYTES }
    {
        self.size
    }

    pub fn bus(&self) -> u16
        ensures { result ≡ self.now.bus }
    {
        self.bus
    }

    pub fn kind(&self) -> TransferKind
        ensures { result ≡ self.now.kind }
    {
        self.kind
    }

    pub fn force(&self) -> bool
        ensures { result ≡ self.now.force }
    {
        self.force
    }

    /// Its messages, in order.
    pub fn msgs(&self) -> &[Msg]
        ensures value { result.now ≡ self.now.msgs }
        ensures kept { IsTransfer self.now.msgs self.now.out }
    {
        self.msgs.as_slice()
    }

    /// One of its messages reads.
    pub fn reads(&self) -> bool
        ensures { result ≡ list_any is_read self.now.msgs }
    {
        self.msgs().iter().any(Msg::is_read)
    }

    /// The bytes of its writes, one after the other.
    pub fn out(&self) -> &[u8]
        ensures value { result.now ≡ self.now.out }
        ensures kept { IsTransfer self.now.msgs self.now.out }
    {
        self.out.as_slice()
    }
}

// Sends each message to the alias of its address.
fn readdress(msgs: &mut Row<Msg, MOST_MESSAGES>, pairs: &[AliasPair])
    ensures { msgs.new ≡ map (readdressed (alias_of pairs.now)) msgs.old }
{
    let count = msgs.as_slice().len();
    for place in 0..count {
        let msg = msgs.as_slice()[place];
        let there = Msg {
            addr: alias_of(pairs, msg.addr),
            ..msg
        };
        msgs.put(place, there);
    }
}

/// How many bytes a counted read stands for.
const COUNTED_SIZE: usize = 258;

// A counted read, which asks for one more byte with `extra`.
fn counted(addr: Addr, extra: bool) -> Msg
    ensures { result ≡ counted_read addr extra }
{
    Msg {
        addr,
        flags: MsgFlags::READ.union(MsgFlags::RECV_LEN),
        len: if extra { 2 } else { 1 },
    }
}

// Puts a message and its bytes at the end.
fn append(msgs: &mut Row<Msg, MOST_MESSAGES>, out: &mut Row<u8, MOST_BYTES>, msg: Msg, bytes: &[u8])
    requires count { length msgs.old < limits.MOST_MESSAGES }
    requires room { length out.old + length bytes.now ≤ limits.MOST_BYTES }
    ensures msgs { msgs.new ≡ msgs.old ++ msg ∷ [] }
    ensures out { out.new ≡ out.old ++ bytes.now }
    ensures bytes { AreBytes out.old → AreBytes out.new }
{
    msgs.push(msg);
    out.extend(bytes);
}
