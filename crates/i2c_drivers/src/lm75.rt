//! The driver of temperature sensors: their registers are read and written as words, in thousandths of a degree.

ghost use Rattle.std.specs.Prelude.{◌≡◌, ℕ, ◌+◌, ◌-◌, ◌<◌, ◌≤◌, ◌++◌, true, List};
ghost use Rattle.std.specs.List.{flat_map};
ghost use Rattle.bus_journal.specs.Reports.{line_ended};
ghost use Rattle.i2c_base.specs.Fitting.{Fits};
ghost use Rattle.i2c_base.specs.Replies.{reply_by};
ghost use Rattle.smb_emul.specs.Calls.{messages_of_call};
ghost use Rattle.smb_emul.specs.Value.{outcome_seen};
ghost use Rattle.tools.specs.Lm75Lines.{IsMilli};
ghost use Rattle.i2c_drivers.specs.Lm75.{sensor_call, lm75_dialogue, milli_of, outcome_text, pointer_of, raw_of, read_call, reading_text, register_reads, register_writes, sensor_read_run, sensor_write_run, swapped, write_call, written_text};
ghost use Rattle.tools.specs.Dialogues.{MOST_PLACES, AreAlike, AreReplies, next_place};

use crate::bound::{Sensor, bound_sensor};
use crate::text::{MOST_OF_ERRNO, push_errno, push_milli, push_refusal, refusal_size};
use i2c_base::{Addr, Errno, ReplyHead, Transfer};
use i2c_board::Board;
use smb_emul::{SmbCall, SmbFail, SmbOp, SmbValue, put_messages, value_read};
use tools::{RegName, Text, Window};

/// A line `lm75 read` or `lm75 write` as it runs.
#[derive(Clone, Copy)]
pub enum Lm75Run {
    /// It is refused without a transfer.
    Refused(Errno),
    Reads(Sensor, RegName),
    /// The word as it goes over the bus.
    Writes(Sensor, RegName, u16),
}

// The bytes of a word exchanged.
fn swapped(word: u16) -> u16
    ensures { result ≡ swapped word }
{
    256 * (word % 256) + word / 256
}

// The thousandths of a degree that a register stands for.
fn milli_of(raw: u16) -> i32
    ensures value { result ≡ milli_of raw }
    ensures range { IsMilli result }
{
    500 * i32::from(raw.cast_signed().div_euclid(128))
}

// The register that stands for thousandths of a degree.
fn raw_of(milli: i32) -> u16
    requires { IsMilli milli }
    ensures { result ≡ raw_of milli }
{
    ((milli / 500 * 128) as i16).cast_unsigned()
}

// The number of a register.
fn pointer_of(which: RegName) -> u8
    ensures { result ≡ pointer_of which }
{
    match which {
        RegName::Temp => 0,
        RegName::Hyst => 2,
        RegName::Max => 3,
    }
}

impl Sensor {
    // A call to it.
    fn call(&self, op: SmbOp<'static>) -> SmbCall<'static>
        ensures { result ≡ sensor_call self.now op.entry }
    {
        SmbCall {
            bus: self.bus,
            addr: self.addr,
            force: true,
            pec: false,
            op,
        }
    }

    /// Puts the transfer that reads a register in place of another.
    pub fn put_read(&self, which: RegName, transfer: &mut Transfer)
        ensures { transfer.new ≡ messages_of_call (read_call self.now which) }
    {
        let call = self.call(SmbOp::ReadWord(pointer_of(which)));
        put_messages(&call, transfer);
    }

    // Puts the transfer that writes a register in place of another.
    fn put_write(&self, which: RegName, word: u16, transfer: &mut Transfer)
        ensures { transfer.new ≡ messages_of_call (write_call self.now which word) }
    {
        let call = self.call(SmbOp::WriteWord(pointer_of(which), word));
        put_messages(&call, transfer);
    }

    /// Prints what was read of a register, or why it wasn't.
    pub fn push_reading(&self, out: &mut Text, which: RegName, head: ReplyHead, bytes: &[u8])
        requires fits { Fits (messages_of_call (read_call self.now which)) (reply_by head bytes.now) }
        requires room { 10 ≤ out.old.room }
        ensures bytes { out.new.bytes ≡ out.old.bytes ++ reading_text self.now which (reply_by head bytes.now) }
        ensures room { out.old.room ≤ out.new.room + 10 }
    {
        match head {
            ReplyHead::Done => {}
            ReplyHead::Read => {
                let call = self.call(SmbOp::ReadWord(pointer_of(which)));
                push_outcome(out, value_read(&call, bytes));
            }
            ReplyHead::Err(errno) => push_errno(out, errno),
        }
    }
}

// Prints what was read, or why it wasn't.
fn push_outcome(out: &mut Text, outcome: Result<SmbValue<'_>, SmbFail>)
    requires { 10 ≤ out.old.room }
    ensures bytes { out.new.bytes ≡ out.old.bytes ++ outcome_text (outcome_seen outcome.entry) }
    ensures room { out.old.room ≤ out.new.room + 10 }
{
    match outcome {
        Ok(SmbValue::Word(word)) => push_milli(out, milli_of(swapped(word))),
        Ok(_) => {}
        Err(SmbFail::Errno(errno)) => push_errno(out, errno),
        Err(SmbFail::Pec { .. }) => push_errno(out, Errno::Ebadmsg),
    }
}

// Prints that it was written, or why it wasn't.
fn push_written(out: &mut Text, head: ReplyHead)
    requires { 10 ≤ out.old.room }
    ensures bytes { (bytes : List ℕ) → out.new.bytes ≡ out.old.bytes ++ written_text (reply_by head bytes) }
    ensures room { out.old.room ≤ out.new.room + 10 }
{
    match head {
        ReplyHead::Done | ReplyHead::Read => out.push(b"ok"),
        ReplyHead::Err(errno) => push_errno(out, errno),
    }
}

impl Lm75Run {
    /// A read of a register. It is refused with ENODEV where no sensor that a driver is bound to stands there.
    pub fn open_read(board: &Board, bus: u16, addr: Addr, which: RegName) -> Self
        ensures { result ≡ sensor_read_run board.now bus addr which }
    {
        if bound_sensor(board, bus, addr) {
            Lm75Run::Reads(Sensor { bus, addr }, which)
        } else {
            Lm75Run::Refused(Errno::Enodev)
        }
    }

    /// A write of a register, in thousandths of a degree. It is refused as a read is.
    pub fn open_write(board: &Board, bus: u16, addr: Addr, which: RegName, milli: i32) -> Self
        requires { IsMilli milli }
        ensures { result ≡ sensor_write_run board.now bus addr which milli }
    {
        if bound_sensor(board, bus, addr) {
            Lm75Run::Writes(Sensor { bus, addr }, which, swapped(raw_of(milli)))
        } else {
            Lm75Run::Refused(Errno::Enodev)
        }
    }

    /// How many places it has.
    pub fn places(&self) -> u16
        ensures value { result ≡ (lm75_dialogue self.now).places }
        ensures few { result ≤ MOST_PLACES }
    {
        match self {
            Lm75Run::Refused(_) => 0,
            Lm75Run::Reads(_, _) => 1,
            Lm75Run::Writes(_, _, _) => 1,
        }
    }

    /// Puts the transfer at a place in place of another.
    pub fn put(&self, place: u16, transfer: &mut Transfer)
        requires { place < (lm75_dialogue self.now).places }
        ensures { transfer.new ≡ (lm75_dialogue self.now).at place }
    {
        match self {
            Lm75Run::Refused(_) => {}
            Lm75Run::Reads(sensor, which) => sensor.put_read(*which, transfer),
            Lm75Run::Writes(sensor, which, word) => sensor.put_write(*which, *word, transfer),
        }
    }

    /// The place after a reply, whatever bytes it brings.
    pub fn behind(&self, place: u16, head: ReplyHead) -> u16
        requires { place < (lm75_dialogue self.now).places }
        ensures { (bytes : List ℕ) → result ≡ next_place (lm75_dialogue self.now) place (reply_by head bytes) }
    {
        match self {
            Lm75Run::Refused(_) => place + 1,
            Lm75Run::Reads(_, _) => place + 1,
            Lm75Run::Writes(_, _, _) => place + 1,
        }
    }

    /// Prints its line.
    pub fn print(&self, replies: Window<'_>, out: &mut Text)
        requires fit { AreReplies (lm75_dialogue self.now) 0 replies }
        requires room { (lm75_dialogue self.now).most ≤ out.old.room }
        ensures bytes { out.new.bytes ≡ out.old.bytes ++ flat_map line_ended ((lm75_dialogue self.now).lines replies.entry) }
        ensures room { out.old.room ≤ out.new.room + (lm75_dialogue self.now).most }
    {
        match self {
            Lm75Run::Refused(errno) => push_refusal(out, *errno),
            Lm75Run::Reads(sensor, which) => print_read(sensor, *which, &replies, out),
            Lm75Run::Writes(sensor, which, word) => print_written(
                sensor, *which, *word, &replies, out,
            ),
        }
    }

    /// The most bytes that it prints.
    pub fn most(&self) -> usize
        ensures { result ≡ (lm75_dialogue self.now).most }
    {
        match self {
            Lm75Run::Refused(errno) => refusal_size(*errno),
            Lm75Run::Reads(_, _) => MOST_OF_ERRNO,
            Lm75Run::Writes(_, _, _) => MOST_OF_ERRNO,
        }
    }
}

// Prints the line of a read.
fn print_read(sensor: &Sensor, which: RegName, replies: &Window<'_>, out: &mut Text)
    requires fit { AreReplies (register_reads sensor.now which) 0 replies.now }
    requires room { 11 ≤ out.old.room }
    ensures bytes { out.new.bytes ≡ out.old.bytes ++ flat_map line_ended ((register_reads sensor.now which).lines replies.now) }
    ensures room { out.old.room ≤ out.new.room + 11 }
{
    if let Some((head, bytes)) = replies.get(0) {
        sensor.push_reading(out, which, head, bytes);
    }
    out.push_byte(b'\n');
}

// Prints the line of a write.
fn print_written(sensor: &Sensor, which: RegName, word: u16, replies: &Window<'_>, out: &mut Text)
    requires { 11 ≤ out.old.room }
    ensures bytes { out.new.bytes ≡ out.old.bytes ++ flat_map line_ended ((register_writes sensor.now which word).lines replies.now) }
    ensures room { out.old.room ≤ out.new.room + 11 }
{
    match replies.get(0) {
        Some((head, _)) => push_written(out, head),
        None => out.push(b"ok"),
    }
    out.push_byte(b'\n');
}
