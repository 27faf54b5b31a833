//! Messages that are kept until their turn, and what is printed of the reply to their transfer.

ghost use Rattle.std.specs.Prelude.{◌≡◌, ◌+◌, ◌*◌, ◌^◌, ◌<◌, ◌≤◌, ◌++◌, All, drop, length, map};
ghost use Rattle.std.specs.List.{flat_map, sum_by};
ghost use Rattle.bus_journal.specs.Reports.{line_ended};
ghost use Rattle.i2c_base.specs.Fitting.{Fits, FitsReads};
ghost use Rattle.i2c_base.specs.Limits as limits;
ghost use Rattle.i2c_base.specs.Replies.{reply_by};
ghost use Rattle.i2c_base.specs.Transfer.{HasRoom, size_of, with_message};
ghost use Rattle.tools.specs.Combined.{IsCombinedInRange, IsDescInRange, IsOpInRange, bytes_of, length_of};
ghost use Rattle.tools.specs.Dialogues.{AreReplies};
ghost use Rattle.tools.specs.Transfers.{desc_message, sent_by, with_messages, transfer_of, count_read, count_read_by, own_line, own_lines, reply_lines, transfers};

use crate::command::Combined;
use crate::lists::{Desc, DescOp};
use crate::replies::Window;
use crate::text::Text;
use crate::value::{MOST_BESIDE, push_byte_words, push_errno};
use i2c_base::{ReplyHead, Transfer, TransferKind};
use std::marker::Model;

/// The messages of a plain transfer, which are within its limits. A contract sees the command that they are of.
#[derive(Drop)]
pub struct Messages {
    of: Combined,
}

impl Model for Messages {
    ghost use Rattle.tools.specs.Combined.{IsCombinedInRange};
    ghost use Rattle.tools.specs.declared.command.transfer.Combined.{Combined as CombinedCommand};

    ghost Value = { CombinedCommand };

    ghost view = { λ m. m.of };

    ghost invariant = { λ m. IsCombinedInRange m.of };
}

impl Messages {
    pub fn new(of: Combined) -> Self
        requires { IsCombinedInRange of }
        ensures { result ≡ of }
    {
        Messages { of }
    }

    // The messages, in order.
    #[tactic(auto, using(crate::proofs::MessageLemmas::few_read))]
    fn messages(&self) -> &[Desc]
        ensures value { result.now ≡ self.now.messages }
        ensures range { IsCombinedInRange self.now }
        ensures few { sum_by count_read_by self.now.messages ≤ limits.MOST_BYTES }
    {
        self.of.messages.as_slice()
    }

    /// Puts their transfer in place of another.
    pub fn put(&self, transfer: &mut Transfer)
        ensures { transfer.new ≡ transfer_of self.now }
    {
        let messages = self.messages();
        transfer.restart(self.of.bus, TransferKind::Plain, self.of.force);
        put_messages(messages, transfer);
    }

    /// Prints a line for each read, or why nothing is read.
    pub fn print(&self, replies: Window<'_>, out: &mut Text)
        requires fit { AreReplies (transfers self.now) 0 replies }
        requires room { (transfers self.now).most ≤ out.old.room }
        ensures bytes { out.new.bytes ≡ out.old.bytes ++ flat_map line_ended ((transfers self.now).lines replies.entry) }
        ensures room { out.old.room ≤ out.new.room + (transfers self.now).most }
    {
        match replies.get(0) {
            Some((head, bytes)) => self.push(out, head, bytes),
            None => out.push(b"ok\n"),
        }
    }

    // Prints the lines of a reply.
    fn push(&self, out: &mut Text, head: ReplyHead, bytes: &[u8])
        requires fits { Fits (transfer_of self.now) (reply_by head bytes.now) }
        requires room { (transfers self.now).most ≤ out.old.room }
        ensures bytes { out.new.bytes ≡ out.old.bytes ++ flat_map line_ended (reply_lines self.now.messages (reply_by head bytes.now)) }
        ensures room { out.old.room ≤ out.new.room + (transfers self.now).most }
    {
        match head {
            ReplyHead::Done => out.push(b"ok\n"),
            ReplyHead::Read => push_lines(out, self.messages(), bytes),
            ReplyHead::Err(errno) => {
                push_errno(out, errno);
                out.push_byte(b'\n');
            }
        }
    }

    /// The most bytes of their lines.
    pub fn most(&self) -> usize
        ensures { result ≡ (transfers self.now).most }
    {
        let read: usize = self.messages().iter().map(read_by).sum();
        MOST_BESIDE + 1 + 5 * read
    }
}

// How many bytes a message reads.
fn read_by(message: &Desc) -> usize
    ensures value { result ≡ count_read_by message.now }
    ensures small { result < 2 ^ 16 }
{
    match &message.op {
        DescOp::Read(len) => usize::from(*len),
        DescOp::Write(_) => 0,
    }
}

// Puts messages after those of a transfer.
fn put_messages(messages: &[Desc], transfer: &mut Transfer)
    requires each { All IsDescInRange messages.now }
    requires few { length transfer.old.msgs + length messages.now ≤ limits.MOST_MESSAGES }
    requires short { sum_by size_of transfer.old.msgs + sum_by bytes_of messages.now ≤ limits.MOST_BYTES }
    ensures { transfer.new ≡ with_messages transfer.old messages.now }
{
    for message in messages {
        put_message(message, transfer);
    }
}

// Puts a message after those of a transfer.
fn put_message(message: &Desc, transfer: &mut Transfer)
    requires range { IsOpInRange message.now.op }
    requires room { HasRoom transfer.old.msgs (length_of message.now.op) (length_of message.now.op) }
    ensures { transfer.new ≡ with_message transfer.old (desc_message message.now) (sent_by message.now) }
{
    match &message.op {
        DescOp::Read(len) => {
            let _ = transfer.add_read(message.addr, *len);
        }
        DescOp::Write(bytes) => {
            let _ = transfer.add_write(message.addr, bytes.as_slice());
        }
    }
}

// Prints a line for each read, of the bytes of all reads.
fn push_lines(out: &mut Text, messages: &[Desc], bytes: &[u8])
    requires each { All IsDescInRange messages.now }
    requires fits { FitsReads (map desc_message messages.now) bytes.now }
    requires room { 5 * sum_by count_read_by messages.now ≤ out.old.room }
    ensures bytes { out.new.bytes ≡ out.old.bytes ++ flat_map line_ended (own_lines messages.now bytes.now) }
    ensures room { out.old.room ≤ out.new.room + 5 * sum_by count_read_by messages.now }
{
    let mut rest = bytes;
    for message in messages {
        rest = push_line(out, message, rest);
    }
}

// Prints the line of a message, if it reads, and tells what stands behind its own bytes.
fn push_line<'b>(out: &mut Text, message: &Desc, bytes: &'b [u8]) -> &'b [u8]
    requires range { IsOpInRange message.now.op }
    requires fits { count_read message.now.op ≤ length bytes.now }
    requires room { 5 * count_read message.now.op ≤ out.old.room }
    ensures behind { result.now ≡ drop (count_read message.now.op) bytes.now }
    ensures bytes { out.new.bytes ≡ out.old.bytes ++ flat_map line_ended (own_line message.now.op bytes.now) }
    ensures room { out.old.room ≤ out.new.room + 5 * count_read message.now.op }
{
    match &message.op {
        DescOp::Read(len) => {
            let (own, behind) = bytes.split_at(usize::from(*len));
            push_byte_words(out, own);
            out.push_byte(b'\n');
            behind
        }
        DescOp::Write(_) => bytes,
    }
}
