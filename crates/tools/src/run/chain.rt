//! Two SMBus calls: a byte is sent, and then one is received.

ghost use Rattle.std.specs.Prelude.{◌≡◌, ℕ, List, ◌+◌, ◌≤◌, ◌++◌, if◌then◌else◌};
ghost use Rattle.std.specs.List.{flat_map};
ghost use Rattle.bus_journal.specs.Reports.{line_ended};
ghost use Rattle.i2c_base.specs.Fitting.{Fits};
ghost use Rattle.i2c_base.specs.Replies.{reply_by};
ghost use Rattle.smb_emul.specs.Calls.{HasBlock, messages_of_call};
ghost use Rattle.tools.specs.Calls.{call_text};
ghost use Rattle.tools.specs.Chains.{chained_op, chained, chains};
ghost use Rattle.tools.specs.Dialogues.{AreReplies};
ghost use Rattle.tools.specs.Replies.{is_error};

use crate::replies::Window;
use crate::run::call::{Callee, push_call};
use crate::text::Text;
use i2c_base::{ReplyHead, Transfer};
use smb_emul::{SmbOp, put_messages};

/// Sends a byte, and then receives one, but not after an error.
#[derive(Clone, Copy)]
pub struct Chain {
    pub to: Callee,
    pub sent: u8,
}

impl Chain {
    // What the call at a place does.
    fn op_at(&self, place: u16) -> SmbOp<'static>
        ensures value { result ≡ chained_op self.now place }
        ensures block { HasBlock result }
    {
        if place == 0 {
            SmbOp::SendByte(self.sent)
        } else {
            SmbOp::ReceiveByte
        }
    }

    /// Puts the transfer at a place in place of another.
    pub fn put(&self, place: u16, transfer: &mut Transfer)
        ensures { transfer.new ≡ messages_of_call (chained self.now place) }
    {
        let op = self.op_at(place);
        let call = self.to.call(op);
        put_messages(&call, transfer);
    }

    // Prints the value of the call at a place, or why there is none.
    fn push(&self, out: &mut Text, place: u16, head: ReplyHead, bytes: &[u8])
        requires fits { Fits (messages_of_call (chained self.now place)) (reply_by head bytes.now) }
        requires room { 26 ≤ out.old.room }
        ensures bytes { out.new.bytes ≡ out.old.bytes ++ call_text (chained self.now place) (reply_by head bytes.now) }
        ensures room { out.old.room ≤ out.new.room + 26 }
    {
        let op = self.op_at(place);
        let call = self.to.call(op);
        push_call(out, &call, head, bytes);
    }

    /// Prints the value that was received on a line, or why there is none.
    pub fn print(&self, replies: Window<'_>, out: &mut Text)
        requires fit { AreReplies (chains self.now) 0 replies }
        requires room { (chains self.now).most ≤ out.old.room }
        ensures bytes { out.new.bytes ≡ out.old.bytes ++ flat_map line_ended ((chains self.now).lines replies.entry) }
        ensures room { out.old.room ≤ out.new.room + (chains self.now).most }
    {
        if let Some((head, bytes)) = replies.get(1) {
            self.push(out, 1, head, bytes);
        } else if let Some((head, bytes)) = replies.get(0) {
            self.push(out, 0, head, bytes);
        } else {
            out.push(b"ok");
        }
        out.push_byte(b'\n');
    }
}

/// So many places are passed over after a reply: none, and after an error all.
pub fn skips(head: ReplyHead) -> u16
    ensures value { (bytes : List ℕ) → result ≡ (if is_error (reply_by head bytes) then 2 else 0) }
    ensures few { result ≤ 2 }
{
    match head {
        ReplyHead::Err(_) => 2,
        _ => 0,
    }
}
