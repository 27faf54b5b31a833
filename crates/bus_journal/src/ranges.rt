//! Each field of an entry is within the range of its type.

ghost use Rattle.std.specs.Prelude.{◌≤◌, length};
ghost use Rattle.i2c_base.specs.Bytes.{AreBytes};
ghost use Rattle.i2c_base.specs.Replies.{reply_by, most_read};
ghost use Rattle.bus_journal.specs.Borrowed.{entry_by, most_bytes};
ghost use Rattle.bus_journal.specs.Ranges.{IsLock, IsPurpose, IsNode, IsHeard, IsEnd, IsReply, IsCut, IsEntry};

use crate::borrowed::Head;
use i2c_base::{Cut, End, LockId, Node, Purpose, ReplyHead};

fn lock_is_in_range(lock: LockId)
    ensures { IsLock lock }
{
    match lock {
        LockId::Bus(_) => {}
        LockId::Mux(_) => {}
    }
}

fn purpose_is_in_range(purpose: Purpose)
    ensures { IsPurpose purpose }
{
    match purpose {
        Purpose::Call => {}
        Purpose::Control(_) => {}
    }
}

fn node_is_in_range(node: Node)
    ensures { IsNode node }
{
    match node {
        Node::Device(_) => {}
        Node::Chip(_) => {}
    }
}

fn heard_is_in_range(heard: Option<Node>)
    ensures { IsHeard heard }
{
    match heard {
        None => {}
        Some(node) => node_is_in_range(node),
    }
}

fn end_is_in_range(end: End)
    ensures { IsEnd end }
{
    match end {
        End::Cut(_) => {}
        _ => {}
    }
}

fn cut_is_in_range(cut: Cut)
    ensures { IsCut cut }
{
    match cut {
        Cut::At { .. } => {}
        Cut::Way => {}
        Cut::No => {}
    }
}

fn bytes_are_in_range(bytes: &[u8])
    ensures { AreBytes bytes.now }
{}

fn reply_is_in_range(answer: ReplyHead, bytes: &[u8])
    requires { length bytes.now ≤ most_read answer }
    ensures { IsReply (reply_by answer bytes.now) }
{
    match answer {
        ReplyHead::Read => bytes_are_in_range(bytes),
        ReplyHead::Done => {}
        ReplyHead::Err(_) => {}
    }
}

/// An entry with few enough bytes is one that there is.
pub fn entry_is_in_range(head: Head, bytes: &[u8])
    requires { length bytes.now ≤ most_bytes head }
    ensures { IsEntry (entry_by head bytes.now) }
{
    match head {
        Head::Take { lock, .. } => lock_is_in_range(lock),
        Head::Free { lock, .. } => lock_is_in_range(lock),
        Head::Message {
            purpose,
            addr,
            heard,
            end,
            ..
        } => {
            purpose_is_in_range(purpose);
            let _ = addr.get();
            bytes_are_in_range(bytes);
            heard_is_in_range(heard);
            end_is_in_range(end);
        }
        Head::Line { .. } => {}
        Head::Settle { answer, cut, .. } => {
            reply_is_in_range(answer, bytes);
            cut_is_in_range(cut);
        }
    }
}
