//! What a command says to the devices, and what they reply.
ghost use Rattle.std.specs.Prelude.{◌≡◌, [], ◌∷◌, ◌++◌, IfOk, OnOk};
ghost use Rattle.tools.specs.Dialogues.{AreReplies};
ghost use Rattle.tools.specs.Replies.{replies_of};
ghost use Rattle.caller_core.specs.Runs.{command_dialogue};
ghost use Rattle.i2c_session.specs.Sessions.{IsHeadOf, Talks};

use caller_core::CommandRun;
use flat_world::Flat;
use i2c_base::{Cut, NoMemory, Reply, ReplyHead, Transfer};
use packed::Packed;
use std::alloc::Global;

// Puts a reply behind those that are kept.
fn keep(replies: &mut Packed<ReplyHead>, reply: &Reply) -> Result<ReplyHead, NoMemory>
    ensures kept { OnOk result (replies_of replies.new.items ≡ replies_of replies.old.items ++ reply.now ∷ []) }
    ensures head { IfOk result (λ head. IsHeadOf head reply.now) }
{
    let (head, bytes) = reply.split();
    replies.reserve(1, bytes.len() as u32)?;
    replies.push(head, bytes);
    Ok(head)
}

/// Makes the transfers of a command, one after the other: the replies to them. `transfer` is room for one.
pub fn replies_to(
    alloc: Global,
    run: &CommandRun,
    flat: &mut Flat<'_>,
    transfer: &mut Transfer,
) -> Result<Packed<ReplyHead>, NoMemory>
    ensures talked { IfOk result (λ replies. Talks flat.old.board (command_dialogue run.now) 0 flat.old.states (replies_of replies.items) flat.new.states) }
    ensures fit { IfOk result (λ replies. AreReplies (command_dialogue run.now) 0 (replies_of replies.items)) }
    ensures board { flat.new.board ≡ flat.old.board }
{
    let mut replies = Packed::with_room(alloc, 0, 0)?;
    let mut place = 0;
    while place < run.places() {
        run.put(place, transfer);
        let reply = flat.apply(transfer, Cut::No);
        let head = keep(&mut replies, &reply)?;
        place = run.behind(place, head);
    }
    Ok(replies)
}
