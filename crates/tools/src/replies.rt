//! The replies of a command where they are kept.

ghost use Rattle.std.specs.Prelude.{◌≡◌, length, slice_get};
ghost use Rattle.std.specs.Option.{option_map};
ghost use Rattle.i2c_base.specs.Replies.{reply_by};

use i2c_base::ReplyHead;
use packed::Packed;
use std::marker::Model;

/// The replies of a store from a place on. A contract sees the list of them.
#[derive(Drop)]
pub struct Window<'a> {
    pub replies: &'a Packed<ReplyHead>,
    pub from: usize,
}

impl<'a> Model for Window<'a> {
    ghost use Rattle.std.specs.Prelude.{List, drop};
    ghost use Rattle.i2c_base.specs.declared.reply.Reply.{Reply};
    ghost use Rattle.tools.specs.Replies.{replies_of};

    ghost Value = { List Reply };

    ghost view = { λ w. drop w.from (replies_of w.replies.now.items) };
}

impl<'a> Window<'a> {
    /// How many there are.
    #[tactic(auto, using(crate::proofs::WindowLemmas::many))]
    pub(crate) fn len(&self) -> usize
        ensures { result ≡ length self.now }
    {
        self.replies.len().saturating_sub(self.from)
    }

    /// The reply at a place, if there is one.
    #[tactic(auto, using(crate::proofs::WindowLemmas::none_kept, crate::proofs::WindowLemmas::kept_at))]
    pub fn get(&self, place: usize) -> Option<(ReplyHead, &'a [u8])>
        ensures { option_map (λ r. reply_by r.0 r.1.now) result ≡ slice_get self.now place }
    {
        if place >= self.replies.len().saturating_sub(self.from) {
            return None;
        }
        let (head, bytes) = self.replies.get(self.from + place);
        Some((*head, bytes))
    }
}
