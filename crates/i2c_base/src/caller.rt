//! The trait of a caller, who asks for transfers and takes their replies.
ghost use Rattle.std.specs.Prelude.{◌≡◌, ◌≤◌, ℕ, true, false, List, [], ◌∷◌, ◌++◌, length, Option, Some, None, OnOk};
ghost use Rattle.i2c_base.specs.Board.{BoardView};
ghost use Rattle.i2c_base.specs.Transfer.{TransferView};
ghost use Rattle.i2c_base.specs.Need.{Need, Covers};
ghost use Rattle.i2c_base.specs.Fitting.{Fits};
ghost use Rattle.i2c_base.specs.Replies.{reply_by, most_read};
ghost use Rattle.i2c_base.specs.declared.reply.Reply.{Reply};

use crate::{NoMemory, ReplyHead, Transfer};

/// Someone who asks for transfers, one after the other, and takes their replies.
///
/// Once it has made room for all replies that its transfers may still get, nothing that it does takes memory.
pub trait Caller: Drop {
    /// What it is opened with, as contracts see it.
    type Script;

    /// What it was opened with, which never changes.
    ghost script: { Self → Self.Script };

    /// The board that it was opened with.
    ghost board: { Self.Script → BoardView };

    /// The replies that it has taken.
    ghost taken: { Self → List Reply };

    /// What is asked for next, given the replies so far.
    ghost asked: { Self.Script → List Reply → Option TransferView };

    /// At most so many steps are left.
    ghost left: { Self.Script → List Reply → ℕ };

    /// The room that the replies still to come may need.
    ghost owed: { Self.Script → List Reply → Need };

    /// The room that it has.
    ghost spare: { Self → Need };

    /// The next transfer, or none where the script is used up.
    fn next(&self) -> Option<Transfer>
        ensures { result ≡ asked (script self.now) (taken self.now) };

    /// Puts the next transfer in place of one that is there. It answers false, and leaves that one, where the script is
    /// used up.
    fn refill(&self, transfer: &mut Transfer) -> bool
        ensures some { result ≡ true → asked (script self.now) (taken self.now) ≡ Some transfer.new }
        ensures none { result ≡ false → asked (script self.now) (taken self.now) ≡ None }
        ensures stays { result ≡ false → transfer.new ≡ transfer.old }
    {
        match self.next() {
            Some(next) => {
                *transfer = next;
                true
            }
            None => false,
        }
    }

    /// Makes room for all replies that are still to come.
    fn reserve(&mut self) -> Result<(), NoMemory>
        ensures script { script self.new ≡ script self.old }
        ensures taken { taken self.new ≡ taken self.old }
        ensures ok { OnOk result (Covers (spare self.new) (owed (script self.new) (taken self.new))) };

    /// Takes the reply of the next transfer, its head and its bytes where they lie. It takes no memory.
    fn take(&mut self, head: ReplyHead, bytes: &[u8])
        requires few { length bytes.now ≤ most_read head }
        requires fits { (t : TransferView) × (asked (script self.old) (taken self.old) ≡ Some t) × Fits t (reply_by head bytes.now) }
        requires room { Covers (spare self.old) (owed (script self.old) (taken self.old)) }
        ensures script { script self.new ≡ script self.old }
        ensures taken { taken self.new ≡ taken self.old ++ reply_by head bytes.now ∷ [] }
        ensures room { Covers (spare self.new) (owed (script self.new) (taken self.new)) };
}
