//! Laws of one transfer in the flat world: message by message, and on its root alone.
ghost use Rattle.std.specs.Prelude.{◌≡◌, ℕ, ◌<◌, Bool, true, false, List, [], ◌∷◌, ◌++◌, length, Option, slice_get};
ghost use Rattle.i2c_base.specs.declared.reply.Cut.{Cut};
ghost use Rattle.i2c_base.specs.Board.{BoardView};
ghost use Rattle.i2c_base.specs.Bytes.{AreBytes};
ghost use Rattle.i2c_base.specs.Transfer.{TransferView};
ghost use Rattle.i2c_spec.specs.Tree.{root_of};
ghost use Rattle.i2c_spec.specs.TreeFacts.{IsTree};
ghost use Rattle.i2c_spec.specs.Targets.{TargetState};
ghost use Rattle.i2c_spec.specs.Messages.{MessageView, messages_of};
ghost use Rattle.i2c_spec.specs.World.{World};
ghost use Rattle.i2c_spec.specs.Flat.{FlatListener, idle, flat_listener, granted_on, block_limit, cut_in, flat_messages, flat};
ghost use Rattle.i2c_spec.specs.Conversation.{world_listener, talk, is_empty, is_good};
ghost use Rattle.bus_laws.specs.Alike.{IsOf, Same, LeadsTo, EndsTransfer};
ghost use Rattle.flat_laws.specs.Parts.{GrowsAlike, FlatSame, talk_part};

/// A transfer in the flat world is told message by message, as its messages come in the world of its root.
///
/// Where those before it went through, one more adds what it read and how it ended.
pub fn a_transfer_grows_by_one_message()
    ensures { (b : BoardView) (r : ℕ) (granted : ℕ → Option ℕ) (limit : ℕ) (f : FlatListener) (ms : List MessageView) (cuts : ℕ → Option ℕ) (w : World) (m : MessageView) (ends : Bool)
        → is_good (talk_part (flat_listener granted) limit f ms false 0 cuts []).end ≡ true
        → Same b r w (talk_part (flat_listener granted) limit f ms false 0 cuts []).now
        → LeadsTo w m.addr (granted m.addr) → AreBytes m.bytes
        → GrowsAlike b r m (talk_part (flat_listener granted) limit f ms false 0 cuts []) (talk world_listener limit w m ends (cuts (length ms)))
        (talk_part (flat_listener granted) limit f (ms ++ m ∷ []) ends 0 cuts []) }
{}

/// The messages up to the last one, or to the first that doesn't go through, are the whole transfer.
pub fn the_messages_that_were_sent_are_the_transfer()
    ensures { (b : BoardView) (xs : List TargetState) (t : TransferView) (cut : Cut) (cuts : ℕ → Option ℕ) (ms rest : List MessageView)
        → messages_of t ≡ ms ++ rest → ((j : ℕ) → j < length ms → cuts j ≡ cut_in cut j)
        → EndsTransfer (is_empty rest) (talk_part (flat_listener (granted_on b t.bus t.force)) (block_limit b) (idle xs) ms (is_empty rest) 0 cuts []).end
        → flat_messages b xs t cut ≡ talk_part (flat_listener (granted_on b t.bus t.force)) (block_limit b) (idle xs) ms (is_empty rest) 0 cuts [] }
{}

/// A transfer in the flat world has to do with the devices of its root alone: its reply and what it leaves of them
/// depend on nothing else, and the devices of other roots stay as they are.
pub fn a_transfer_is_of_its_root_alone()
    ensures same { (b : BoardView) → IsTree b → (xs ys : List TargetState) (t : TransferView) (cut : Cut)
        → ((d : ℕ) → IsOf b (root_of b t.bus) d → slice_get xs d ≡ slice_get ys d) → FlatSame b (root_of b t.bus) (flat b xs t cut) (flat b ys t cut) }
    ensures others { (b : BoardView) → IsTree b → (xs : List TargetState) (t : TransferView) (cut : Cut) (d : ℕ) → (IsOf b (root_of b t.bus) d → ⊥)
        → slice_get (flat b xs t cut).states d ≡ slice_get xs d }
{}
