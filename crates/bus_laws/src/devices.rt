//! The devices of a root, beside those of the flat world, message by message.
ghost use Rattle.std.specs.Prelude.{◌≡◌, ℕ, Bool, true, false, ◌||◌, List, [], map, Option, Some, slice_get};
ghost use Rattle.i2c_base.specs.declared.tree.Grant.TheVariants as grant;
ghost use Rattle.i2c_base.specs.Board.{BoardView, DeviceView};
ghost use Rattle.i2c_base.specs.Bytes.{AreBytes};
ghost use Rattle.i2c_spec.specs.Tree.{home_of_mux, addr_of_mux, is_on_path, is_aside, MayJoin};
ghost use Rattle.i2c_spec.specs.TreeFacts.{IsTree};
ghost use Rattle.i2c_spec.specs.Grant.{some_chip, some_device, grant_of};
ghost use Rattle.i2c_spec.specs.Plain.{IsPlainBoard};
ghost use Rattle.i2c_spec.specs.Rules.{MeetsRules};
ghost use Rattle.i2c_spec.specs.Targets.{TargetState, opening_state};
ghost use Rattle.i2c_spec.specs.Messages.{MessageView};
ghost use Rattle.i2c_spec.specs.World.{World, is_joined, opening_world};
ghost use Rattle.i2c_spec.specs.Flat.{FlatListener, idle, flat_listener, granted_on, flat};
ghost use Rattle.i2c_spec.specs.Conversation.{world_listener, talk};
ghost use Rattle.bus_laws.specs.Alike.{IsOf, Same, LeadsTo, IsControl, ToldAlike, EndsTransfer, IsUnnamed};
ghost use Rattle.i2c_spec.specs.Conversation.{is_it};

use i2c_spec::an_accepted_board_is_a_tree;

/// A root's world and the flat world are opened with the same devices.
pub fn both_worlds_open_the_same()
    ensures { (b : BoardView) (r : ℕ) → IsPlainBoard b → Same b r (opening_world b r) (idle (map opening_state b.devices)) }
{}

/// On a joined bus an address that isn't busy leads to the device that the bus grants, and to nobody else.
///
/// All that is joined lies along the bus or is aside of it, and the path of the bus is open: what is then joined and has the
/// address is granted, what is granted is joined and has it, and no mux chip hears it.
pub fn an_address_leads_to_the_granted_device()
    ensures { (b : BoardView) (w : World) (s a : ℕ) (force : Bool) → w.board ≡ b → IsTree b
        → ((u : ℕ) → is_joined w u ≡ true → MayJoin b s u) → is_joined w s ≡ true
        → (grant_of b s a force ≡ grant.Busy → ⊥) → LeadsTo w a (granted_on b s force a) }
{}

/// A kept channel beside a bus takes no device from anybody. No chip and no device aside of the bus has the address of a
/// device on the bus's path, so an address that is busy because it stands aside of the bus would have named no device.
///
/// On a board that isn't accepted a target below a mux that stays as it is may have the address of a device outside. A
/// device that isn't on the path may itself be aside of the bus.
pub fn a_kept_channel_takes_no_device()
    ensures { (b : BoardView) (s d : ℕ) (x : DeviceView) → IsPlainBoard b → MeetsRules b → slice_get b.devices d ≡ Some x → is_on_path b s x.bus ≡ true
        → (some_chip b x.addr (is_aside b s) || some_device b x.addr (is_aside b s)) ≡ false }
{
    an_accepted_board_is_a_tree();
}

/// A message says the same in the world of its root as in the flat world: its calls, its bytes and its end.
///
/// The devices of the root are the same afterwards, and so is who listens, wherever a call of it may fail.
pub fn a_message_is_heard_the_same()
    ensures { (b : BoardView) (r : ℕ) (granted : ℕ → Option ℕ) (limit : ℕ) (w : World) (f : FlatListener) (m : MessageView) (last : Bool) (cut : Option ℕ)
        → Same b r w f → LeadsTo w m.addr (granted m.addr) → AreBytes m.bytes
        → ToldAlike (Same b r) (talk world_listener limit w m last cut) (talk (flat_listener granted) limit f m last cut) }
{}

/// A message that is the last of its transfer, or doesn't go through, ends in a stop: nobody listens any more.
pub fn a_transfer_ends_in_a_stop()
    ensures world { (limit : ℕ) (w : World) (m : MessageView) (last : Bool) (cut : Option ℕ) → EndsTransfer last (talk world_listener limit w m last cut).end
        → ((talk world_listener limit w m last cut).now.hearing ≡ []) × ((talk world_listener limit w m last cut).now.busy ≡ false) }
    ensures flat { (granted : ℕ → Option ℕ) (limit : ℕ) (f : FlatListener) (m : MessageView) (last : Bool) (cut : Option ℕ)
        → EndsTransfer last (talk (flat_listener granted) limit f m last cut).end
        → (talk (flat_listener granted) limit f m last cut).now ≡ idle (talk (flat_listener granted) limit f m last cut).now.states }
{}

/// A message that switches a mux is heard by no device, and leaves all devices of its root as they are between transfers.
pub fn a_control_message_leaves_the_devices()
    ensures unheard { (b : BoardView) (w : World) (s m a : ℕ) → w.board ≡ b → IsTree b → ((u : ℕ) → is_joined w u ≡ true → MayJoin b s u)
        → addr_of_mux b m ≡ Some a → home_of_mux b m ≡ s → IsControl w a }
    ensures same { (b : BoardView) (r limit : ℕ) (w : World) (xs : List TargetState) (m : MessageView) (cut : Option ℕ) → Same b r w (idle xs) → IsControl w m.addr
        → Same b r (talk world_listener limit w m true cut).now (idle xs) }
{}

/// A message leaves alone the devices of other roots, and in the flat world those that it isn't granted.
pub fn a_message_leaves_other_devices()
    ensures world { (b : BoardView) (r d : ℕ) → (IsOf b r d → ⊥) → (o : Option TargetState) (limit : ℕ) (w : World) (m : MessageView) (last : Bool) (cut : Option ℕ)
        → w.board ≡ b → w.root ≡ r → slice_get w.devices d ≡ o → slice_get (talk world_listener limit w m last cut).now.devices d ≡ o }
    ensures flat { (d : ℕ) (o : Option TargetState) (granted : ℕ → Option ℕ) (limit : ℕ) (f : FlatListener) (m : MessageView) (last : Bool) (cut : Option ℕ)
        → is_it (granted m.addr) d ≡ false → IsUnnamed d o f → IsUnnamed d o (talk (flat_listener granted) limit f m last cut).now }
{}
