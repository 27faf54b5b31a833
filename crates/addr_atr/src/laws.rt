//! Laws of the lowered board and of the transfers that are translated to it.
ghost use Rattle.std.specs.Prelude.{◌≡◌, ◌≤◌, ℕ, Bool, true, not, ◌&&◌, List, map, Option, Some, None, slice_get, if◌then◌else◌};
ghost use Rattle.i2c_base.specs.declared.reply.Cut.{Cut};
ghost use Rattle.i2c_base.specs.declared.reply.Reply.{Reply};
ghost use Rattle.i2c_base.specs.declared.tree.Grant.TheVariants as grant;
ghost use Rattle.i2c_base.specs.Board.{BoardView, DeviceView};
ghost use Rattle.i2c_base.specs.Fitting.{Fits};
ghost use Rattle.i2c_base.specs.Transfer.{TransferView, IsTransfer};
ghost use Rattle.i2c_base.specs.Alias.{alias_of};
ghost use Rattle.i2c_spec.specs.Cost.{cost_of};
ghost use Rattle.i2c_spec.specs.Flat.{flat};
ghost use Rattle.i2c_spec.specs.Grant.{grant_of};
ghost use Rattle.i2c_spec.specs.History.{Asks, history};
ghost use Rattle.i2c_spec.specs.Plain.{IsPlainBoard};
ghost use Rattle.i2c_spec.specs.Rules.{MeetsRules};
ghost use Rattle.i2c_spec.specs.Targets.{TargetState, opening_state};
ghost use Rattle.i2c_spec.specs.Tree.{of_device, root_of};
ghost use Rattle.addr_atr.specs.Runs.{translated_asks, AsksBehind};
ghost use Rattle.addr_atr.specs.Maps.{TranslatorView, Route, route_of};
ghost use Rattle.addr_atr.specs.Lowering.{lowered, translated, is_paired, IsMap, IsPaired};

/// On every accepted board a device's own address on its own bus leads to that device; it is busy where a driver is bound to
/// the device and the transfer isn't forced.
pub fn an_own_address_leads_to_its_device()
    ensures { (b : BoardView) → IsPlainBoard b → MeetsRules b → (d : ℕ) (x : DeviceView) → slice_get b.devices d ≡ Some x → (force : Bool)
        → grant_of b x.bus x.addr force ≡ (if not force && x.bound then grant.Busy else grant.Named d) }
{}

/// The lowered board is within the limits of boards, and each of its devices is opened as on the board as written.
pub fn a_lowered_board_opens_the_same()
    ensures plain { (b : BoardView) (ts : List TranslatorView) → IsPlainBoard b → MeetsRules b → IsMap b ts → IsPlainBoard (lowered b ts) }
    ensures opened { (b : BoardView) (ts : List TranslatorView) → IsPlainBoard b → MeetsRules b → IsMap b ts
        → map opening_state (lowered b ts).devices ≡ map opening_state b.devices }
{}

/// A paired address on a translator's child bus leads to the same device as its alias on the lowered board, or both are busy.
///
/// No device behind the translator, above it or beside it can take either address: the topology rules of both boards keep them apart.
pub fn a_paired_address_leads_to_the_same_device()
    ensures { (b : BoardView) (ts : List TranslatorView) → IsPlainBoard b → MeetsRules b → IsMap b ts → MeetsRules (lowered b ts)
        → (s : ℕ) (r : Route) → route_of b ts s ≡ Some r → (a : ℕ) (force : Bool) → is_paired r.pairs a ≡ true
        → grant_of (lowered b ts) r.bus (alias_of r.pairs a) force ≡ grant_of b s a force }
{}

/// A transfer on a translator's child bus whose addresses are all paired gets the same reply, and leaves the same devices, as its
/// translation on the lowered board, wherever it is cut off.
///
/// No device changes but those behind that translator.
pub fn a_translated_transfer_does_the_same()
    ensures same { (b : BoardView) (ts : List TranslatorView) → IsPlainBoard b → MeetsRules b → IsMap b ts → MeetsRules (lowered b ts)
        → (t : TransferView) (r : Route) → route_of b ts t.bus ≡ Some r → IsPaired r t → (xs : List TargetState) (cut : Cut)
        → flat (lowered b ts) xs (translated b ts t) cut ≡ flat b xs t cut }
    ensures others { (b : BoardView) (ts : List TranslatorView) → IsPlainBoard b → MeetsRules b → IsMap b ts → MeetsRules (lowered b ts)
        → (t : TransferView) (r : Route) → route_of b ts t.bus ≡ Some r → IsPaired r t → (xs : List TargetState) (cut : Cut)
        → (d : ℕ) → (of_device (λ x. Some x.bus) None b d ≡ Some t.bus → ⊥)
        → slice_get (flat (lowered b ts) xs (translated b ts t) cut).states d ≡ slice_get xs d }
{}

/// Callers whose transfers are all on child buses and to paired addresses, one transfer at a time, in whatever order and wherever
/// each is cut off: their translations on the lowered board get the replies, and leave the devices, of what they ask for on the
/// board as written.
pub fn a_history_behind_translators_is_the_same()
    ensures { (b : BoardView) (ts : List TranslatorView) → IsPlainBoard b → MeetsRules b → IsMap b ts → MeetsRules (lowered b ts)
        → (asks : Asks) → AsksBehind b ts asks → (order : List (ℕ × Cut))
        → history (lowered b ts) (translated_asks b ts asks) order ≡ history b asks order }
{}

/// A translated transfer stays on its root, whatever translators there are.
pub fn a_translated_transfer_stays_on_its_root()
    ensures { (b : BoardView) (ts : List TranslatorView) (t : TransferView) → IsPlainBoard b → MeetsRules b
        → root_of (lowered b ts) (translated b ts t).bus ≡ root_of b t.bus }
{}

/// A translated transfer keeps the limits, costs no more than on the board as written, and gets replies that fit it.
pub fn a_translated_transfer_costs_no_more()
    ensures limits { (b : BoardView) (ts : List TranslatorView) (t : TransferView) → IsTransfer t.msgs t.out
        → IsTransfer (translated b ts t).msgs (translated b ts t).out }
    ensures fits { (b : BoardView) (ts : List TranslatorView) (t : TransferView) (r : Reply) → Fits (translated b ts t) r → Fits t r }
    ensures costs { (b : BoardView) (ts : List TranslatorView) (t : TransferView) → IsPlainBoard b → MeetsRules b
        → cost_of (lowered b ts) (translated b ts t) ≤ cost_of b t }
{}
