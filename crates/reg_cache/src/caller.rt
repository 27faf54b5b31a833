//! A script as a caller that answers its hits itself.
ghost use Rattle.std.specs.Prelude.{◌≡◌, ◌<◌, true, false, [], map, length, All, Some, None, IfOk};
ghost use Rattle.std.specs.Option.{option_map};
ghost use Rattle.i2c_base.specs.Need.{Covers};
ghost use Rattle.i2c_base.specs.Replies.{reply_by};
ghost use Rattle.caller_core.specs.Callers.{IsOpened, owed_by};
ghost use Rattle.caller_core.specs.Scripts.{asked_by, commands_of, section_text};
ghost use Rattle.cache_laws.specs.Cache.{answered, hit, known, learned, reply_of, unknown};
ghost use Rattle.reg_cache.specs.Cached.{AllKept, cached, HasAnswered, HasAnsweredAll, HoldsNext, CachedScriptsAreFair};

use crate::access::access_of;
use crate::known::{learn, pair_at};
use cache_laws::{Kept, Pair};
use caller_core::{Script, scripts_are_fair};
use i2c_base::{Caller, DevId, NoMemory, ReplyHead, Transfer, TransferKind};
use i2c_board::Accepted;
use std::alloc::Global;
use std::marker::Model;
use std::snapshot::Snapshot;

// The bytes of the register that a transfer reads, where they are known.
fn hit_of(kept: &[Kept], transfer: &Transfer) -> Option<Pair>
    ensures { option_map reply_of result ≡ hit kept.now (Some transfer.now) }
{
    let access = access_of(transfer)?;
    if access.sent.is_some() {
        return None;
    }
    pair_at(kept, &access)
}

// Learns of a transfer and its reply.
fn learn_of(kept: &mut Vec<Kept>, transfer: &Transfer, head: ReplyHead, bytes: &[u8])
    ensures { kept.new.items ≡ learned kept.old.items (Some transfer.now) (reply_by head bytes.now) }
{
    if let Some(access) = access_of(transfer) {
        learn(kept, &access, head, bytes);
    }
}

// Puts what a script asks for next in place of a transfer, where some device is kept. It tells whether it did.
fn hold_next(script: &Script, kept: &[Kept], held: &mut Transfer) -> bool
    ensures some { result ≡ true → asked_by script.now.script script.now.taken ≡ Some held.new }
    ensures none { result ≡ false → hit kept.now (asked_by script.now.script script.now.taken) ≡ None }
    ensures holds { HoldsNext script.now.script script.now.taken kept.now held.new }
{
    !kept.is_empty() && script.refill(held)
}

// Answers the next transfer of a script where it is a hit, and tells whether it is one. The transfer is room for it, and
// holds it where it isn't.
fn answer_hit(script: &mut Script, kept: &mut Vec<Kept>, transfer: &mut Transfer) -> bool
    requires room { Covers script.old.spare (owed_by script.old.script script.old.taken) }
    ensures script { script.new.script ≡ script.old.script }
    ensures some { result ≡ true → HasAnswered script.old.script script.old.taken script.new.taken kept.old.items kept.new.items }
    ensures none { result ≡ false → hit kept.old.items (asked_by script.old.script script.old.taken) ≡ None }
    ensures stays { result ≡ false → (script.new ≡ script.old) × (kept.new.items ≡ kept.old.items) }
    ensures holds { result ≡ false → HoldsNext script.new.script script.new.taken kept.new.items transfer.new }
    ensures room { Covers script.new.spare (owed_by script.new.script script.new.taken) }
{
    if !hold_next(script, kept, transfer) {
        return false;
    }
    let Some(pair) = hit_of(kept, transfer) else {
        return false;
    };
    let bytes = [pair.high, pair.low];
    learn_of(kept, transfer, ReplyHead::Read, &bytes);
    script.take(ReplyHead::Read, &bytes);
    true
}

// Answers the transfers of a script that are hits, one after the other. The transfer is room for them, and holds the one
// after them then.
fn answer_hits(script: &mut Script, kept: &mut Vec<Kept>, transfer: &mut Transfer)
    requires room { Covers script.old.spare (owed_by script.old.script script.old.taken) }
    ensures script { script.new.script ≡ script.old.script }
    ensures all { (ks : AllKept) → kept.old.items ≡ known (asked_by script.old.script) ks script.old.taken
        → HasAnsweredAll script.old.script ks script.old.taken script.new.taken kept.new.items }
    ensures holds { HoldsNext script.new.script script.new.taken kept.new.items transfer.new }
    ensures room { Covers script.new.spare (owed_by script.new.script script.new.taken) }
{
    scripts_are_fair();
    'hits: while answer_hit(script, kept, transfer) {}
}

/// What a cached caller is opened with, as contracts see it: the script, and the devices that it may keep. No value of it is
/// made.
pub struct CachedData {}

impl Model for CachedData {
    ghost use Rattle.std.specs.Prelude.{[]};
    ghost use Rattle.reg_cache.specs.Cached.{CachedScript};

    ghost Value = { CachedScript };

    ghost view = { λ s. record { script = record { board = record { version = 1; roots = []; muxes = []; devices = [] }; text = [] }; devices = [] } };
}

/// A caller that asks for what its script asks for, with the hits left out: these it answers from what it keeps, and gives them
/// to its script at once.
#[derive(Drop)]
pub struct CachedCaller {
    script: Script,
    /// The devices that it was opened with, and what it knows of them.
    devices: Snapshot<Vec<DevId>>,
    kept: Vec<Kept>,
    /// What the script asks for next, where it asks for something and some device is kept.
    transfer: Transfer,
}

impl Model for CachedCaller {
    ghost use Rattle.reg_cache.specs.Cached.{CachedView, HoldsNext, IsCached, taken_of};

    ghost Value = { CachedView };

    ghost view = { λ s. record { script = record { script = s.script.script; devices = s.devices.value.items }; taken = taken_of (record { script = s.script.script; devices = s.devices.value.items }) s.script.taken; spare = s.script.spare } };

    ghost invariant = { λ s. IsCached (record { script = s.script.script; devices = s.devices.value.items }) s.script.taken s.kept.items
        × HoldsNext s.script.script s.script.taken s.kept.items s.transfer };
}

// What a device of the board is known by; nothing of its registers is.
fn unknown(board: &Accepted, device: DevId) -> Kept
    requires { device < length board.now.devices }
    ensures { result ≡ unknown board.now device }
{
    let found = &board.board().devices()[usize::from(device.0)];
    Kept {
        device,
        bus: found.bus.0,
        addr: found.addr,
        hysteresis: None,
        limit: None,
    }
}

impl CachedCaller {
    /// A caller that keeps what it reads and writes of these devices. Only this takes memory.
    pub fn open(
        alloc: Global,
        board: &Accepted,
        script: Script,
        devices: Vec<DevId>,
    ) -> Result<Self, NoMemory>
        requires opened { IsOpened board.now script.script.text script }
        requires there { All (λ d. d < length board.now.devices) devices.items }
        ensures script { IfOk result (λ c. c.script ≡ record { script = script.script; devices = devices.items }) }
        ensures taken { IfOk result (λ c. c.taken ≡ []) }
    {
        scripts_are_fair();
        let mut kept = Vec::with_capacity(alloc, devices.len())?;
        for device in devices.as_slice() {
            kept.push_reserved(unknown(board, *device));
        }
        let mut transfer = Transfer::new(0, TransferKind::Smbus, false);
        hold_next(&script, &kept, &mut transfer);
        Ok(CachedCaller {
            script,
            devices: Snapshot::of(&devices),
            kept,
            transfer,
        })
    }

    /// What its script has printed: each command that is over, and its answer, as with all its replies, hits included.
    pub fn text(&self) -> &[u8]
        ensures { result.now ≡ section_text (commands_of self.now.script.script) (answered (cached self.now.script) self.now.taken) }
    {
        self.script.text()
    }
}

impl Caller for CachedCaller {
    ghost use Rattle.reg_cache.specs.Cached.{cached_asked, cached_board, cached_left, cached_owed};

    type Script = CachedData;

    ghost script = { λ s. s.script };

    ghost board = { cached_board };

    ghost taken = { λ s. s.taken };

    ghost asked = { cached_asked };

    ghost left = { cached_left };

    ghost owed = { cached_owed };

    ghost spare = { λ s. s.spare };

    fn next(&self) -> Option<Transfer> {
        self.script.next()
    }

    fn refill(&self, transfer: &mut Transfer) -> bool {
        self.script.refill(transfer)
    }

    fn reserve(&mut self) -> Result<(), NoMemory> {
        self.script.reserve()
    }

    fn take(&mut self, head: ReplyHead, bytes: &[u8]) {
        scripts_are_fair();
        // Where no device is kept, another transfer may be at hand, but then there is nothing to learn.
        learn_of(&mut self.kept, &self.transfer, head, bytes);
        self.script.take(head, bytes);
        answer_hits(&mut self.script, &mut self.kept, &mut self.transfer);
    }
}

/// Cached scripts are fair, whatever board, text and devices they are opened with.
pub fn cached_scripts_are_fair()
    ensures { CachedScriptsAreFair }
{
    scripts_are_fair();
}
