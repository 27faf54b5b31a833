//! What is known of the registers of some devices.
ghost use Rattle.std.specs.Prelude.{◌≡◌, map};
ghost use Rattle.i2c_base.specs.Replies.{reply_by};
ghost use Rattle.cache_laws.specs.Cache.{is_at, register_of, with_register, brought, learn_at, pair_at};

use cache_laws::{Access, Kept, Pair};
use i2c_base::ReplyHead;

// The access is of this device.
fn is_at(access: &Access, kept: &Kept) -> bool
    ensures { result ≡ is_at access.now kept.now }
{
    kept.bus == access.bus && kept.addr == access.addr
}

// What is known of a register behind an access with this reply.
fn brought(sent: Option<Pair>, head: ReplyHead, bytes: &[u8]) -> Option<Pair>
    ensures { result ≡ brought sent (reply_by head bytes.now) }
{
    match (sent, head) {
        (None, ReplyHead::Read) => match bytes {
            [high, low] => Some(Pair {
                high: *high,
                low: *low,
            }),
            _ => None,
        },
        (Some(pair), ReplyHead::Done) => Some(pair),
        _ => None,
    }
}

// What is known of a device, with a register told anew.
fn with_register(kept: Kept, register: u8, pair: Option<Pair>) -> Kept
    ensures { result ≡ with_register kept register pair }
{
    if register == 2 {
        Kept {
            hysteresis: pair,
            ..kept
        }
    } else {
        Kept {
            limit: pair,
            ..kept
        }
    }
}

// What is known of a device behind an access with this reply.
fn learned_at(kept: Kept, access: &Access, head: ReplyHead, bytes: &[u8]) -> Kept
    ensures { result ≡ learn_at access.now (reply_by head bytes.now) kept }
{
    if is_at(access, &kept) {
        with_register(kept, access.register, brought(access.sent, head, bytes))
    } else {
        kept
    }
}

/// Learns of an access and its reply.
#[tactic(auto, using(std::proofs::lemmas::List::Edits::map_over_more))]
pub fn learn(kept: &mut Vec<Kept>, access: &Access, head: ReplyHead, bytes: &[u8])
    ensures { kept.new.items ≡ map (learn_at access.now (reply_by head bytes.now)) kept.old.items }
{
    for place in 0..kept.len() {
        kept[place] = learned_at(kept[place], access, head, bytes);
    }
}

/// The bytes that are known of the register of an access.
pub fn pair_at(kept: &[Kept], access: &Access) -> Option<Pair>
    ensures { result ≡ pair_at kept.now access.now }
{
    for device in kept {
        if is_at(access, device) {
            return if access.register == 2 {
                device.hysteresis
            } else {
                device.limit
            };
        }
    }
    None
}
