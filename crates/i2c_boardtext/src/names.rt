//! The words that are values: what a root offers, lock modes, idle states and kinds of mux.
ghost use Rattle.std.specs.Prelude.{◌≡◌};
ghost use Rattle.toml.specs.View.{view};
ghost use Rattle.i2c_boardtext.specs.Items.{named_in};
ghost use Rattle.i2c_boardtext.specs.Names.{offers_named, lock_named, idle_named, mux_named};

use i2c_base::{Idle, LockMode, MuxKind};
use toml::Value;

fn offers_named(word: &str) -> Option<bool>
    ensures { result ≡ offers_named word.now }
{
    match word {
        "all" => Some(false),
        "smbus" => Some(true),
        _ => None,
    }
}

fn lock_named(word: &str) -> Option<LockMode>
    ensures { result ≡ lock_named word.now }
{
    match word {
        "parent" => Some(LockMode::Parent),
        "mux" => Some(LockMode::Mux),
        _ => None,
    }
}

fn idle_named(word: &str) -> Option<Idle>
    ensures { result ≡ idle_named word.now }
{
    match word {
        "disconnect" => Some(Idle::Disconnect),
        "as-is" => Some(Idle::AsIs),
        _ => None,
    }
}

fn mux_named(word: &str) -> Option<MuxKind>
    ensures { result ≡ mux_named word.now }
{
    match word {
        "pca9548" => Some(MuxKind::Pca9548),
        "pca9546" => Some(MuxKind::Pca9546),
        "pca9544" => Some(MuxKind::Pca9544),
        "pca9541" => Some(MuxKind::Pca9541),
        "gpio" => Some(MuxKind::Gpio),
        _ => None,
    }
}

/// What a root offers, where the value is a text that says so: true is SMBus calls alone.
pub fn offers_in(value: &Value) -> Option<bool>
    ensures { result ≡ named_in offers_named (view value.now) }
{
    offers_named(value.as_str()?)
}

/// Which locks a transfer takes, where the value is a text that says so.
pub fn lock_in(value: &Value) -> Option<LockMode>
    ensures { result ≡ named_in lock_named (view value.now) }
{
    lock_named(value.as_str()?)
}

/// What a mux does after a transfer, where the value is a text that says so.
pub fn idle_in(value: &Value) -> Option<Idle>
    ensures { result ≡ named_in idle_named (view value.now) }
{
    idle_named(value.as_str()?)
}

/// The kind of a mux, where the value is a text that names one.
pub fn mux_in(value: &Value) -> Option<MuxKind>
    ensures { result ≡ named_in mux_named (view value.now) }
{
    mux_named(value.as_str()?)
}
