//! What a target tells so that it can stand on the wires: a mux chip, and a device of any kind.
ghost use Rattle.std.specs.Prelude.{◌≡◌};
ghost use Rattle.i2c_spec.specs.Targets.{IsFairTable};

use i2c_base::Target;
use targets::{Chip, DeviceState};

/// A target that tells ahead what it would send, and for how long it would hold the clock.
pub trait Wired: Target {
    /// The byte that the next read would give.
    fn sends(&self) -> u8
        ensures { result ≡ Self.table.sends self.now };

    /// For how many looks it holds the clock at its address (UM10204 section 3.1.9).
    fn hold(&self) -> u8
        ensures { result ≡ Self.table.hold self.now };

    /// What its table promises.
    ghost fair: { IsFairTable Self.table };
}

/// The table of whatever stands on the wires promises what each table does: after a stop the target is quiet, it sends what it
/// tells, and each event is answered by what belongs to it.
pub fn wired_targets_are_fair<T: Wired>()
    ensures { IsFairTable T.table }
{}

impl Wired for Chip {
    ghost use Rattle.std.proofs.Common.{rules};

    ghost fair = { Prim.search rules };

    fn sends(&self) -> u8 {
        Chip::sends(self)
    }

    /// A mux chip never holds the clock.
    fn hold(&self) -> u8 {
        0
    }
}

impl Wired for DeviceState {
    ghost use Rattle.i2c_spec.proofs.StateLemmas.{states_fair};

    ghost fair = { states_fair };

    fn sends(&self) -> u8 {
        DeviceState::sends(self)
    }

    fn hold(&self) -> u8 {
        DeviceState::hold(self)
    }
}
