//! Why a file was not read, or a rig not plugged.
ghost use Rattle.std.specs.Prelude.{◌≡◌};
ghost use Rattle.i2c_outside.specs.declared.failed.ReadFail.TheVariants.{Memory as NoRoomToRead};
ghost use Rattle.i2c_outside.specs.declared.failed.RigFail.TheVariants.{Memory as NoRoomToPlug};

use std::alloc::{AllocError, AllocFailed};

/// Why a file was not read.
#[derive(Clone, Copy)]
pub enum ReadFail {
    /// The shelf counted a fault at this place.
    Failed,
    Memory,
}

impl From<AllocError> for ReadFail {
    ghost from_gives = { λ _ e. e ≡ NoRoomToRead };

    fn from(_error: AllocError) -> Self {
        ReadFail::Memory
    }
}

impl<T: Drop> From<AllocFailed<T>> for ReadFail {
    ghost from_gives = { λ _ e. e ≡ NoRoomToRead };

    fn from(_error: AllocFailed<T>) -> Self {
        ReadFail::Memory
    }
}

/// Why a rig was not plugged.
#[derive(Clone, Copy)]
pub enum RigFail {
    /// The rig counted a fault.
    Failed,
    Memory,
}

impl From<AllocError> for RigFail {
    ghost from_gives = { λ _ e. e ≡ NoRoomToPlug };

    fn from(_error: AllocError) -> Self {
        RigFail::Memory
    }
}

impl<T: Drop> From<AllocFailed<T>> for RigFail {
    ghost from_gives = { λ _ e. e ≡ NoRoomToPlug };

    fn from(_error: AllocFailed<T>) -> Self {
        RigFail::Memory
    }
}
