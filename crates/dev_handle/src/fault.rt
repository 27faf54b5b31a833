//! Why a call on handles failed.

ghost use Rattle.std.specs.Prelude.{◌≡◌};
ghost use Rattle.dev_handle.specs.declared.fault.HandleFault.TheVariants.{Memory as WantsMemory};

use i2c_base::Errno;
use std::alloc::AllocError;

/// Why a call on handles failed. It then left all of them as they were.
#[derive(Clone, Copy)]
pub enum HandleFault {
    /// By Linux's name: EBADF, EINVAL, ENODEV or EBUSY.
    Errno(Errno),
    /// Memory was wanted and there was none. Only `open` takes any.
    Memory,
}

impl From<AllocError> for HandleFault {
    ghost from_gives = { λ _ e. e ≡ WantsMemory };

    fn from(_error: AllocError) -> Self {
        HandleFault::Memory
    }
}
