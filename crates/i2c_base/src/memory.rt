//! Being out of memory, an error that says nothing else.
ghost use Rattle.i2c_base.specs.declared.memory.NoMemory.{NoMemory};

use std::alloc::{AllocError, AllocFailed};

/// Memory was wanted and there was none. It says nothing else.
#[derive(Clone, Copy)]
pub struct NoMemory;

impl From<AllocError> for NoMemory {
    fn from(_error: AllocError) -> Self {
        NoMemory
    }
}

impl<T: Drop> From<AllocFailed<T>> for NoMemory {
    fn from(_error: AllocFailed<T>) -> Self {
        NoMemory
    }
}
