//! The answer of a call that failed.

/// A call failed, and its object counted a fault.
#[derive(Clone, Copy)]
pub struct Failed;
