//! The trait of a gate, which is told of each step of a running thread.
use i2c_base::LockId;

/// What a step did.
#[derive(Clone, Copy, PartialEq, Eq)]
pub enum Point {
    Took(LockId),
    Freed(LockId),
    /// A message that switches a mux was sent.
    Control,
    /// A message of a caller was sent.
    Message,
    Line,
    /// The step settled a reply.
    Settled,
}

/// Someone who is told of each step of a running thread, and may hold the thread there.
pub trait Gate {
    fn pass(&self, caller: u8, point: Point);
}

/// A gate that holds nobody.
#[derive(Clone, Copy)]
pub struct OpenGate;

impl Gate for OpenGate {
    fn pass(&self, _caller: u8, _point: Point) {}
}
