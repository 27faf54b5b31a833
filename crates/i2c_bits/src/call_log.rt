//! The calls that were made on a port, which only contracts read.
ghost use Rattle.std.specs.Prelude.{◌≡◌, ◌++◌, [], ◌∷◌};

use i2c_base::PortCall;
use std::snapshot::Snapshot;

/// The calls that were made on a port: the last one, after all that were before. It keeps none of them, so that it takes no more
/// memory the more there are. A contract sees the list of them.
#[derive(Drop)]
pub enum CallLog {
    Nothing,
    Call(Snapshot<CallLog>, Snapshot<PortCall>),
}

impl CallLog {
    ghost use Rattle.i2c_bits.specs.CallLogs.{calls_of};

    /// No call was made.
    pub fn none() -> Self
        ensures { calls_of result ≡ [] }
    {
        CallLog::Nothing
    }

    /// One call more was made.
    pub fn add(&mut self, call: PortCall)
        ensures { calls_of self.new ≡ calls_of self.old ++ call ∷ [] }
    {
        *self = CallLog::Call(Snapshot::of(self), Snapshot::of(&call));
    }
}
