//! What bus clear comes to.

/// What bus clear comes to.
#[derive(Clone, Copy, Debug, PartialEq, Eq)]
pub enum Cleared {
    /// SDA is high, and the bus is free, after so many pulses.
    Free { pulses: u8 },
    /// SDA is low after the last pulse.
    SdaHeld,
    /// SCL stayed low after so many pulses.
    SclHeld { pulse: u8 },
}
