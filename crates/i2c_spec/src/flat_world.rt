//! How a message that ended early makes its transfer fail.
ghost use Rattle.std.specs.Prelude.{◌≡◌};
ghost use Rattle.i2c_spec.specs.Flat as spec;

use i2c_base::{End, Errno};

/// How a message that ended early makes its transfer fail: ENXIO where nobody acknowledged the address, ETIMEDOUT where
/// the clock was held there too long, EIO where a byte was refused, EPROTO for a bad count, EREMOTEIO where the port
/// failed (Linux fault-codes); none where it went through.
pub fn errno_of(end: End) -> Option<Errno>
    ensures { result ≡ spec.errno_of end }
{
    match end {
        End::Ok => None,
        End::Nack => Some(Errno::Enxio),
        End::Slow => Some(Errno::Etimedout),
        End::Refused => Some(Errno::Eio),
        End::Proto => Some(Errno::Eproto),
        End::Cut(_) => Some(Errno::Eremoteio),
    }
}
