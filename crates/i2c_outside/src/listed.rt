//! Whether a call is listed among those that fail.
ghost use Rattle.std.specs.Prelude.{◌≡◌};
ghost use Rattle.i2c_outside.specs.Sinks as spec;

/// The call of this number, the first being 0, is listed among those that fail.
pub fn is_listed(fails: &[u32], number: u64) -> bool
    ensures { result ≡ spec.is_listed fails.now number }
{
    fails.iter().any(|listed| u64::from(*listed) == number)
}
