//! What has come of an address byte.
ghost use Rattle.std.specs.Prelude.{◌≡◌, ◌<◌, ◌≤◌, ◌==◌, ◌-◌, ◌^◌, ℕ, suc, not, None, Some};
ghost use Rattle.wire_spec.specs.Wires.{shifted};

use std::marker::Model;

/// A byte has so many bits (UM10204 section 3.1.5).
const BITS: u8 = 8;

/// What has come of an address byte, which all that is joined takes in alike, or that none comes in. A contract sees the bits that
/// are missing, and the number so far.
#[derive(Drop)]
pub struct Register {
    left: u8,
    value: u8,
}

impl Model for Register {
    ghost use Rattle.std.specs.Prelude.{◌≤◌, ◌<◌, ◌^◌, ◌-◌};
    ghost use Rattle.bus_lines.specs.Units.{RegisterView};

    ghost Value = { RegisterView };

    ghost view = { λ r. record { left = r.left; value = r.value } };

    ghost invariant = { λ r. (r.left ≤ 8) × (r.value < 2 ^ (8 - r.left)) };
}

impl Register {
    /// No address comes in.
    pub fn none() -> Self
        ensures { result ≡ record { left = 0; value = 0 } }
    {
        Register { left: 0, value: 0 }
    }

    /// An address comes in from now on.
    pub fn whole() -> Self
        ensures { result ≡ record { left = 8; value = 0 } }
    {
        Register {
            left: BITS,
            value: 0,
        }
    }

    /// An address comes in.
    #[inline(always)]
    pub fn is_coming(&self) -> bool
        ensures { result ≡ not (self.now.left == 0) }
    {
        self.left > 0
    }

    /// The bits that are missing.
    pub fn left(&self) -> u8
        ensures value { result ≡ self.now.left }
        ensures few { result ≤ 8 }
    {
        self.left
    }

    /// The number so far.
    pub fn value(&self) -> u8
        ensures value { result ≡ self.now.value }
        ensures fits { result < 2 ^ (8 - self.now.left) }
    {
        self.value
    }

    /// A bit comes in. The byte, where it was the last of it.
    #[inline(always)]
    pub fn take(&mut self, level: bool) -> Option<u8>
        requires { 0 < self.old.left }
        ensures last { self.old.left ≡ 1 → result ≡ Some (shifted self.old.value level) }
        ensures more { (n : ℕ) → self.old.left ≡ suc (suc n) → result ≡ None }
        ensures value { self.new ≡ record { left = self.old.left - 1; value = shifted self.old.value level } }
    {
        self.value = 2 * self.value + u8::from(level);
        self.left -= 1;
        if self.left == 0 {
            Some(self.value)
        } else {
            None
        }
    }
}
