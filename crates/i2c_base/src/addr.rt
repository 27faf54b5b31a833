//! The 7-bit address of a target.
ghost use Rattle.std.specs.Prelude.{◌≡◌, ℕ, ◌↔◌, ◌≤◌, IsSome, IfSome};
ghost use Rattle.i2c_base.specs.Addr.{IsTargetAddress};

use std::marker::Model;

/// The 7-bit address of a target, from 0x08 to 0x77. A contract sees the number.
///
/// The addresses outside are reserved (UM10204 section 3.1.12).
#[derive(Clone, Copy, PartialEq, Eq)]
pub struct Addr {
    value: u8,
}

impl Model for Addr {
    ghost Value = { ℕ };

    ghost view = { λ a. a.value };

    ghost invariant = { λ a. IsTargetAddress a.value };

    ghost inverse = { λ n. record { value = n } };
}

impl Addr {
    /// The lowest address that a target may have.
    pub const FIRST: u8 = 0x08;

    /// The highest address that a target may have.
    pub const LAST: u8 = 0x77;

    /// The address of this number, or none where the number is reserved.
    pub fn new(value: u8) -> Option<Self>
        ensures valid { IsSome result ↔ IsTargetAddress value }
        ensures value { IfSome result (λ addr. addr ≡ value) }
    {
        if (Self::FIRST..=Self::LAST).contains(&value) {
            Some(Addr { value })
        } else {
            None
        }
    }

    pub fn get(self) -> u8
        ensures value { result ≡ self }
        ensures range { IsTargetAddress self }
    {
        self.value
    }
}

/// The lowest address: the blank of an unused place.
impl Default for Addr {
    fn default() -> Self {
        Addr { value: Self::FIRST }
    }
}
