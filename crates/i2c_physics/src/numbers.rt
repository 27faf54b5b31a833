//! The numbers of some targets of one kind.
ghost use Rattle.std.specs.Prelude.{◌≡◌, ◌<◌, ◌≤◌, [], ◌∷◌, ◌++◌, length};
ghost use Rattle.i2c_base.specs.Limits.{MOST_DEVICES};

use i2c_base::{MOST_DEVICES, Row};
use std::marker::Model;

/// Numbers of targets of one kind; the devices are the most. A contract sees the list.
#[derive(Drop)]
pub struct KindNumbers {
    row: Row<u16, MOST_DEVICES>,
}

impl Model for KindNumbers {
    ghost use Rattle.std.specs.Prelude.{ℕ, ◌≤◌, List, length};
    ghost use Rattle.i2c_base.specs.Limits.{MOST_DEVICES};

    ghost Value = { List ℕ };

    ghost view = { λ n. n.row };

    ghost invariant = { λ n. length n.row ≤ MOST_DEVICES };
}

impl KindNumbers {
    /// None yet.
    pub fn new() -> Self
        ensures { result ≡ [] }
    {
        KindNumbers { row: Row::new() }
    }

    /// The numbers, in their order.
    pub fn as_slice(&self) -> &[u16]
        ensures value { result.now ≡ self.now }
        ensures few { length result.now ≤ MOST_DEVICES }
    {
        self.row.as_slice()
    }

    /// Leaves none.
    pub fn clear(&mut self)
        ensures { self.new ≡ [] }
    {
        self.row.clear();
    }

    /// Puts a number behind the others.
    pub fn push(&mut self, number: u16)
        requires { length self.old < MOST_DEVICES }
        ensures { self.new ≡ self.old ++ number ∷ [] }
    {
        self.row.push(number);
    }

    /// Puts a number before the others. It is seldom called, and has a list of its own: so it isn't made part of its callers.
    #[inline(never)]
    pub fn put_first(&mut self, number: u16)
        requires { length self.old < MOST_DEVICES }
        ensures { self.new ≡ number ∷ self.old }
    {
        let mut all = KindNumbers::new();
        all.push(number);
        for other in self.as_slice() {
            all.push(*other);
        }
        *self = all;
    }

    /// Puts these numbers in the place of those that it had.
    pub fn write_over(&mut self, numbers: &[u16])
        requires { length numbers.now ≤ MOST_DEVICES }
        ensures { self.new ≡ numbers.now }
    {
        self.clear();
        for number in numbers {
            self.push(*number);
        }
    }
}
