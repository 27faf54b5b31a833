//! The numbers of some targets of a root.
ghost use Rattle.std.specs.Prelude.{◌≡◌, ◌<◌, ◌==◌, ◌||◌, ◌&&◌, ℕ, true, [], IfOk};
ghost use Rattle.bus_lines.specs.Numbers.{is_among, AreNumbers, numbers_of};

use std::alloc::{AllocError, Global};
use std::marker::Model;

/// Numbers of targets of a root, each of them once, with room for all. A contract sees the list, and how many targets there are.
#[derive(Drop)]
pub struct TargetNumbers {
    numbers: Vec<u16>,
}

impl Model for TargetNumbers {
    ghost use Rattle.std.specs.Prelude.{◌<◌, ◌^◌, vec_capacity};
    ghost use Rattle.bus_lines.specs.Numbers.{NumbersView, AreNumbers, numbers_of};

    ghost Value = { NumbersView };

    ghost view = { λ n. numbers_of (vec_capacity n.numbers) n.numbers.items };

    ghost invariant = { λ n. (AreNumbers (vec_capacity n.numbers) n.numbers.items) × (vec_capacity n.numbers < 2 ^ 16) };
}

impl TargetNumbers {
    /// None yet, with room for so many targets.
    pub fn with_room(alloc: Global, room: usize) -> Result<Self, AllocError>
        requires { room < 65536 }
        ensures { IfOk result (λ numbers. numbers ≡ numbers_of room []) }
    {
        Ok(TargetNumbers {
            numbers: Vec::with_capacity(alloc, room)?,
        })
    }

    /// The numbers.
    pub fn as_slice(&self) -> &[u16]
        ensures value { result.now ≡ self.now.items }
        ensures numbers { AreNumbers self.now.room result.now }
    {
        self.numbers.as_slice()
    }

    /// Leaves none.
    pub fn clear(&mut self)
        ensures { self.new ≡ numbers_of self.old.room [] }
    {
        self.numbers.clear();
    }

    /// Has a number too.
    pub fn add(&mut self, number: u16)
        requires { number < self.old.room }
        ensures room { self.new.room ≡ self.old.room }
        ensures among { (k : ℕ) → is_among self.new.items k ≡ (is_among self.old.items k || (k == number)) }
    {
        if !is_among(self.numbers.as_slice(), number) {
            self.numbers.push_reserved(number);
        }
    }

    /// Has a number too, where the condition holds.
    pub fn add_if(&mut self, condition: bool, number: u16)
        requires { number < self.old.room }
        ensures room { self.new.room ≡ self.old.room }
        ensures among { (k : ℕ) → is_among self.new.items k ≡ (is_among self.old.items k || ((k == number) && condition)) }
    {
        if condition {
            self.add(number);
        }
    }

    /// Has the numbers of all targets.
    pub fn add_all(&mut self)
        ensures room { self.new.room ≡ self.old.room }
        ensures among { (k : ℕ) → k < self.old.room → is_among self.new.items k ≡ true }
    {
        let room = self.numbers.capacity();
        for number in 0..room as u16 {
            self.add(number);
        }
    }
}

fn is_among(numbers: &[u16], number: u16) -> bool
    ensures { result ≡ is_among numbers.now number }
{
    numbers.iter().any(|other| number == *other)
}
