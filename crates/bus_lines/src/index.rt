//! Who is at each address.
ghost use Rattle.std.specs.Prelude.{◌≡◌, ◌<◌, ◌==◌, ℕ, [], get_or, slice_get, length, Some, IfOk, OnOk};
ghost use Rattle.wire_spec.specs.Wires.{Bit};
ghost use Rattle.wire_spec.specs.Sites.{NodeState, NO_ADDRESS};
ghost use Rattle.bus_lines.specs.Numbers.{is_among};
ghost use Rattle.bus_lines.specs.Units.{IsIndex, lists_of, numbers_at};

use crate::WireTarget;
use std::alloc::{AllocError, Global};
use std::marker::Model;
use tgt_bits::BitTarget;

/// How many 7-bit addresses there are.
const ADDRESSES: u8 = 128;

/// The numbers of the targets at each address, rising: a start looks at no others. A contract sees the list of them, by address.
#[derive(Drop)]
pub struct Index {
    at: Vec<Vec<u16>>,
}

impl Model for Index {
    ghost use Rattle.std.specs.Prelude.{ℕ, List};
    ghost use Rattle.bus_lines.specs.Units.{lists_of};

    ghost Value = { List (List ℕ) };

    ghost view = { λ n. lists_of n.at.items };
}

impl Index {
    /// Who is at each address.
    pub fn of(alloc: Global, targets: &[BitTarget<WireTarget>]) -> Result<Self, AllocError>
        requires { length targets.now < 65536 }
        ensures index { IfOk result (λ index. IsIndex (length targets.now) index) }
        ensures listed { IfOk result (λ index. (k : ℕ) (b : Bit NodeState) → slice_get targets.now k ≡ Some b
            → (a : ℕ) → a < NO_ADDRESS → is_among (get_or index a []) k ≡ (a == b.site.addr)) }
    {
        let mut at = Vec::with_capacity(alloc, usize::from(ADDRESSES))?;
        for _ in 0..ADDRESSES {
            at.push_reserved(Vec::new(alloc));
        }
        add_each(&mut at, targets)?;
        Ok(Index { at })
    }

    /// The numbers of the targets at this address.
    pub fn at(&self, addr: u8) -> &[u16]
        requires { addr < length self.now }
        ensures { result.now ≡ get_or self.now addr [] }
    {
        self.at[usize::from(addr)].as_slice()
    }
}

/// The number of each target is put to those at its address, where that is one.
fn add_each(at: &mut Vec<Vec<u16>>, targets: &[BitTarget<WireTarget>]) -> Result<(), AllocError>
    requires few { length targets.now < 65536 }
    requires all { length at.old.items ≡ NO_ADDRESS }
    requires none { (a : ℕ) → a < NO_ADDRESS → get_or (lists_of at.old.items) a [] ≡ [] }
    ensures all { OnOk result (length at.new.items ≡ NO_ADDRESS) }
    ensures listed { OnOk result ((a : ℕ) → a < NO_ADDRESS → get_or (lists_of at.new.items) a [] ≡ numbers_at targets.now a) }
{
    for number in 0..targets.len() {
        let target = &targets[number];
        let addr = usize::from(target.addr);
        if addr < at.len() {
            at[addr].push(number as u16)?;
        }
    }
    Ok(())
}
