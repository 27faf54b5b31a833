//! Addresses that stand for others.
ghost use Rattle.std.specs.Prelude.{◌≡◌};
ghost use Rattle.i2c_base.specs.Alias.{alias_of};

use crate::Addr;

/// An address, and the one at which it is reached elsewhere.
#[derive(Clone, Copy)]
pub struct AliasPair {
    pub addr: Addr,
    pub alias: Addr,
}

/// The alias of an address, by the first pair that is of it; where none is, the address.
pub fn alias_of(pairs: &[AliasPair], addr: Addr) -> Addr
    ensures { result ≡ alias_of pairs.now addr }
{
    for pair in pairs {
        if pair.addr == addr {
            return pair.alias;
        }
    }
    addr
}
