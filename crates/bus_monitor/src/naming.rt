//! A name in the type of a core for what it was opened with.
use std::marker::Brand;

/// What a core was opened with, and the roots of its ports, by a name.
///
/// Of what stands under a lock nothing is known but what its type says. So a core's type carries such a name, and the name
/// is picked for the core that is at hand.
pub trait Naming<S> {
    ghost use Rattle.std.specs.Prelude.{ℕ, List};
    ghost use Rattle.bus_core.specs.Opening.{Opening};

    ghost opening: { Opening S };

    ghost roots: { List ℕ };
}

impl<S> Naming<S> for Brand {
    ghost use Rattle.std.specs.Prelude.{[]};

    ghost opening = { record { board = record { version = 1; roots = []; muxes = []; devices = [] }; scripts = []; worlds = [] } };

    ghost roots = { [] };
}
