//! The waves of a root: the dump of the levels that its wires had.
ghost use Rattle.std.specs.Prelude.{◌≡◌, IfOk};
ghost use Rattle.bus_waves.specs.Waves.{IsWave};

use crate::Recorded;
use crate::dump::dump_text;
use i2c_base::{NoMemory, SegId};
use i2c_physics::WirePort;
use std::alloc::Global;

/// The value change dump of the two wires of a port's root, from its opening to where the calls on this port left them. There is none only where
/// there was no memory, for the text or for the levels of a step.
pub fn wave_text(alloc: Global, root: SegId, port: &WirePort<Recorded>) -> Result<Vec<u8>, NoMemory>
    ensures { IfOk result (λ text. port.now.world.root ≡ root → IsWave port.now.world.board root port.now.log text.items) }
{
    match port.lines().steps() {
        Some(steps) => dump_text(alloc, root, steps),
        None => Err(NoMemory),
    }
}
