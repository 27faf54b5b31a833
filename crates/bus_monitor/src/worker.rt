//! The work of one thread: its caller is stepped to the end of its script.
ghost use Rattle.std.specs.Prelude.{◌≡◌, true};
ghost use Rattle.bus_core.specs.State.{has_caller};

use crate::desk::Desk;
use crate::naming::Naming;
use i2c_base::Caller;
use i2c_outside::Gate;
use ports::Port;
use std::sync::Wait;

/// Steps a caller until its script is used up, and waits while it is blocked. After each step the gate is passed, outside
/// the monitor.
///
/// It waits for others: nothing says that it returns.
pub fn work<'b, P: Port, C: Caller, N: Naming<C::Script>, G: Gate, H: Wait>(
    rt: &H,
    desk: &Desk<'b, P, C, N>,
    caller: u8,
    gate: &G,
)
    requires { has_caller N.opening.scripts caller ≡ true }
{
    for _ in rt.forever() {
        let Some(point) = desk.turn(rt, caller) else {
            break;
        };
        gate.pass(caller, point);
    }
}
