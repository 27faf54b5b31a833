//! One line step: the line of a gpio mux is set to a level.
ghost use Rattle.std.specs.Prelude.{◌≡◌, ◌≤◌, ℕ, true};
ghost use Rattle.ports.specs.Causes.{Rose};
ghost use Rattle.bus_message.specs.Ports.{MayShift, Shifted, root_port};

use i2c_base::MuxId;
use ports::Port;

/// Sets the line of a gpio mux to a level: 0 closes it, level k opens channel k - 1. True where the port failed.
#[inline(always)]
pub fn shift_line<P: Port>(port: &mut P, mux: MuxId, level: u8) -> bool
    requires { (root : ℕ) → MayShift P.tells mux level (root_port P.Port (root, port.old)) }
    ensures shifted { (root : ℕ) → Shifted P.tells mux level result (root_port P.Port (root, port.old)) (root_port P.Port (root, port.new)) }
    ensures later { P.faults port.old ≤ P.faults port.new }
    ensures cause { result ≡ true → Rose (P.faults port.old) (P.faults port.new) }
{
    port.line(mux, level).is_err()
}
