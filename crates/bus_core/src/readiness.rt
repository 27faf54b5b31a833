//! Which caller can make a step.
ghost use Rattle.std.specs.Prelude.{◌≡◌, ◌<◌, true, false, length, None, IfSome};
ghost use Rattle.bus_core.specs.Kept.{IsResting, IsCore};
ghost use Rattle.bus_core.specs.Ready.{IsHeldUpAt, CanStepAt, IsLeastReady, AllHeldUp};

use crate::parts::CoreInside;
use i2c_base::{Caller, MOST_CALLERS};
use mux_plan::Action;
use ports::Port;

// The caller at a place isn't blocked, and its script isn't used up.
fn can_step<P: Port, C: Caller>(parts: &CoreInside<'_, P, C>, place: usize) -> bool
    requires rests { IsResting P.Port C.Caller parts.now }
    requires there { place < length parts.now.seats.items }
    ensures can { result ≡ true → CanStepAt parts.now place }
    ensures held_up { result ≡ false → IsHeldUpAt parts.now place }
{
    match parts.seats[place].next() {
        Action::Done => false,
        Action::Take(lock) => parts.locks.holder(lock).is_none(),
        _ => true,
    }
}

/// The least caller that can make a step: it isn't blocked, and its script isn't used up. None where no caller can.
pub fn ready<P: Port, C: Caller>(parts: &CoreInside<'_, P, C>) -> Option<u8>
    requires core { IsCore P.Port C.Caller parts.now }
    ensures some { IfSome result (IsLeastReady parts.now) }
    ensures none { result ≡ None → AllHeldUp parts.now }
{
    for number in 0..MOST_CALLERS {
        if let Some(place) = parts.places[usize::from(number)] {
            if can_step(parts, usize::from(place)) {
                return Some(number);
            }
        }
    }
    None
}
