//! Many steps: by a schedule, and then until each script is used up.
ghost use Rattle.std.specs.Prelude.{◌≡◌, ℕ, ◌<◌, true, false, IsTrue, List, [], All, Some};
ghost use Rattle.bus_laws.specs.Following.{GoesOnBy};
ghost use Rattle.i2c_base.specs.declared.entry.Entry.{Entry};
ghost use Rattle.i2c_base.specs.Limits.{MOST_CALLERS};
ghost use Rattle.bus_core.specs.Kept.{IsCore, HasCome};
ghost use Rattle.bus_core.specs.Ready.{IsCallerHeldUp, AllHeldUp, HasPlace};
ghost use Rattle.bus_core.specs.Runs.{HasMade, HasMadeLeast, HasWaited, KeepsSchedule};
ghost use Rattle.bus_core.specs.State.{AllThrough, state_of};

use crate::parts::CoreInside;
use crate::steps::{StepAnswer, step};
use bus_laws::a_loop_follows;
use i2c_base::{Caller, MOST_CALLERS};
use ports::Port;

/// Makes the next step of a caller, if it can make one; tells whether it did.
pub fn advance<P: Port, C: Caller>(parts: &mut CoreInside<'_, P, C>, caller: u8) -> bool
    requires core { IsCore P.Port C.Caller parts.old }
    requires has { HasPlace parts.old.places.items caller }
    ensures core { IsCore P.Port C.Caller parts.new }
    ensures made { result ≡ true → HasMade P.Port C.Caller caller parts.old parts.new }
    ensures waited { result ≡ false → HasWaited P.Port C.Caller caller parts.old parts.new }
    ensures held_up { result ≡ false → IsCallerHeldUp parts.old caller }
{
    let Some(place) = parts.places[usize::from(caller)] else {
        return false;
    };
    match step(parts, usize::from(place)) {
        StepAnswer::Stepped => true,
        _ => false,
    }
}

// The script of the caller of this number is used up, or there is no such caller.
fn is_through<P: Port, C: Caller>(parts: &CoreInside<'_, P, C>, number: u8) -> bool
    requires core { IsCore P.Port C.Caller parts.now }
    requires known { number < MOST_CALLERS }
    ensures through { result ≡ true → IsCallerHeldUp parts.now number }
    ensures there { result ≡ false → HasPlace parts.now.places.items number }
{
    match parts.places[usize::from(number)] {
        Some(place) => parts.seats[usize::from(place)].walk.is_over(),
        None => true,
    }
}

// Makes the next step of the least caller that can make one; tells whether there is one.
fn advance_least<P: Port, C: Caller>(parts: &mut CoreInside<'_, P, C>) -> bool
    requires core { IsCore P.Port C.Caller parts.old }
    ensures core { IsCore P.Port C.Caller parts.new }
    ensures made { result ≡ true → HasMadeLeast P.Port C.Caller parts.old parts.new }
    ensures none { result ≡ false → (parts.new ≡ parts.old) × AllHeldUp parts.old }
{
    for number in 0..MOST_CALLERS {
        if !is_through(parts, number) && advance(parts, number) {
            return true;
        }
    }
    false
}

/// Steps the least caller that can make a step, until none can: then each script is used up.
pub fn finish<P: Port, C: Caller>(parts: &mut CoreInside<'_, P, C>)
    requires core { IsCore P.Port C.Caller parts.old }
    ensures core { IsCore P.Port C.Caller parts.new }
    ensures come { HasCome P.Port C.Caller parts.old parts.new }
    ensures through { AllThrough C.asked P.tells (state_of P.Port C.Caller parts.new) }
    ensures follows { IsTrue P.tells → GoesOnBy [] parts.old.journal.entries parts.new.journal.entries }
    ensures keeps { (words : List ℕ) (from : List Entry) → KeepsSchedule P.Port C.Caller words from [] parts.old → KeepsSchedule P.Port C.Caller words from [] parts.new }
{
    a_loop_follows();
    'steps: while advance_least(parts) {}
}

/// Steps the callers by a schedule of their numbers, a word of a caller that is blocked or used up passed over; and
/// then the least that can make a step, until each script is used up.
pub fn follow<P: Port, C: Caller>(parts: &mut CoreInside<'_, P, C>, words: &[u8])
    requires core { IsCore P.Port C.Caller parts.old }
    requires words { All (HasPlace parts.old.places.items) words.now }
    ensures core { IsCore P.Port C.Caller parts.new }
    ensures come { HasCome P.Port C.Caller parts.old parts.new }
    ensures through { AllThrough C.asked P.tells (state_of P.Port C.Caller parts.new) }
    ensures follows { IsTrue P.tells → GoesOnBy words.now parts.old.journal.entries parts.new.journal.entries }
{
    a_loop_follows();
    for place in 0..words.len() {
        advance(parts, words[place]);
    }
    finish(parts);
}
