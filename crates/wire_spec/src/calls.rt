//! The laws of the calls on the wires of a root: each is the call of its world.
ghost use Rattle.std.specs.Prelude.{false};
ghost use Rattle.wire_spec.specs.declared.mode.Mode.TheVariants.{Out, In};
ghost use Rattle.wire_spec.specs.CallLaws.{PutOnWires, GetOnWires, StartOnWires, SlowOnWires, StopOnWires, StopAfterSlowOnWires};

use i2c_spec::{chips_are_fair, devices_hold_bytes, states_are_fair};

/// A byte that is put on the wires is acknowledged where the world takes it, and leaves the sites of the world after it.
pub fn a_put_on_the_wires_is_one_in_the_world()
    ensures { PutOnWires }
{}

/// A byte that is read from the wires is the one that the world gives, and leaves the sites of the world after it.
pub fn a_get_on_the_wires_is_one_in_the_world()
    ensures { GetOnWires }
{
    chips_are_fair();
    states_are_fair();
}

/// An address byte on the wires is acknowledged where the world answers the start by Ack, comes up in time where it doesn't
/// answer by Slow, and leaves the sites of the world after it.
pub fn a_start_on_the_wires_is_one_in_the_world()
    ensures in_time { StartOnWires }
    ensures slow { SlowOnWires }
{
    chips_are_fair();
    states_are_fair();
}

/// A stop on the wires frees the lines, and leaves the sites of the world after it.
pub fn a_stop_on_the_wires_is_one_in_the_world()
    ensures written { StopOnWires (In false 8 0) }
    ensures out { StopOnWires Out }
{}

/// The stop after a start that was too slow does the same, within 255 looks.
pub fn a_stop_after_a_slow_start_is_one_in_the_world()
    ensures { StopAfterSlowOnWires }
{
    devices_hold_bytes();
}
