//! The laws of a start, with its address and its acknowledge clock, and of a stop.
ghost use Rattle.std.specs.Prelude.{false};
ghost use Rattle.wire_spec.specs.declared.mode.Mode.TheVariants.{Out, In};
ghost use Rattle.wire_spec.specs.Sites.{NodeState, node_table};
ghost use Rattle.wire_spec.specs.Laws.{StartCallsAll, RepeatedStartCallsAll, AddressIsOneEvent, HeldClockComesUp, SlowAddressStaysLow, StopFreesTheLines, StopAfterSlowFreesTheLines, OutStays, QuietOutStays, SomeAreAll, UnheardIsOut};

use i2c_spec::{chips_are_fair, states_are_fair};

/// A start calls all that is joined: each takes in an address (UM10204 section 3.1.4).
pub fn a_start_calls_all_that_is_joined()
    ensures { StartCallsAll node_table }
{}

/// A repeated start within a message does the same, after a byte of a write and where nobody is in the message.
pub fn a_repeated_start_calls_all_that_is_joined()
    ensures written { RepeatedStartCallsAll node_table (In false 8 0) }
    ensures out { RepeatedStartCallsAll node_table Out }
{}

/// An address byte, clock by clock, is one event of each target that is joined: a start for who is named, and another's start
/// for all else (UM10204 section 3.1.10).
pub fn an_address_byte_is_one_event()
    ensures { AddressIsOneEvent node_table }
{
    chips_are_fair();
    states_are_fair();
}

/// An acknowledge clock that is held for at most 64 looks comes up, and is one edge (UM10204 section 3.1.9).
pub fn a_clock_that_is_held_for_64_looks_comes_up()
    ensures { HeldClockComesUp node_table }
{
    chips_are_fair();
    states_are_fair();
}

/// Where a target that is named holds it for longer, all 65 looks are low, and the controller lets both lines go.
pub fn a_clock_that_is_held_for_65_looks_is_too_slow()
    ensures { SlowAddressStaysLow node_table }
{
    chips_are_fair();
    states_are_fair();
}

/// A stop within a message frees the lines (UM10204 section 3.1.4).
pub fn a_stop_frees_the_lines()
    ensures written { StopFreesTheLines node_table (In false 8 0) }
    ensures out { StopFreesTheLines node_table Out }
{}

/// A stop after a start that was too slow frees them too, within 255 looks.
pub fn a_stop_after_a_slow_start_frees_the_lines()
    ensures { StopAfterSlowFreesTheLines node_table }
{}

/// An edge changes only targets that are in the message; the last bit of an address and a stop only those too that it names,
/// or that had a start since their last stop. So an edge may be given to these alone.
pub fn an_edge_changes_only_who_is_in_the_message()
    ensures out { OutStays node_table }
    ensures quiet { QuietOutStays node_table }
    ensures some { SomeAreAll NodeState }
{}

/// A message that nobody hears goes on as one whose targets are all out of it, so that the laws of a repeated start and a stop
/// are of it too.
pub fn a_message_that_nobody_hears_is_out()
    ensures { UnheardIsOut node_table }
{}
