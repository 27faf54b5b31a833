//! The laws of the sites of a root: what the wires come to in a call is what its world of bytes does.
ghost use Rattle.std.specs.Prelude.{◌≡◌, ℕ, ◌/◌, ◌<◌, Bool, List, [], false};
ghost use Rattle.i2c_base.specs.Board.{BoardView};
ghost use Rattle.i2c_spec.specs.Chips.{ChipView};
ghost use Rattle.i2c_spec.specs.Targets.{TargetState, IsFairTable};
ghost use Rattle.wire_spec.specs.Wires.{Site};
ghost use Rattle.wire_spec.specs.Sites.{node_table, world_by, AreSites, NO_ADDRESS};
ghost use Rattle.wire_spec.specs.WorldLaws.{PartsOfBoth, OpenedSites, PutOnSites, GetOnSites, StartOnSites, StopOnSites, LineOnSites};

use i2c_spec::{chips_are_fair, states_are_fair};

/// The one table of chips and devices promises what each of their tables does.
pub fn nodes_are_fair()
    ensures { IsFairTable node_table }
{
    chips_are_fair();
    states_are_fair();
}

/// The list of chips and devices has both apart again.
pub fn chips_stand_before_devices()
    ensures { (cs : List (Site ChipView)) (ds : List (Site TargetState)) → PartsOfBoth cs ds }
{}

/// As a board is opened, the sites of each of its roots are the world's.
pub fn the_sites_of_a_board_are_its_worlds()
    ensures { (b : BoardView) (r : ℕ) → OpenedSites b r }
{}

/// A byte that is put is to the sites what it is to the world, and they stay the world's.
pub fn a_put_on_the_sites_is_one_in_the_world()
    ensures { (b : BoardView) (r : ℕ) (busy : Bool) (byte : ℕ) (cs : List (Site ChipView)) (ds : List (Site TargetState))
        → PutOnSites b r busy byte cs ds }
{}

/// A byte that is read is to the sites what it is to the world, and they stay the world's.
pub fn a_get_on_the_sites_is_one_in_the_world()
    ensures { (b : BoardView) (r : ℕ) (busy ack : Bool) (cs : List (Site ChipView)) (ds : List (Site TargetState))
        → GetOnSites b r busy ack cs ds }
{
    chips_are_fair();
    states_are_fair();
}

/// A start is to the sites what it is to the world, with its answer, where they are the world's, and they stay so.
pub fn a_start_on_the_sites_is_one_in_the_world()
    ensures { (b : BoardView) (r : ℕ) (busy : Bool) (byte : ℕ) (cs : List (Site ChipView)) (ds : List (Site TargetState))
        → byte / 2 < NO_ADDRESS → AreSites b r cs ds → StartOnSites b r busy byte cs ds }
{
    chips_are_fair();
    states_are_fair();
}

/// A stop is to the sites what it is to the world, and who is joined after it is again what the world says.
pub fn a_stop_on_the_sites_is_one_in_the_world()
    ensures { (b : BoardView) (r : ℕ) (busy : Bool) (cs : List (Site ChipView)) (ds : List (Site TargetState))
        → AreSites b r cs ds → StopOnSites b r busy cs ds }
{}

/// The line of a mux that is set while nobody is in a message is to the sites what it is to the world.
pub fn a_line_on_the_sites_is_one_in_the_world()
    ensures { (b : BoardView) (r m level : ℕ) (cs : List (Site ChipView)) (ds : List (Site TargetState))
        → AreSites b r cs ds → (world_by b r false cs ds).hearing ≡ [] → LineOnSites b r m level cs ds }
{}
