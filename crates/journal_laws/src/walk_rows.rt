//! Worked examples of the walk rule, computed by the checker itself.
ghost use Rattle.std.specs.Prelude.{[], ◌∷◌};
ghost use Rattle.bus_spec.specs.Rows as row;
ghost use Rattle.bus_spec.specs.WalkRule.{IsWalk};
ghost use Rattle.journal_laws.specs.WalkRows as walk;

/// Lists of steps that are walks: of each part of the rule, and of what a failure leaves out.
pub fn these_are_walks()
    ensures whole { IsWalk row.parent_locked walk.deep walk.whole_walk }
    ensures parts { IsWalk row.mux_locked walk.deep walk.parts_walk }
    ensures closed { IsWalk row.parent_locked walk.deep walk.closed_walk }
    ensures unclosed { IsWalk row.parent_locked walk.deep walk.unclosed_walk }
    ensures unselected { IsWalk row.parent_locked walk.deep walk.unselected_walk }
    ensures deselected { IsWalk row.parent_locked walk.deep walk.deselected_walk }
    ensures refused { IsWalk row.parent_locked walk.nowhere walk.refused_walk }
{}

/// Lists of steps that break one part of the rule: the locks, the close, the select, the job, the deselect, the settle.
///
/// A chain behind a mux-locked mux that is held as one behind a parent-locked mux is the walk of another board.
pub fn these_are_no_walks()
    ensures root_first { IsWalk row.parent_locked walk.deep walk.root_first → ⊥ }
    ensures unlocked_between { IsWalk row.parent_locked walk.deep walk.unlocked_between → ⊥ }
    ensures freed_in_order { IsWalk row.parent_locked walk.deep walk.freed_in_order → ⊥ }
    ensures held_as_parent_locked { IsWalk row.mux_locked walk.deep walk.whole_walk → ⊥ }
    ensures close_left_out { IsWalk row.parent_locked walk.deep walk.close_left_out → ⊥ }
    ensures over_a_failed_close { IsWalk row.parent_locked walk.deep walk.over_a_failed_close → ⊥ }
    ensures deselect_of_none { IsWalk row.parent_locked walk.deep walk.deselect_of_none → ⊥ }
    ensures deselect_left_out { IsWalk row.parent_locked walk.deep walk.deselect_left_out → ⊥ }
    ensures over_a_nack { IsWalk row.parent_locked walk.deep walk.over_a_nack → ⊥ }
    ensures settle_moved { IsWalk row.parent_locked walk.deep walk.settle_moved → ⊥ }
    ensures refused { IsWalk row.parent_locked walk.nowhere walk.whole_walk → ⊥ }
{}

/// An arbitrator is asked before it is switched, eight times at most, and a gpio mux is switched by its line.
pub fn an_arbitrator_is_asked_and_a_line_is_shifted()
    ensures polled { IsWalk (row.arbitrator 7) walk.behind_arbitrator walk.polled_walk }
    ensures given_up { IsWalk (row.arbitrator 8) walk.behind_arbitrator walk.given_up_walk }
    ensures switched_while_taken { IsWalk (row.arbitrator 7) walk.behind_arbitrator walk.switched_while_taken → ⊥ }
    ensures shifted { IsWalk row.gpio walk.behind_gpio walk.line_walk }
    ensures over_a_failed_line { IsWalk row.gpio walk.behind_gpio walk.over_a_failed_line → ⊥ }
{}

/// A failure by the port marks the mux of each select and close that it is for, up to the nearest deselect, and the mux of that
/// deselect; none beyond: three walks behind two muxes, and one that marks a mux beyond, which is none.
pub fn a_failure_marks_its_way()
    ensures both { IsWalk row.chain walk.behind_both walk.marks_both }
    ensures to_the_deselect { IsWalk row.chain walk.behind_both walk.marks_to_the_deselect }
    ensures none_beyond { IsWalk row.chain walk.behind_both (walk.marks_none_beyond_by (walk.near_mark ∷ [])) }
    ensures not_beyond { IsWalk row.chain walk.behind_both (walk.marks_none_beyond_by (walk.near_mark ∷ walk.far_mark ∷ [])) → ⊥ }
{}
