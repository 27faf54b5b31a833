//! What a journal of the bus means: the walk of a transfer, what a journal tells at each place, the rules that
//! make it legal, and its report.
//!
//! The definitions stand in `specs/`, a file for each subject. A journal's past is read newest entry first.
#![tactic(auto)]

mod rows;

pub use rows::{
    a_failed_close_fails_its_transfer, a_failed_deselect_is_mended_by_a_close,
    a_failed_select_forgets_the_channel, a_failed_way_marks_both_muxes,
    a_failed_way_of_a_deselect_keeps_the_reply, a_gpio_mux_is_switched_by_its_line,
    a_held_arbitrator_is_given_up_after_eight_polls, a_kept_channel_is_not_selected_again,
    a_lock_belongs_to_the_caller_of_its_last_take, a_mux_keeps_the_channel_of_its_last_select,
    a_mux_locked_journal_settles_as_the_flat_world, a_mux_locked_read_lets_another_in,
    a_parent_locked_read_lets_nobody_in, a_read_takes_the_wires_once,
    an_absent_inner_mux_settles_at_its_select, an_arbitrator_is_found_free_at_the_eighth_poll,
    an_effect_before_a_failure_stays, one_failing_call_fails_at_most_its_transfer,
    two_muxes_keep_their_channels,
};
