//! The laws of journals that no code rests on: the walk rule as lists of steps; who can go on, and what callers spend; that
//! a schedule has one journal; that the rules over a whole journal are those of its steps; what a failing port call
//! changes; and journals that keep or break a rule. None of them speaks of code. Each stands on a public function with an
//! empty body, whose contract is the law.
//!
//! Definitions: `specs/`, and those of `i2c_spec`, `bus_spec`, `bus_laws` and `flat_laws`. The inductions stand in `proofs/`
//! by subject.
#![tactic(auto)]

mod costs;
mod faulty;
mod layers;
mod paths;
mod readings;
mod rows;
mod unique;
mod waiting;
mod walk_rows;
mod wrong;

pub use costs::{
    all_callers_stay_within_their_bounds, each_reply_fits_its_transfer, no_caller_exceeds_its_cost,
    no_transfer_exceeds_its_cost,
};
pub use faulty::{
    a_cut_is_of_a_step_on_the_way, a_mark_stays_until_its_mux_is_closed,
    each_fault_is_a_failed_entry, one_failure_fails_one_reply_at_most,
};
pub use layers::{
    a_caller_adds_what_may_come, a_legal_journal_is_stepwise, a_played_journal_is_legal,
    each_prefix_of_a_legal_journal_is_legal,
};
pub use paths::{
    a_job_stands_between_its_locks, a_journal_is_complete_by_its_entries_alone,
    a_journal_is_legal_by_its_entries_alone, a_journal_keeps_the_walk_rule,
    each_walk_keeps_the_walk_rule, what_each_entry_does_tells_where_all_stands,
};
pub use readings::{
    each_kept_channel_is_the_last_one_told, each_mark_is_the_last_one_made,
    each_message_goes_through_selected_muxes, each_message_is_the_one_in_flight,
    each_walk_is_what_its_entries_left, each_world_is_that_of_its_calls, settled_is_replies,
};
pub use rows::the_worked_journals_keep_every_rule;
pub use unique::{
    a_caller_alone_has_one_journal, a_schedule_has_one_journal, a_schedule_has_one_legal_journal,
};
pub use waiting::{each_caller_goes_on_or_is_stuck, some_caller_can_go_on, who_can_go_on_is_ready};
pub use walk_rows::{
    a_failure_marks_its_way, an_arbitrator_is_asked_and_a_line_is_shifted, these_are_no_walks,
    these_are_walks,
};
pub use wrong::{
    a_closed_channel_lets_nothing_through, a_failed_message_tells_its_part,
    a_failed_select_forgets_what_was_kept, a_forgotten_mark, a_line_tells_its_mux,
    a_lock_is_taken_by_one_caller, a_marked_mux_is_closed_first, a_message_tells_its_direction,
    a_message_tells_its_part, a_message_tells_its_target, a_mux_is_deselected,
    a_mux_locked_mux_frees_its_root, a_mux_that_stays_is_left_alone, a_schedule_is_not_ignored,
    a_select_is_a_transfer_of_its_own, a_settle_comes_at_once, another_channel_is_selected_first,
    another_message_stands_outside, locks_are_taken_towards_the_root, no_select_before_the_close,
    nobody_steps_before_a_settle, the_lock_is_held_through_a_transfer,
};
