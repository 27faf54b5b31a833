//! The laws of the bus: what every walk keeps, whatever its steps give, and what every past keeps whose entries might
//! each come where they did. None of them speaks of code. Each stands on a public function with an empty body, whose
//! contract is the law.
//!
//! Definitions: `specs/`, and those of `i2c_spec` and `bus_spec`. The inductions stand in `proofs/` by subject; those that
//! other crates cite are passed on by `proofs/Laws.antt`.
#![tactic(auto)]

mod devices;
mod following;
mod journals;
mod next;
mod others;
mod targets;
mod waiting;
mod walks;

pub use devices::{
    a_control_message_leaves_the_devices, a_kept_channel_takes_no_device,
    a_message_is_heard_the_same, a_message_leaves_other_devices, a_transfer_ends_in_a_stop,
    an_address_leads_to_the_granted_device, both_worlds_open_the_same,
};
pub use following::{a_loop_follows, one_step_more};
pub use journals::{
    each_journal_keeps_its_locks, each_mark_is_on_a_bus_of_the_board,
    each_message_finds_its_path_open, each_mux_keeps_its_channel_or_is_marked,
    each_settle_stands_where_it_is_decided, no_message_stands_inside_a_transfer,
};
pub use next::{
    the_next_control_message_reaches_its_mux, the_next_line_is_of_a_gpio_mux,
    the_next_lock_has_a_lower_rank, the_next_message_reaches_its_target,
};
pub use others::{
    an_entry_leaves_the_other_callers, the_next_step_stays, who_asks_for_nothing_never_steps,
};
pub use targets::each_message_reaches_its_target;
pub use waiting::{not_all_wait, who_is_stuck_waits};
pub use walks::{
    each_walk_holds_its_locks, each_walk_keeps_its_path_open, each_walk_keeps_to_its_cost,
    each_walk_settles_once, each_walk_stays_on_its_root,
};
