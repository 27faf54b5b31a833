//! The laws of the flat world: of every journal whose entries might each come where they did the replies and the devices
//! are those of the flat world, so that it is legal; and it is complete once its callers are through. None of them speaks
//! of code. Each stands on a public function with an empty body, whose contract is the law.
//!
//! Definitions: `specs/`, and those of `i2c_spec`, `bus_spec` and `bus_laws`. The inductions stand in `proofs/` by subject;
//! those that other crates cite are passed on by `proofs/Laws.antt`.
#![tactic(auto)]

mod devices;
mod ends;
mod journals;

pub use devices::{
    a_transfer_grows_by_one_message, a_transfer_is_of_its_root_alone,
    the_messages_that_were_sent_are_the_transfer,
};
pub use ends::{
    a_caller_that_holds_nothing_has_no_walk, a_caller_with_no_walk_holds_nothing,
    a_finished_journal_is_complete,
};
pub use journals::{
    a_journal_is_legal, a_journal_that_rests_leaves_the_devices_of_its_history,
    a_legal_journal_keeps_the_rules, each_caller_walks_its_transfers,
    each_reply_is_that_of_the_flat_world, the_devices_are_those_of_the_history,
};
