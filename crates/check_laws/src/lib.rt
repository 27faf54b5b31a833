//! The laws that a checker of journals rests on: which calls of the ports a journal tells to have failed, and that no legal journal
//! begins otherwise than its callers step where these calls fail. None of them speaks of code. Each stands on a public function
//! with an empty body, whose contract is the law.
//!
//! Definitions: `specs/Failed.antt`, `specs/Wrong.antt`, and those of `bus_spec`.
#![tactic(auto)]

mod checks;

pub use checks::{
    the_failed_calls_are_told, the_roots_tell_each_call, where_a_step_differs_a_journal_is_wrong,
};
