//! The laws of whole runs: a replay is a function of its files and of which calls of its ports fail, a run is a replay of its own
//! steps, what either reports is verified and tells its journal, each keeps the rules of the bus, generated scripts are read whole, a
//! run behind address translators is of the board as it is written, and a session answers as a replay does. No code rests on it. It stands on public functions with an empty
//! body, whose contracts are the law.
//!
//! Definitions: `specs/Alike.antt`, `specs/Sessions.antt`, and those of `i2c_top`.
#![tactic(auto)]

mod generated;
mod rules;
mod runs;
mod sessions;

pub use generated::generated_scripts_are_read_whole;
pub use rules::{
    a_report_tells_its_run, a_run_keeps_the_rules_of_the_bus,
    a_run_where_no_port_counts_has_no_failed_entry, scripts_ask_for_messages,
};
pub use runs::{
    a_replay_has_one_report, a_replay_over_ports_that_never_fail_is_a_function_of_its_files,
    a_run_behind_translators_changes_no_other_device,
    a_run_behind_translators_is_one_of_the_board_as_written,
    a_run_in_which_listed_calls_fail_is_a_function_of_its_files,
    a_run_is_a_replay_of_its_own_steps, what_a_run_reports_is_verified,
};
pub use sessions::a_session_answers_as_a_replay;
