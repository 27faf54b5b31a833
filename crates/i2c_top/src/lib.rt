//! The top of the program: the words of the command line to the bytes of the output.
//!
//! `top` reads the words, and does what they ask for in one of the forms. `replay_call` reads the board, the scripts and the
//! schedule, runs the scripts over a rig's ports, and writes the report; `run_call` does so without a schedule, each script on
//! a thread of its own; `atr_call` reads a map too, and runs them behind its address translators; `check_call` reads the board and
//! writes what it has. Each writes the line of the first refusal. A `Status` tells how the call ended. What is written is made whole
//! before its first byte is.
//!
//! Their contract: each status has its cause, in the order of refusals, and each cause its status; what was written and
//! what was done to the rig are told for each. A form is a row of facts, and the contract is one for all rows. Definitions:
//! `specs/Form.antt` (what a row is), `specs/forms.antt` (the forms and their words), `specs/forms` (a file for each: the causes
//! of its statuses and its answer), `specs/Endings.antt` (how a call of any form ends: the text that is due, and what came of
//! its writing), `specs/Boards.antt` (why a board is refused), `specs/Scripts.antt` and `specs/Schedules.antt` (scripts and the
//! words of a schedule), `specs/MapFiles.antt` (the file of a map), `specs/Traces.antt` (what is done to the rig),
//! `specs/Callers.antt` (a run of callers of any type), `specs/Runs.antt` (a run of scripts, its cost and its report),
//! `specs/Faults.antt` (what the ports counted of their failed calls).
#![tactic(auto)]

mod callers;
mod check_journal;
mod cost;
mod counted_port;
mod ending;
pub mod extra;
mod extra_file;
mod files;
pub mod forms;
mod map_file;
mod names;
mod number;
mod printer;
mod program;
mod refusal;
mod report;
mod run;
mod schedule;
mod status;
mod summary;
mod text;
mod words;
mod write;

pub use ending::{write_due, write_outcome};
pub use files::read_accepted;
pub use number::number_named;
pub use program::top;
pub use report::report_text;
pub use run::{RunLeft, plugged, run_ports, run_scripts};
pub use schedule::{White, each_word_is_a_number};
pub use status::{BoardRefusal, Status};
pub use text::ReportText;
pub use words::{is_name, word_at};
pub use write::write_all;
