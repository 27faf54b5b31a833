//! A checker of journals: whether a text that says it is the report of a run is that of a legal and complete journal.
#![tactic(auto)]

mod check;
mod entries;
mod fault;
mod form;
mod front;
mod gaps;
mod laws;
mod open;
mod report;
mod sections;
mod steps;
mod told_port;

pub use check::follow_journal;
pub use entries::check_entries;
pub use fault::CheckFault;
pub use form::{FormFault, LineAt, behind_heading, read_entries};
pub use gaps::{RootGaps, no_gaps};
pub use laws::a_report_has_one_answer;
pub use open::first_open;
pub use report::{ReportParts, read_report};
pub use sections::{LinesLeft, goes_on, line_too_many, section_goes_on};
pub use steps::{JournalPlace, follow_told};
pub use told_port::{FailsAsTold, Telling, ToldPort, told_ports};
