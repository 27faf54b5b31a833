//! What a session answers is what a replay prints.
ghost use Rattle.run_laws.specs.Sessions.{SessionsAnswerAsReplays, SessionsAreScripts};

use crate::rules::a_run_where_no_port_counts_has_no_failed_entry;

/// The lines of a session that were not refused are a script that a replay takes, over any rig; and where none of its ports counts a
/// failed call, its report has, command by command, what the session answered, and the devices are left as the session left them.
///
/// A session does its transfers in the flat world, so this says of it what the headline says of a run: no mux and no lock shows in an
/// answer. Of a run in which a port call fails it says nothing.
pub fn a_session_answers_as_a_replay()
    ensures scripts { SessionsAreScripts }
    ensures reports { SessionsAnswerAsReplays }
{
    a_run_where_no_port_counts_has_no_failed_entry();
}
