//! `lab`: what the laboratory's program does with the words of its command line.
ghost use Rattle.std.specs.Prelude.{◌≡◌, true, Some, length, map, string_bytes, IsTrue};
ghost use Rattle.i2c_top.specs.Endings.{IsWritten};
ghost use Rattle.i2c_top.specs.Traces.{outside, output_view, rig_view};
ghost use Rattle.i2c_top.specs.forms.Extras.{ExtraNames};
ghost use Rattle.i2c_top.specs.declared.status.Status.TheVariants as status;
ghost use Rattle.i2c_physics.specs.FailPorts.{logs_given, counts_given};
ghost use Rattle.i2c_physics.specs.SimRigs.{kept_states, none_of};
ghost use Rattle.i2c_lab.specs.Faults.{HasFailedAsListed, HasFaulted};
ghost use Rattle.i2c_session.specs.Inputs.{lines_in};
ghost use Rattle.i2c_lab.specs.Lab.{Faults, HasEnded, Waves, request_in, usage_text};
ghost use Rattle.i2c_lab.specs.Waves.{HasDumped};

use crate::faults::{faults_call, is_faults};
use crate::session::{is_session, session_call};
use crate::waves::{is_waves, waves_call};
use bus_waves::Recorded;
use i2c_outside::{Rig, Shelf, Sink};
use i2c_physics::{BitRig, FailRig};
use i2c_session::LineInput;
use i2c_top::{Status, write_due};
use std::alloc::Global;
use std::io::BufRead;

const USAGE: &[u8] =
    b"usage: i2clab faults BOARD FAULTS SCHEDULE SCRIPT... | waves BOARD ROOT SCHEDULE SCRIPT... | session BOARD\n";

// Writes the line on usage.
fn turn_down<K: Sink>(sink: &mut K) -> Status
    ensures { IsWritten (output_view K.Sink sink.old) (output_view K.Sink sink.new) status.Usage usage_text result }
{
    write_due(Status::Usage, USAGE, sink)
}

/// Does what the laboratory's program does: `words` are the command line without the program's name, and the shelf's words.
///
/// `Usage` is told exactly where the words are in no form that is in force; then nothing is read or plugged. The other statuses are
/// those of the form's call. It returns on every input that ends.
pub fn lab<S: Shelf, R: BufRead + Drop, K: Sink>(
    alloc: Global,
    words: &[String],
    shelf: &mut S,
    input: &mut LineInput<R>,
    sink: &mut K,
    rig: &mut FailRig,
    wires: &mut BitRig<Recorded>,
) -> Status
    requires { S.words shelf.old ≡ map string_bytes words.now }

    // By the form of the words: the cause of each status and each status of a cause, what was written, and what is kept.
    ensures ended { HasEnded (request_in (map string_bytes words.now))
        (outside S.Shelf K.Sink ⟦<FailRig as Rig>⟧ true shelf.old sink.old rig.old)
        (outside S.Shelf K.Sink ⟦<FailRig as Rig>⟧ true shelf.new sink.new rig.new)
        (rig_view ⟦<BitRig<Recorded> as Rig>⟧ true wires.old) (rig_view ⟦<BitRig<Recorded> as Rig>⟧ true wires.new)
        (record { lines = lines_in (R.remaining input.old.reader); faults = input.old.faults })
        (record { lines = lines_in (R.remaining input.new.reader); faults = input.new.faults }) result }

    // What a success of `waves` wrote: the levels of a root over a run that is legal, complete and followed by the flat world.
    ensures waves { IsTrue S.tells → IsTrue K.tells
        → (names : ExtraNames) → request_in (map string_bytes words.now) ≡ Some (Waves names) → result ≡ status.Ok
        → HasDumped (S.file shelf.old) names (K.bytes sink.old) (K.bytes sink.new)
        wires.new.logs (kept_states wires.new.sim.kept) (none_of (length wires.new.logs)) }

    // What a success of `faults` wrote: the report of a run that is legal, complete and followed by the flat world; and that a call on a port
    // failed just where the list names it.
    ensures success { IsTrue S.tells → IsTrue K.tells
        → (names : ExtraNames) → request_in (map string_bytes words.now) ≡ Some (Faults names) → result ≡ status.Ok
        → HasFaulted (S.file shelf.old) names (K.bytes sink.old) (K.bytes sink.new)
        (logs_given rig.new.given) (kept_states rig.new.sim.kept) (counts_given rig.new.given) }
    ensures failed { IsTrue S.tells
        → (names : ExtraNames) → request_in (map string_bytes words.now) ≡ Some (Faults names) → result ≡ status.Ok
        → HasFailedAsListed (S.file shelf.old) names (logs_given rig.new.given) }
{
    if is_faults(words) {
        faults_call(alloc, words, shelf, sink, rig)
    } else if is_waves(words) {
        waves_call(alloc, words, shelf, sink, wires)
    } else if is_session(words) {
        session_call(alloc, words, shelf, input, sink)
    } else {
        turn_down(sink)
    }
}
