//! How a call ends: it writes the text of a success, or the line of a refusal.
ghost use Rattle.std.specs.Prelude.{◌≡◌, map, string_bytes, IfOk, IfErr};
ghost use Rattle.i2c_top.specs.Endings.{IsWritten, IsRefusalWritten, name_in};
ghost use Rattle.i2c_top.specs.Traces.{output_view};
ghost use Rattle.i2c_top.specs.declared.status.Status.TheVariants as status;

use crate::Status;
use crate::refusal::refusal_line;
use crate::text::ReportText;
use crate::words::name_in;
use crate::write::{write_all, write_pieces};
use i2c_base::NoMemory;
use i2c_outside::Sink;
use std::alloc::Global;

/// Writes the text that is due for a status, and answers the status; `Write` where the output failed. It takes no memory.
pub fn write_due<K: Sink>(due: Status, text: &[u8], sink: &mut K) -> Status
    ensures { IsWritten (output_view K.Sink sink.old) (output_view K.Sink sink.new) due text.now result }
{
    if write_all(sink, text) {
        due
    } else {
        Status::Write
    }
}

// Writes the text of a success, and answers `Ok`; `Write` where the output failed.
fn write_success<K: Sink>(text: &ReportText, sink: &mut K) -> Status
    ensures { IsWritten (output_view K.Sink sink.old) (output_view K.Sink sink.new) status.Ok text.now result }
{
    if write_pieces(sink, text) {
        Status::Ok
    } else {
        Status::Write
    }
}

// Writes the line of a refusal, and answers it; `Write` where the output failed, `Memory` where there was no memory
// for the line.
fn write_refusal<K: Sink>(alloc: Global, refusal: Status, name: &[u8], sink: &mut K) -> Status
    ensures { IsRefusalWritten (output_view K.Sink sink.old) (output_view K.Sink sink.new) refusal name.now result }
{
    match refusal {
        Status::Memory => Status::Memory,
        _ => match refusal_line(alloc, &refusal, name) {
            Ok(text) => write_due(refusal, text.as_slice(), sink),
            Err(NoMemory) => Status::Memory,
        },
    }
}

/// Writes what came of a call with these words: the text of a success, or the line of a refusal.
pub fn write_outcome<K: Sink>(
    alloc: Global,
    words: &[String],
    outcome: Result<ReportText, Status>,
    sink: &mut K,
) -> Status
    ensures done { IfOk outcome (λ text. IsWritten (output_view K.Sink sink.old) (output_view K.Sink sink.new) status.Ok text result) }
    ensures refused { IfErr outcome (λ e. IsRefusalWritten (output_view K.Sink sink.old) (output_view K.Sink sink.new) e (name_in (map string_bytes words.now) e) result) }
{
    match outcome {
        Ok(text) => write_success(&text, sink),
        Err(refusal) => write_refusal(alloc, refusal, name_in(words, &refusal), sink),
    }
}
