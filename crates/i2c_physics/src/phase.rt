//! What a port has come to by each call.
ghost use Rattle.std.specs.Prelude.{◌≡◌};
ghost use Rattle.i2c_base.specs.Phases as spec;

use i2c_base::{Answer, Phase};

/// What the port has come to by the answer of a start.
pub fn started(reading: bool, answer: &Answer) -> Phase
    ensures { result ≡ spec.phase_started reading answer.now }
{
    match answer {
        Answer::Ack if reading => Phase::Reading,
        Answer::Ack => Phase::Writing,
        Answer::Slow => Phase::Slow,
        Answer::Nack | Answer::Byte(_) | Answer::Nothing => Phase::Unanswered,
    }
}

/// What it has come to by whether a byte that was sent is acknowledged.
pub fn put(acked: bool) -> Phase
    ensures { result ≡ spec.phase_put acked }
{
    if acked {
        Phase::Writing
    } else {
        Phase::PutRefused
    }
}

/// What it has come to by whether it acknowledged a byte that was read.
pub fn got(ack: bool) -> Phase
    ensures { result ≡ spec.phase_got ack }
{
    if ack { Phase::Reading } else { Phase::LastRead }
}
