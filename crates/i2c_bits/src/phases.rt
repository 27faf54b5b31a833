//! What a port has come to since its last stop.
ghost use Rattle.std.specs.Prelude.{◌≡◌};
ghost use Rattle.i2c_base.specs.Phases as spec;
ghost use Rattle.i2c_bits.specs.PortViews as view;

use i2c_base::{Answer, Phase};

/// A message is in progress.
pub fn is_busy(phase: &Phase) -> bool
    ensures { result ≡ view.is_busy phase.now }
{
    !matches!(phase, Phase::Idle)
}

/// The last start was too slow.
pub fn is_late(phase: &Phase) -> bool
    ensures { result ≡ view.is_late phase.now }
{
    matches!(phase, Phase::Slow)
}

/// What it has come to by the answer of a start.
pub fn started(reading: bool, answer: &Answer) -> Phase
    ensures { result ≡ spec.phase_started reading answer.now }
{
    match answer {
        Answer::Ack if reading => Phase::Reading,
        Answer::Ack => Phase::Writing,
        Answer::Slow => Phase::Slow,
        Answer::Nack | Answer::Byte(_) | Answer::Nothing => Phase::Unanswered,
    }
}
