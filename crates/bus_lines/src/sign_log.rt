//! What the lines have shown, without an upper bound: only contracts read it.
ghost use Rattle.std.specs.Prelude.{◌≡◌, [], ◌∷◌};

use std::snapshot::Snapshot;

/// What was seen on the lines: each rise of SCL with the level of SDA, or those of a byte with its acknowledge at once, and each
/// start and stop, after all that was before. It keeps nothing of that, so that it takes no more memory the longer it goes on. A
/// contract sees all of it.
#[derive(Drop)]
pub enum SignLog {
    Nothing,
    Rise(Snapshot<SignLog>, Snapshot<bool>),
    Byte(Snapshot<SignLog>, Snapshot<u8>, Snapshot<bool>),
    Start(Snapshot<SignLog>),
    Stop(Snapshot<SignLog>),
}

impl SignLog {
    ghost use Rattle.wire_spec.specs.Bus.{Level, Started, Stopped};
    ghost use Rattle.wire_spec.specs.Calls.{byte_seen};
    ghost use Rattle.bus_lines.specs.Shown.{shown_by};

    /// Nothing was seen.
    pub fn none() -> Self
        ensures { shown_by result ≡ [] }
    {
        SignLog::Nothing
    }

    /// SCL has risen, with SDA at this level: true is high.
    pub fn add_rise(&mut self, level: bool)
        ensures { shown_by self.new ≡ Level level ∷ shown_by self.old }
    {
        *self = SignLog::Rise(Snapshot::of(self), Snapshot::of(&level));
    }

    /// A byte has gone over the lines, with its acknowledge or without one.
    pub fn add_byte(&mut self, byte: u8, acked: bool)
        ensures { shown_by self.new ≡ byte_seen byte acked (shown_by self.old) }
    {
        *self = SignLog::Byte(
            Snapshot::of(self),
            Snapshot::of(&byte),
            Snapshot::of(&acked),
        );
    }

    /// There was a start.
    pub fn add_start(&mut self)
        ensures { shown_by self.new ≡ Started ∷ shown_by self.old }
    {
        *self = SignLog::Start(Snapshot::of(self));
    }

    /// There was a stop.
    pub fn add_stop(&mut self)
        ensures { shown_by self.new ≡ Stopped ∷ shown_by self.old }
    {
        *self = SignLog::Stop(Snapshot::of(self));
    }
}
