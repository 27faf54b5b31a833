//! A sink over the standard output.
ghost use Rattle.std.specs.Prelude.{◌≡◌, [], false};

use crate::Sink;
use ports::Failed;

/// The standard output, or whatever else prints. A write that takes nothing is a fault.
#[derive(Drop)]
pub struct StdoutSink<'r, R: Print> {
    out: &'r R,
    faults: u64,
}

impl<'r, R: Print> StdoutSink<'r, R> {
    /// A sink that writes to `out`.
    pub fn new(out: &'r R) -> Self
        ensures { result.faults ≡ 0 }
    {
        StdoutSink { out, faults: 0 }
    }

    /// How many faults were counted.
    pub fn faults(&self) -> u64
        ensures { result ≡ self.now.faults }
    {
        self.faults
    }
}

impl<'r, R: Print> Sink for StdoutSink<'r, R> {
    ghost tells = { false };

    ghost bytes = { λ s. [] };

    ghost faults = { λ s. s.faults };

    fn write(&mut self, piece: &[u8]) -> Result<usize, Failed> {
        match self.out.write_some(piece) {
            Ok(count) if count > 0 => Ok(count),
            _ => {
                self.faults = self.faults.saturating_add(1);
                Err(Failed)
            }
        }
    }
}
