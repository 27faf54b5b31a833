//! The trait of a sink, where the output goes.
ghost use Rattle.std.specs.Prelude.{◌≡◌, ℕ, ◌<◌, ◌≤◌, ◌++◌, Bool, List, IfOk, OnErr, IsTrue, length, take};
ghost use Rattle.ports.specs.Causes.{HasCause};

use ports::Failed;

/// Where the output goes.
pub trait Sink {
    /// It tells what was written.
    ghost tells: { Bool };

    ghost bytes: { Self → List ℕ };

    ghost faults: { Self → ℕ };

    /// Writes the front of a piece, and says how many bytes that is: at least one. A failure writes nothing.
    fn write(&mut self, piece: &[u8]) -> Result<usize, Failed>
        requires { 0 < length piece.now }
        ensures some { IfOk result (λ n. (0 < n) × (n ≤ length piece.now)) }
        ensures ok { IsTrue tells → IfOk result (λ n. bytes self.new ≡ bytes self.old ++ take n piece.now) }
        ensures err { IsTrue tells → OnErr result (bytes self.new ≡ bytes self.old) }
        ensures cause { HasCause (faults self.old) (faults self.new) result }
        ensures later { faults self.old ≤ faults self.new };
}
