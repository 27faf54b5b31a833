//! The lines of an input, taken one at a time.
ghost use Rattle.std.specs.Prelude.{◌≡◌, ◌≢◌, ◌+◌, ◌-◌, ◌^◌, ◌≤◌, true, Ok, Err, IfOk, IfSome};
ghost use Rattle.ports.specs.Causes.{Rose};
ghost use Rattle.i2c_session.specs.Inputs.{IsNext, lines_in};

use i2c_outside::ReadFail;
use std::io::{BufRead, ErrorKind};
use tools::cut_line;

/// The lines of an input. It counts its faults, and how many lines it may still give, which are 2^64 - 1 at first.
#[derive(Drop)]
pub struct LineInput<R: BufRead + Drop> {
    reader: R,
    left: u64,
    faults: u64,
}

impl<R: BufRead + Drop> LineInput<R> {
    /// The lines of what a reader gives.
    pub fn new(reader: R) -> Self
        ensures { result ≡ record { reader = reader; left = 2 ^ 64 - 1; faults = 0 } }
    {
        LineInput {
            reader,
            left: u64::MAX,
            faults: 0,
        }
    }

    /// How many faults were counted.
    pub fn faults(&self) -> u64
        ensures { result ≡ self.now.faults }
    {
        self.faults
    }

    /// Puts the next line, without its end, in place of the one that is there; false where there is none. It fails where the
    /// reader does, and behind 2^64 - 1 lines.
    pub fn next_line(&mut self, line: &mut Vec<u8>) -> Result<bool, ReadFail>
        ensures line { IfSome (lines_in (R.remaining self.old.reader)) (λ lines. IfOk result (λ there. IsNext there line.new.items lines (lines_in (R.remaining self.new.reader)))) }
        ensures one { result ≡ Ok true → self.old.left ≡ self.new.left + 1 }
        ensures none { result ≢ Ok true → self.new.left ≡ self.old.left }
        ensures cause { result ≡ Err ReadFail.Failed → Rose self.old.faults self.new.faults }
        ensures later { self.old.faults ≤ self.new.faults }
    {
        line.clear();
        if self.left == 0 {
            return Err(self.failed());
        }
        match self.reader.read_until(b'\n', line) {
            Ok(0) => Ok(false),
            Ok(_) => {
                let (len, _) = cut_line(line.as_slice());
                line.truncate(len);
                self.left -= 1;
                Ok(true)
            }
            Err(error) if matches!(error.kind(), ErrorKind::OutOfMemory) => Err(ReadFail::Memory),
            Err(_) => Err(self.failed()),
        }
    }

    // Counts a fault.
    fn failed(&mut self) -> ReadFail
        ensures fail { result ≡ ReadFail.Failed }
        ensures rose { Rose self.old.faults self.new.faults }
        ensures left { self.new.left ≡ self.old.left }
        ensures later { self.old.faults ≤ self.new.faults }
    {
        self.faults = self.faults.saturating_add(1);
        ReadFail::Failed
    }
}
