//! An output that takes nothing, under the program's own sink.
use case_parts::Page;
use i2c_outside::{Sink, StdoutSink};
use std::fmt::Display;
use std::io;

/// An output that takes nothing, and says so.
struct Mute;

impl Print for Mute {
    fn print<D: Display + Drop>(&self, _value: D) -> io::Result<()> {
        Ok(())
    }

    fn println<D: Display + Drop>(&self, _value: D) -> io::Result<()> {
        Ok(())
    }

    fn write_all(&self, _bytes: &[u8]) -> io::Result<()> {
        Ok(())
    }

    fn write_some(&self, _bytes: &[u8]) -> io::Result<usize> {
        Ok(0)
    }
}

/// What the program's own output answers where what is behind it takes nothing, and the faults that it counts.
pub fn put_mute(page: &mut Page) {
    let mut sink = StdoutSink::new(&Mute);
    page.put("a sink over an output that takes nothing: ");
    page.put(if sink.write(b"a line\n").is_ok() {
        "taken"
    } else {
        "fault"
    });
    page.put_number(", faults ", sink.faults());
    page.put("\n");
}
