//! The text that a program of cases prints, put together piece by piece.
use std::alloc::Global;
use std::fmt::Debug;
use std::io;

/// Text that is written piece by piece, and then printed. It fails where a piece finds no memory, or where what it
/// requires is not so.
#[derive(Drop)]
pub struct Page {
    text: String,
    has_failed: bool,
}

impl Page {
    pub fn new(alloc: Global) -> Self {
        Page {
            text: String::new(alloc),
            has_failed: false,
        }
    }

    /// Fails where this is not so.
    pub fn require(&mut self, is_so: bool) {
        if !is_so {
            self.has_failed = true;
        }
    }

    pub fn put(&mut self, piece: &str) {
        let is_put = self.text.push_str(piece).is_ok();
        self.require(is_put);
    }

    /// A piece, and after it a number in decimal digits.
    pub fn put_number(&mut self, piece: &str, number: u64) {
        let is_put = write!(self.text, "{piece}{number}").is_ok();
        self.require(is_put);
    }

    /// A byte in two hexadecimal digits.
    pub fn put_byte(&mut self, byte: u8) {
        let is_put = write!(self.text, "{byte:02x}").is_ok();
        self.require(is_put);
    }

    /// A value as `{:?}` shows it.
    pub fn put_debug<D: Debug>(&mut self, value: &D) {
        let is_put = write!(self.text, "{value:?}").is_ok();
        self.require(is_put);
    }

    /// A piece, and after it the end of its line.
    pub fn put_line(&mut self, piece: &str) {
        self.put(piece);
        self.put("\n");
    }

    /// Prints what was put, and is empty again.
    pub fn print(&mut self, rt: &impl Print) -> io::Result<()> {
        if self.has_failed {
            return Err(io::Error::other("a line could not be done"));
        }
        rt.write_all(self.text.as_str().as_bytes())?;
        self.text.clear();
        Ok(())
    }
}
