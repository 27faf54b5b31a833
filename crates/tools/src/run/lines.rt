//! Lines that are known before anything is asked for.

ghost use Rattle.std.specs.Prelude.{◌≡◌, ◌≤◌, ◌+◌, [], ◌∷◌, ◌++◌, length, OnOk};
ghost use Rattle.std.specs.List.{flat_map};
ghost use Rattle.bus_journal.specs.Reports.{IsLine, line_ended};

use crate::text::Text;
use i2c_base::NoMemory;
use std::alloc::Global;
use std::marker::Model;

/// Lines, one after the other. A contract sees the list of them.
#[derive(Drop)]
pub struct KnownLines {
    text: Text,
}

impl Model for KnownLines {
    ghost use Rattle.std.specs.Prelude.{◌≡◌, ℕ, List};
    ghost use Rattle.std.specs.List.{flat_map};
    ghost use Rattle.bus_journal.specs.Reports.{line_ended};
    ghost use Rattle.tools.specs.Says.{whole_lines};

    ghost Value = { List (List ℕ) };

    ghost view = { λ l. whole_lines l.text.bytes };

    ghost invariant = { λ l. flat_map line_ended (whole_lines l.text.bytes) ≡ l.text.bytes };
}

impl KnownLines {
    /// None yet.
    pub fn new(alloc: Global) -> Self
        ensures { result ≡ [] }
    {
        KnownLines {
            text: Text::new(alloc),
        }
    }

    /// Puts a line at the end.
    #[tactic(auto, using(crate::proofs::SaysLemmas::lines_more, crate::proofs::SaysLemmas::whole_more))]
    pub fn push(&mut self, line: &[u8]) -> Result<(), NoMemory>
        requires { IsLine line.now }
        ensures { OnOk result (self.new ≡ self.old ++ line.now ∷ []) }
    {
        self.text.reserve(line.len() + 1)?;
        self.text.push(line);
        self.text.push_byte(b'\n');
        Ok(())
    }

    /// How many bytes they have with their ends.
    pub fn size(&self) -> usize
        ensures { result ≡ length (flat_map line_ended self.now) }
    {
        self.text.as_slice().len()
    }

    /// Prints them.
    pub fn print(&self, out: &mut Text)
        requires { length (flat_map line_ended self.now) ≤ out.old.room }
        ensures bytes { out.new.bytes ≡ out.old.bytes ++ flat_map line_ended self.now }
        ensures room { out.old.room ≤ out.new.room + length (flat_map line_ended self.now) }
    {
        out.push(self.text.as_slice());
    }
}
