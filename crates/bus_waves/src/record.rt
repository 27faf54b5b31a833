//! The record of the levels.
ghost use Rattle.std.specs.Prelude.{◌≡◌, ◌++◌, ◌∷◌, [], true};
ghost use Rattle.bus_waves.specs.Levels.{code_of, levels, sign};
ghost use Rattle.bus_waves.specs.Recordings.{free_behind};

use std::alloc::Global;

/// The levels behind each step, a byte a step: 1 where SCL is high, and 2 where SDA is. Where there is no memory for a step no further
/// one is kept, and the record is not whole.
#[derive(Drop)]
pub struct Record {
    /// The levels behind the last step, and whether all targets are out of a message.
    pub scl: bool,
    pub sda: bool,
    pub free: bool,
    pub whole: bool,
    pub steps: Vec<u8>,
}

/// The levels as a number.
fn code(scl: bool, sda: bool) -> u8
    ensures { result ≡ code_of (levels scl sda) }
{
    u8::from(scl) + 2 * u8::from(sda)
}

/// Whether all targets are out of a message behind a step, by the levels before and behind it: they are so behind a stop, until a
/// start.
fn is_free(free: bool, scl_was: bool, sda_was: bool, scl: bool, sda: bool) -> bool
    ensures { result ≡ free_behind free (sign (levels scl_was sda_was) (levels scl sda)) }
{
    match (scl_was, scl, sda_was, sda) {
        (true, true, true, false) => false,
        (true, true, false, true) => true,
        _ => free,
    }
}

impl Record {
    /// No step was made: both lines are high, and all targets are out of a message.
    pub fn open(alloc: Global) -> Self
        ensures scl { result.scl ≡ true }
        ensures sda { result.sda ≡ true }
        ensures steps { result.steps.items ≡ [] }
    {
        Record {
            scl: true,
            sda: true,
            free: true,
            whole: true,
            steps: Vec::new(alloc),
        }
    }

    /// A step was made, and the lines have these levels behind it.
    #[inline(always)]
    pub fn keep(&mut self, scl: bool, sda: bool)
        ensures scl { self.new.scl ≡ scl }
        ensures sda { self.new.sda ≡ sda }
        ensures free { self.new.free ≡ free_behind self.old.free (sign (levels self.old.scl self.old.sda) (levels scl sda)) }
        ensures steps { self.new.whole ≡ true
            → (self.old.whole ≡ true) × (self.new.steps.items ≡ self.old.steps.items ++ code_of (levels scl sda) ∷ []) }
    {
        self.free = is_free(self.free, self.scl, self.sda, scl, sda);
        self.scl = scl;
        self.sda = sda;
        if self.whole && self.steps.push(code(scl, sda)).is_err() {
            self.whole = false;
        }
    }

    /// Whether the lines are free, so that the line of a mux may be set and shows nothing; where they aren't it is not whole any more.
    pub fn rests(&mut self)
        ensures kept { self.new ≡ record self.old { whole = self.new.whole } }
        ensures whole { self.new.whole ≡ true
            → (self.old.whole ≡ true) × (self.old.free ≡ true) × (self.old.scl ≡ true) × (self.old.sda ≡ true) }
    {
        self.whole = self.whole && self.free && self.scl && self.sda;
    }
}
