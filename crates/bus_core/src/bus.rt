//! `BusCore`: callers and ports over a board, opened, stepped and taken apart.
ghost use Rattle.std.specs.Prelude.{◌≡◌, ℕ, true, IsTrue, [], All, None, IfOk, IfSome};
ghost use Rattle.i2c_base.specs.declared.ids.LockId.{LockId};
ghost use Rattle.bus_laws.specs.Following.{GoesOnBy};
ghost use Rattle.core_laws.specs.Opens.{AreFree};
ghost use Rattle.bus_core.specs.Answers.{HasAdded, WaitsFor, HasUsedUp, IsOverIn, IsLeast};
ghost use Rattle.bus_core.specs.Opens.{MayOpen, opening_of, uncalled, untaken};
ghost use Rattle.bus_core.specs.Places.{scripts_of};
ghost use Rattle.bus_core.specs.State.{AllThrough, CoreTold, has_caller, roots_in, worlds_of, logs_of, setups_of, taken_of};
ghost use Rattle.bus_core.specs.declared.steps.StepAnswer.TheVariants as answer;

use crate::opening::open;
use crate::parts::CoreInside;
use crate::readiness::ready;
use crate::running::{finish, follow};
use crate::seat::Seat;
use crate::steps::{StepAnswer, step};
use bus_journal::Journal;
use i2c_base::{Caller, NoMemory, SegId};
use i2c_board::Accepted;
use ports::Port;
use std::alloc::Global;
use std::marker::Model;

/// The core of a board's buses. A contract sees its state: what it was opened with, the replies that each caller was
/// handed, the journal, the lock words, and the worlds, logs and setups of its ports.
#[derive(Drop)]
pub struct BusCore<'b, P: Port, C: Caller> {
    parts: CoreInside<'b, P, C>,
}

impl<'b, P: Port, C: Caller> Model for BusCore<'b, P, C> {
    ghost use Rattle.bus_core.specs.Kept.{IsCore};
    ghost use Rattle.bus_core.specs.State.{CoreState, state_of};

    ghost Value = { CoreState C.Script };

    ghost view = { λ x. state_of P.Port C.Caller x.parts };

    ghost invariant = { λ x. IsCore P.Port C.Caller x.parts };
}

/// What is left of a core that was taken apart.
#[derive(Drop)]
pub struct ClosedCore<P, C> {
    /// The ports, each with its root, in the order in which the core was opened with them.
    pub ports: Vec<(SegId, P)>,
    /// The callers on their seats, each with its number, in that order.
    pub seats: Vec<Seat<C>>,
    pub journal: Journal,
}

impl<'b, P: Port, C: Caller> BusCore<'b, P, C> {
    /// Opens a core: a port for each root that the callers' transfers name, and callers with distinct numbers that have
    /// taken no reply, over a board that all of them were opened with. `limit` covers all steps that the callers may ask
    /// for; the journal has room for so many entries, and for twice as many bytes.
    ///
    /// Being out of memory drops the ports and the callers. From then on nothing takes memory.
    pub fn open(
        alloc: Global,
        board: &'b Accepted,
        ports: Vec<(SegId, P)>,
        callers: Vec<(u8, C)>,
        limit: u32,
    ) -> Result<Self, NoMemory>
        requires { MayOpen P.Port C.Caller board.now ports.items callers.items limit }
        ensures opening { IfOk result (λ core. core.opening ≡ opening_of P.Port C.Caller board.now ports.items callers.items) }
        ensures worlds { IfOk result (λ core. core.worlds ≡ worlds_of P.world ports.items) }
        ensures logs { IsTrue P.tells → IfOk result (λ core. core.logs ≡ uncalled ports.items) }
        ensures setups { IfOk result (λ core. core.setups ≡ setups_of P.setup ports.items) }
        ensures taken { IfOk result (λ core. core.taken ≡ untaken callers.items) }
        ensures locks { IfOk result (λ core. AreFree core.locks) }
        ensures entries { IfOk result (λ core. core.journal.entries ≡ []) }
        ensures room { IfOk result (λ core. core.journal.room ≡ limit) }
    {
        Ok(BusCore {
            parts: open(alloc, board, ports, callers, limit)?,
        })
    }

    /// It was opened with a caller of this number.
    pub fn has(&self, caller: u8) -> bool
        ensures { result ≡ has_caller self.now.opening.scripts caller }
    {
        let place = usize::from(caller);
        place < self.parts.places.len() && self.parts.places[place].is_some()
    }

    /// Makes the next step of a caller: takes or frees a lock, sends a message or sets a line, with the settle that it
    /// decides, or settles a transfer that is refused. Nothing is done where it is blocked, or its script is used up.
    pub fn step(&mut self, caller: u8) -> StepAnswer
        requires has { has_caller self.old.opening.scripts caller ≡ true }
        ensures opening { self.new.opening ≡ self.old.opening }
        ensures roots { roots_in self.new ≡ roots_in self.old }
        ensures setups { self.new.setups ≡ self.old.setups }
        ensures told { IsTrue P.tells → CoreTold C.asked self.new }
        ensures stepped { result ≡ answer.Stepped → HasAdded C.asked P.tells caller self.old self.new }
        ensures blocked { (l : LockId) (h : ℕ) → result ≡ answer.Blocked l h → (self.new ≡ self.old) × WaitsFor C.asked P.tells self.old caller l h }
        ensures finished { result ≡ answer.Finished → (self.new ≡ self.old) × HasUsedUp C.asked self.old caller }
        ensures over { IsTrue P.tells → result ≡ answer.Finished → IsOverIn C.asked self.old caller }
    {
        match self.parts.places[usize::from(caller)] {
            Some(place) => step(&mut self.parts, usize::from(place)),
            None => StepAnswer::Finished,
        }
    }

    /// The least caller that can make a step: it isn't blocked, and its script isn't used up. None where no caller can.
    pub fn ready(&self) -> Option<u8>
        ensures some { IfSome result (IsLeast C.asked P.tells self.now) }
        ensures none { result ≡ None → AllThrough C.asked P.tells self.now }
    {
        ready(&self.parts)
    }

    /// Steps the least caller that can make a step, until none can: then each script is used up.
    pub fn finish(&mut self)
        ensures opening { self.new.opening ≡ self.old.opening }
        ensures roots { roots_in self.new ≡ roots_in self.old }
        ensures setups { self.new.setups ≡ self.old.setups }
        ensures told { IsTrue P.tells → CoreTold C.asked self.new }
        ensures through { AllThrough C.asked P.tells self.new }
        ensures follows { IsTrue P.tells → GoesOnBy [] self.old.journal.entries self.new.journal.entries }
    {
        finish(&mut self.parts);
    }

    /// Steps the callers by a schedule of their numbers, a word of a caller that is blocked or used up passed over; and
    /// then the least that can make a step, until each script is used up.
    pub fn follow(&mut self, words: &[u8])
        requires words { All (λ c. has_caller self.old.opening.scripts c ≡ true) words.now }
        ensures opening { self.new.opening ≡ self.old.opening }
        ensures roots { roots_in self.new ≡ roots_in self.old }
        ensures setups { self.new.setups ≡ self.old.setups }
        ensures told { IsTrue P.tells → CoreTold C.asked self.new }
        ensures through { AllThrough C.asked P.tells self.new }
        ensures follows { IsTrue P.tells → GoesOnBy words.now self.old.journal.entries self.new.journal.entries }
    {
        follow(&mut self.parts, words);
    }

    /// The journal so far.
    pub fn journal(&self) -> &Journal
        ensures { result.now ≡ self.now.journal }
    {
        &self.parts.journal
    }

    /// Takes the core apart. It takes no memory.
    pub fn take_apart(self) -> ClosedCore<P, C>
        ensures scripts { scripts_of C.Caller result.seats.items ≡ self.entry.opening.scripts }
        ensures taken { taken_of C.Caller result.seats.items ≡ self.entry.taken }
        ensures worlds { worlds_of P.world result.ports.items ≡ self.entry.worlds }
        ensures logs { logs_of P.log result.ports.items ≡ self.entry.logs }
        ensures setups { setups_of P.setup result.ports.items ≡ self.entry.setups }
        ensures journal { result.journal ≡ self.entry.journal }
    {
        ClosedCore {
            ports: self.parts.ports,
            seats: self.parts.seats,
            journal: self.parts.journal,
        }
    }
}
