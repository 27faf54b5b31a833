//! A port of which those calls fail that a journal tells to have failed.
ghost use Rattle.std.specs.Prelude.{◌≡◌, ◌+◌, ◌<◌, ℕ, List, [], true, length, drop, IfOk, OnOk, OnErr};
ghost use Rattle.i2c_base.specs.Limits.{MOST_CALLS};
ghost use Rattle.i2c_base.specs.Phases.{MayStart, MayPut, MayGet, MayStop, MayLine};
ghost use Rattle.i2c_physics.specs.SimPorts.{opening_port};
ghost use Rattle.i2c_physics.specs.FailPorts.{failed_calls_in};
ghost use Rattle.check_laws.specs.Failed.{fails_by};
ghost use Rattle.journal_check.specs.Gaps.{gaps_by};
ghost use Rattle.journal_check.specs.Forms.{TellsGaps};
ghost use Rattle.journal_check.specs.Ports.{AreOpeningPorts, still};

use crate::gaps::RootGaps;
use i2c_base::{Addr, Answer, MuxId, NoMemory, SegId};
use i2c_board::Accepted;
use i2c_physics::SimPort;
use ports::{Failed, Port};
use std::alloc::{AllocError, Global};
use std::marker::{Brand, Model, PhantomData};

/// Which calls of each root's port fail, by a name: how many go through before each one that fails.
///
/// Of a port inside a core nothing is known but what its type says. So its type carries such a name, and the name is picked for
/// the journal that is at hand.
pub trait Telling {
    ghost use Rattle.std.specs.Prelude.{ℕ, List};

    ghost gaps: { ℕ → List ℕ };
}

impl Telling for Brand {
    ghost use Rattle.std.specs.Prelude.{[]};

    ghost gaps = { λ r. [] };
}

/// A port of which just those calls have failed that its type tells.
pub trait FailsAsTold: Port {
    ghost use Rattle.std.specs.Prelude.{ℕ, List};
    ghost use Rattle.check_laws.specs.Failed.{FailedBy};

    /// By root, how many calls go through before each one that fails.
    ghost gaps: { ℕ → List ℕ };

    /// Its calls failed so, on the root of its world.
    fn fails_as_told(&self)
        ensures { FailedBy (Self.log self.now) (gaps (Self.world self.now).root) };
}

/// The port of one root of a board, of which those calls fail that `N` names. Such a call acts as a stop.
#[derive(Drop)]
pub struct ToldPort<N: Telling> {
    sim: SimPort,
    /// So many calls go through before the next one that fails, where there is one; and the gaps after that, from a place on.
    left: Option<u32>,
    place: usize,
    gaps: Vec<u32>,
    of: PhantomData<N>,
}

impl<N: Telling> Model for ToldPort<N> {
    ghost use Rattle.std.specs.Prelude.{drop};
    ghost use Rattle.i2c_physics.specs.SimPorts.{PortView};
    ghost use Rattle.journal_check.specs.Ports.{IsToldPort};

    ghost Value = { PortView };

    ghost view = { λ p. p.sim };

    ghost invariant = { λ p. IsToldPort N.gaps p.sim p.left (drop p.place p.gaps.items) };
}

// The next gap, if there is one.
fn next_gap(gaps: &[u32], place: &mut usize) -> Option<u32>
    ensures { (n : ℕ) → fails_by (drop place.old gaps.now) n ≡ fails_by (still result (drop place.new gaps.now)) n }
{
    if *place < gaps.len() {
        let gap = gaps[*place];
        *place += 1;
        Some(gap)
    } else {
        None
    }
}

// Whether the next call fails, by the gaps that are left; after it fewer are left.
fn fails_next(left: &mut Option<u32>, place: &mut usize, gaps: &[u32]) -> bool
    ensures now { result ≡ fails_by (still left.old (drop place.old gaps.now)) 0 }
    ensures behind { (n : ℕ) → fails_by (still left.old (drop place.old gaps.now)) (1 + n) ≡ fails_by (still left.new (drop place.new gaps.now)) n }
{
    match *left {
        None => false,
        Some(0) => {
            *left = next_gap(gaps, place);
            true
        }
        Some(n) => {
            *left = Some(n - 1);
            false
        }
    }
}

impl<N: Telling> ToldPort<N> {
    /// The port of this root, in the root's opening world, of which the calls fail that these gaps tell.
    pub fn open(
        alloc: Global,
        board: &Accepted,
        root: SegId,
        gaps: Vec<u32>,
    ) -> Result<Self, AllocError>
        requires { gaps.items ≡ N.gaps root }
        ensures { IfOk result (λ p. p ≡ opening_port board.now root) }
    {
        let sim = SimPort::open(alloc, board, root)?;
        let mut place = 0;
        let left = next_gap(gaps.as_slice(), &mut place);
        Ok(ToldPort {
            sim,
            left,
            place,
            gaps,
            of: PhantomData,
        })
    }
}

/// The ports of all roots, each by its number, of which those calls fail that the lines of entries tell.
pub fn told_ports<N: Telling>(
    alloc: Global,
    board: &Accepted,
    lines: &[u8],
    gaps: Vec<RootGaps>,
) -> Result<Vec<(SegId, ToldPort<N>)>, NoMemory>
    requires told { TellsGaps board.now lines.now gaps.items }
    requires named { (r : ℕ) → N.gaps r ≡ gaps_by board.now lines.now r }
    ensures { IfOk result (λ ports. AreOpeningPorts board.now ports.items) }
{
    board.board().roots();
    let mut ports = Vec::new(alloc);
    for root in gaps {
        let number = SegId(ports.len() as u16);
        let port = ToldPort::open(alloc, board, number, root.into_gaps())?;
        ports.push((number, port))?;
    }
    Ok(ports)
}

impl<N: Telling + Send> FailsAsTold for ToldPort<N> {
    ghost gaps = { N.gaps };

    fn fails_as_told(&self) {
        let _ = &self.sim;
    }
}

impl<N: Telling + Send> Port for ToldPort<N> {
    ghost tells = { true };

    ghost world = { λ p. p.world };

    ghost log = { λ p. p.log };

    ghost phase = { λ p. p.phase };

    ghost faults = { λ p. failed_calls_in p.log };

    ghost setup = { λ p. [] };

    #[inline(always)]
    fn start(&mut self, addr: Addr, reading: bool) -> Result<Answer, Failed> {
        if fails_next(&mut self.left, &mut self.place, self.gaps.as_slice()) {
            self.sim.call_fault();
            return Err(Failed);
        }
        Ok(self.sim.call_start(addr, reading))
    }

    #[inline(always)]
    fn put(&mut self, byte: u8) -> Result<bool, Failed> {
        if fails_next(&mut self.left, &mut self.place, self.gaps.as_slice()) {
            self.sim.call_fault();
            return Err(Failed);
        }
        Ok(self.sim.call_put(byte))
    }

    #[inline(always)]
    fn get(&mut self, ack: bool) -> Result<u8, Failed> {
        if fails_next(&mut self.left, &mut self.place, self.gaps.as_slice()) {
            self.sim.call_fault();
            return Err(Failed);
        }
        Ok(self.sim.call_get(ack))
    }

    #[inline(always)]
    fn stop(&mut self) -> Result<(), Failed> {
        if fails_next(&mut self.left, &mut self.place, self.gaps.as_slice()) {
            self.sim.call_fault();
            return Err(Failed);
        }
        self.sim.call_stop();
        Ok(())
    }

    #[inline(always)]
    fn line(&mut self, mux: MuxId, level: u8) -> Result<(), Failed> {
        if fails_next(&mut self.left, &mut self.place, self.gaps.as_slice()) {
            self.sim.call_fault();
            return Err(Failed);
        }
        self.sim.call_line(mux, level);
        Ok(())
    }
}
