//! The callers of a core that follow a schedule, and scripts as those of the cores of groups that run on threads.
ghost use Rattle.std.specs.Prelude.{◌≡◌, ◌<◌, ◌≤◌, [], IfOk, IsTrue, All, length, map, vec_capacity};
ghost use Rattle.std.specs.List.{enumerate_from, AllZip};
ghost use Rattle.bus_core.specs.State.{setups_of};
ghost use Rattle.bus_groups.specs.Rounds.{one_of};
ghost use Rattle.bus_spec.specs.Schedule.{Follows};
ghost use Rattle.caller_core.specs.Roots.{HasRoots};
ghost use Rattle.caller_core.specs.Scripts.{commands_of, cost_of_script};
ghost use Rattle.i2c_base.specs.Limits.{MOST_ROOTS, MOST_CALLERS};
ghost use Rattle.i2c_top.specs.Cores.{AreFresh, MayRun, IsAsOne, IsCoreOf, IsLeftOf};
ghost use Rattle.i2c_top.specs.Runs.{AreOpened, texts_of, cost_of_texts, MOST_COST, IsOfGroups, script_row};

use crate::counted_port::CountedPort;
use arrayvec::ArrayVec;
use bus_core::{BusCore, ClosedCore};
use bus_groups::{Ran, run_groups};
use bus_journal::Journal;
use caller_core::{Script, scripts_are_fair};
use i2c_base::{Caller, NoMemory, SegId};
use i2c_board::Accepted;
use i2c_outside::Gate;
use ports::Port;
use std::alloc::Global;
use std::sync::Wait;
use std::thread::Threads;

// Each port with the number of its root, to account for its faults from here on.
fn by_root<P: Port>(
    alloc: Global,
    ports: Vec<P>,
    roots: usize,
) -> Result<Vec<(SegId, CountedPort<P>)>, NoMemory>
    requires count { length ports.items ≡ roots }
    requires few { roots ≤ MOST_ROOTS }
    requires empty { IsTrue P.tells → All (λ p. P.log p ≡ []) ports.items }
    ensures { IfOk result (λ xs. xs.items ≡ enumerate_from 0 ports.items) }
{
    let mut by_root = Vec::with_capacity(alloc, roots)?;
    for port in ports {
        let number = by_root.len() as u16;
        by_root.push_reserved((SegId(number), CountedPort::new(port)));
    }
    Ok(by_root)
}

// Each caller with its number.
fn by_number<C: Caller>(alloc: Global, callers: Vec<C>) -> Result<Vec<(u8, C)>, NoMemory>
    requires { length callers.items ≤ MOST_CALLERS }
    ensures { IfOk result (λ xs. xs.items ≡ enumerate_from 0 callers.items) }
{
    let mut by_number = Vec::with_capacity(alloc, callers.len())?;
    for caller in callers {
        let number = by_number.len() as u8;
        by_number.push_reserved((number, caller));
    }
    Ok(by_number)
}

/// A core of the callers, each by its number, and of the ports of all roots by theirs, which has made no step.
pub fn opened<'b, P: Port, C: Caller>(
    alloc: Global,
    board: &'b Accepted,
    callers: Vec<C>,
    limit: u32,
    ports: Vec<(SegId, P)>,
) -> Result<BusCore<'b, P, C>, NoMemory>
    requires may { MayRun P.Port C.Caller board.now callers.items (map (λ p. p.1) ports.items) limit }
    requires numbered { ports.items ≡ enumerate_from 0 (map (λ p. p.1) ports.items) }
    ensures of { IfOk result (IsCoreOf C.Caller board.now callers.items (map (λ p. p.1) ports.items)) }
    ensures entries { IfOk result (λ core. core.journal.entries ≡ []) }
    ensures setups { IfOk result (λ core. core.setups ≡ setups_of P.setup ports.items) }
{
    board.board().roots();
    let callers = by_number(alloc, callers)?;
    BusCore::open(alloc, board, ports, callers, limit)
}

// The same over ports that account for their faults from here on.
fn opened_counting<'b, P: Port, C: Caller>(
    alloc: Global,
    board: &'b Accepted,
    callers: Vec<C>,
    limit: u32,
    ports: Vec<P>,
) -> Result<BusCore<'b, CountedPort<P>, C>, NoMemory>
    requires may { MayRun P.Port C.Caller board.now callers.items ports.items limit }
    ensures of { IfOk result (IsCoreOf C.Caller board.now callers.items ports.items) }
    ensures entries { IfOk result (λ core. core.journal.entries ≡ []) }
    ensures setups { IfOk result (λ core. core.setups ≡ setups_of P.setup (enumerate_from 0 ports.items)) }
{
    let roots = board.board().roots().len();
    let ports = by_root(alloc, ports, roots)?;
    opened(alloc, board, callers, limit, ports)
}

// What is left of one core, with its journal in a list that has room for it.
fn of_one<P: Drop, C: Drop>(parts: ClosedCore<P, C>, room: Vec<Journal>) -> Ran<P, C>
    requires empty { room.items ≡ [] }
    requires room { 1 ≤ vec_capacity room }
    ensures { IsAsOne parts result }
{
    let ClosedCore {
        ports,
        seats,
        journal,
    } = parts;
    let mut journals = room;
    journals.push_reserved(journal);
    Ran {
        ports,
        seats,
        journals,
    }
}

/// What is left of a core of the callers over the ports when they have followed the schedule, and each is through. They have at
/// most so many steps left.
pub fn followed<P: Port, C: Caller>(
    alloc: Global,
    board: &Accepted,
    callers: Vec<C>,
    limit: u32,
    words: &[u8],
    ports: Vec<P>,
) -> Result<ClosedCore<CountedPort<P>, C>, NoMemory>
    requires may { MayRun P.Port C.Caller board.now callers.items ports.items limit }
    requires named { All (λ c. c < length callers.items) words.now }
    ensures left { IfOk result (IsLeftOf P.Port C.Caller board.now callers.items ports.items) }
    ensures follows { IsTrue P.tells → IfOk result (λ x. Follows words.now x.journal.entries) }
    ensures setups { IfOk result (λ x. map (λ p. P.setup p.1) x.ports.items ≡ map P.setup ports.items) }
{
    let mut core = opened_counting(alloc, board, callers, limit, ports)?;
    core.follow(words);
    Ok(core.take_apart())
}

/// The same, as what is left of cores.
pub fn finished<P: Port, C: Caller>(
    alloc: Global,
    board: &Accepted,
    callers: Vec<C>,
    limit: u32,
    words: &[u8],
    ports: Vec<P>,
) -> Result<Ran<CountedPort<P>, C>, NoMemory>
    requires may { MayRun P.Port C.Caller board.now callers.items ports.items limit }
    requires named { All (λ c. c < length callers.items) words.now }
    ensures left { IfOk result (λ x. IsLeftOf P.Port C.Caller board.now callers.items ports.items (one_of x)) }
    ensures follows { IsTrue P.tells → IfOk result (λ x. Follows words.now (one_of x).journal.entries) }
    ensures setups { IfOk result (λ x. map (λ p. P.setup p.1) x.ports.items ≡ map P.setup ports.items) }
{
    let room = Vec::with_capacity(alloc, 1)?;
    let parts = followed(alloc, board, callers, limit, words, ports)?;
    Ok(of_one(parts, room))
}

// Of each script the roots that its transfers name, as bits.
fn masks_of(scripts: &[Script]) -> ArrayVec<u8, 8>
    requires { length scripts.now ≤ MOST_CALLERS }
    ensures { AllZip (λ s mask. HasRoots s.script.board (commands_of s.script) mask) scripts.now result.items }
{
    let mut masks = ArrayVec::new();
    for script in scripts {
        masks.push(script.roots());
    }
    masks
}

// What each script costs.
fn costs_of(board: &Accepted, scripts: &[Script]) -> ArrayVec<u32, 8>
    requires opened { AreOpened board.now scripts.now }
    requires few { length scripts.now ≤ MOST_CALLERS }
    requires cheap { cost_of_texts board.now (texts_of scripts.now) ≤ MOST_COST }
    ensures { result.items ≡ map (λ s. cost_of_script s.script) scripts.now }
{
    let mut costs = ArrayVec::new();
    for script in scripts {
        costs.push(script.cost() as u32);
    }
    costs
}

/// What is left when each caller has run on a thread of its own, with a core for each group of callers that share a root, and
/// each script is used up.
pub fn run_threads<P: Port, G: Gate + Sync, H: Threads + Wait + Sync>(
    rt: &H,
    alloc: Global,
    board: &Accepted,
    scripts: Vec<Script>,
    gate: &G,
    ports: Vec<P>,
) -> Result<Ran<CountedPort<P>, Script>, NoMemory>
    requires opened { AreOpened board.now scripts.items }
    requires few { length scripts.items ≤ MOST_CALLERS }
    requires cheap { cost_of_texts board.now (texts_of scripts.items) ≤ MOST_COST }
    requires fresh { AreFresh P.Port board.now ports.items }
    ensures left { IfOk result (λ x. IsLeftOf P.Port script_row board.now scripts.items ports.items (one_of x)) }
    ensures groups { IsTrue P.tells → IfOk result (λ x. IsOfGroups board.now (texts_of scripts.items) (one_of x).journal.entries) }
{
    scripts_are_fair();
    let roots = board.board().roots().len();
    let masks = masks_of(scripts.as_slice());
    let costs = costs_of(board, scripts.as_slice());
    let ports = by_root(alloc, ports, roots)?;
    let callers = by_number(alloc, scripts)?;
    run_groups(
        rt,
        alloc,
        board,
        masks.as_slice(),
        costs.as_slice(),
        ports,
        callers,
        gate,
    )
}
