//! A worker for each caller: they are started, and joined.
ghost use Rattle.std.specs.Prelude.{◌≡◌, true, IfSome, IsTrue};
ghost use Rattle.std.specs.Thread.{IsSend, IsSync};
ghost use Rattle.bus_core.specs.State.{AllThrough, CoreTold, has_caller, roots_in};

use crate::desk::Desk;
use crate::naming::Naming;
use crate::worker::work;
use bus_core::BusCore;
use i2c_base::{Caller, MOST_CALLERS};
use i2c_outside::Gate;
use ports::Port;
use std::marker::Brand;
use std::sync::Wait;
use std::thread;
use std::thread::Threads;

// The last caller of a desk, if it has one.
fn last_of<P: Port, C: Caller, N: Naming<C::Script>, H: Wait>(
    rt: &H,
    desk: &Desk<'_, P, C, N>,
) -> Option<u8>
    ensures { IfSome result (λ caller. has_caller N.opening.scripts caller ≡ true) }
{
    let mut last = None;
    for caller in 0..MOST_CALLERS {
        let is_there = desk.has(rt, caller);
        if is_there {
            last = Some(caller);
        }
    }
    last
}

// Starts a worker for each caller of a desk before the last one, and does that one's work; returns when each has come to its end.
fn work_with<
    'x,
    'b,
    P: Port,
    C: Caller + Send,
    N: Naming<C::Script> + Send + Sync,
    G: Gate + Sync,
    H: Threads + Wait + Sync,
>(rt: &'x H, desk: &'x Desk<'b, P, C, N>, last: u8, gate: &'x G)
    requires { has_caller N.opening.scripts last ≡ true }
{
    thread::scope(
        thread::scope_env(),
        rt,
        |scope|
            requires { IsSend P.row × IsSend C.row × IsSend N.row × IsSync G.row × IsSync H.row × (has_caller N.opening.scripts last ≡ true) }
        {
            for caller in 0..last {
                if desk.has(rt, caller) {
                    let job = move ||
                        requires { has_caller N.opening.scripts caller ≡ true }
                    { work(rt, desk, caller, gate) };
                    // Where no thread can be made, this one does the work.
                    if let Err(refused) = scope.spawn(job) {
                        (refused.value)();
                    }
                }
            }
            work(rt, desk, last, gate);
        },
    );
}

// Runs the callers of a core that was opened with what `N` names.
fn run_named<
    'b,
    P: Port,
    C: Caller + Send,
    N: Naming<C::Script> + Send + Sync,
    G: Gate + Sync,
    H: Threads + Wait + Sync,
>(rt: &H, core: BusCore<'b, P, C>, gate: &G) -> BusCore<'b, P, C>
    requires named { core.opening ≡ N.opening }
    requires rooted { roots_in core ≡ N.roots }
    ensures named { result.opening ≡ N.opening }
    ensures rooted { roots_in result ≡ N.roots }
{
    let desk: Desk<'b, P, C, N> = Desk::open(core);
    if let Some(last) = last_of(rt, &desk) {
        work_with(rt, &desk, last, gate);
    }
    desk.close()
}

/// Runs a worker for each caller, which steps it to its end: the last one on the thread that calls, and each other one on a thread of
/// its own, which is joined. Where a thread can't be made, the one that starts them does that worker's work too. What is left then
/// is finished here, so that every caller is through.
///
/// It takes no memory. It waits for threads: nothing says that it returns.
pub fn run_all<'b, P: Port, C: Caller + Send, G: Gate + Sync, H: Threads + Wait + Sync>(
    rt: &H,
    core: BusCore<'b, P, C>,
    gate: &G,
) -> BusCore<'b, P, C>
    ensures opening { result.opening ≡ core.entry.opening }
    ensures roots { roots_in result ≡ roots_in core.entry }
    ensures told { IsTrue P.tells → CoreTold C.asked result }
    ensures through { AllThrough C.asked P.tells result }
{
    let mut core = run_named::<P, C, Brand, G, H>(rt, core, gate);
    core.finish();
    core
}
