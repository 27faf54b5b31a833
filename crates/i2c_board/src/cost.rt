//! What the transfers on a bus ask for: how many steps they can take, and on which root.
ghost use Rattle.std.specs.Prelude.{◌≡◌, ◌+◌, ◌-◌, ◌*◌, ◌^◌, ◌<◌, ◌≤◌, All, length, IfSome, if◌then◌else◌};
ghost use Rattle.std.specs.List.{sum_by};
ghost use Rattle.i2c_base.specs.Limits as limits;
ghost use Rattle.i2c_base.specs.Transfer.{IsMessage};
ghost use Rattle.i2c_spec.specs.Tree.{locks_of};
ghost use Rattle.i2c_spec.specs.Cost.{bytes_of, inner_cost, inner_behind, full_cost};

use crate::{Accepted, Hop, Layout};
use i2c_base::{Msg, SegId, Transfer};

/// What is counted at the end of some hops: the locks, a control message of a byte, and a job without steps of its own.
#[derive(Clone, Copy)]
struct Steps {
    locks: u32,
    control: u32,
    job: u32,
}

/// What the transfers on a bus ask for: so many steps each beside their own, which count where the board has the bus, and
/// the root that it hangs from, none where the board lacks it.
#[derive(Clone, Copy)]
pub struct BusBill {
    pub bus: u16,
    pub beside: u32,
    pub root: Option<SegId>,
}

impl BusBill {
    ghost use Rattle.i2c_spec.specs.Cost.{cost_of};
    ghost use Rattle.i2c_board.specs.Bills.{IsBill};

    /// How many steps a transfer on that bus can take.
    pub fn cost(&self, board: &Accepted, transfer: &Transfer) -> u64
        requires bill { IsBill board.now self.now }
        requires bus { transfer.now.bus ≡ self.now.bus }
        ensures value { result ≡ cost_of board.now transfer.now }
        ensures small { result < 2 ^ 32 }
    {
        match self.root {
            Some(_) => { u64::from(self.beside) + steps_of(board.board().limit(), transfer.msgs()) }
            None => u64::from(self.beside),
        }
    }
}

// The bytes of a message, a counted read's as many as a block may have.
fn bytes_of(limit: u8, msg: &Msg) -> u64
    ensures value { result ≡ bytes_of limit msg.now }
    ensures small { result < 2 ^ 17 }
{
    let len = u64::from(msg.len);
    if msg.is_counted() {
        u64::from(limit) + len
    } else {
        len
    }
}

// So many messages and bytes.
fn steps_of(limit: u8, msgs: &[Msg]) -> u64
    requires count { length msgs.now ≤ limits.MOST_MESSAGES }
    requires each { All IsMessage msgs.now }
    ensures value { result ≡ length msgs.now + sum_by (bytes_of limit) msgs.now }
    ensures small { result < 2 ^ 16 }
{
    let bytes: u64 = msgs.iter().map(|msg| bytes_of(limit, msg)).sum();
    msgs.len() as u64 + bytes
}

// A job behind a mux, by what is counted at the bus that the mux stands on.
fn behind(hop: &Hop, far: Steps, job: u32) -> u32
    requires few { far.locks ≤ 5 }
    requires control { far.control < 2 ^ 16 }
    requires job { job < 2 ^ 16 }
    ensures { result ≡ inner_behind hop.now (2 * far.locks) far.control job }
{
    let facts = hop.kind.facts();
    if !hop.parent {
        3 * (2 * far.locks + far.control) + (2 * far.locks + job)
    } else if facts.by_line {
        2 + far.control + job
    } else if facts.asks {
        11 * far.control + job
    } else {
        3 * far.control + job
    }
}

// What is counted behind a mux, by what is counted at the bus that the mux stands on.
fn steps_behind(hop: &Hop, far: Steps) -> Steps
    requires few { far.locks ≤ 5 }
    requires control { far.control < 2 ^ 16 }
    requires job { far.job < 2 ^ 16 }
    ensures locks { result.locks ≡ if hop.now.parent then 1 + far.locks else 1 }
    ensures control { result.control ≡ inner_behind hop.now (2 * far.locks) far.control far.control }
    ensures job { result.job ≡ inner_behind hop.now (2 * far.locks) far.control far.job }
{
    Steps {
        locks: if hop.parent { 1 + far.locks } else { 1 },
        control: behind(hop, far, far.control),
        job: behind(hop, far, far.job),
    }
}

impl Layout<'_> {
    ghost use Rattle.i2c_board.specs.Layouts.{board_of};
    ghost use Rattle.i2c_spec.specs.Plain.{IsPlainBoard};
    ghost use Rattle.i2c_spec.specs.Rules.{MeetsRules};
    ghost use Rattle.i2c_spec.specs.Tree.{hops};
    ghost use Rattle.i2c_board.specs.Bills.{IsBill};

    // What is counted at a bus.
    fn steps_at(&self, seg: SegId) -> Steps
        requires plain { IsPlainBoard (board_of self.now) }
        requires few { length (hops (board_of self.now) seg) ≤ limits.MOST_DEPTH }
        ensures locks { result.locks ≡ length (locks_of 0 (hops (board_of self.now) seg)) }
        ensures control { result.control ≡ inner_cost (hops (board_of self.now) seg) 2 }
        ensures job { result.job ≡ inner_cost (hops (board_of self.now) seg) 0 }
    {
        match self.up(seg) {
            Some(hop) => {
                let far = self.steps_at(hop.on);
                steps_behind(&hop, far)
            }
            None => Steps {
                locks: 1,
                control: 2,
                job: 0,
            },
        }
    }

    // A job without steps of its own at a bus, with the locks.
    fn full_cost(&self, seg: SegId) -> u32
        requires plain { IsPlainBoard (board_of self.now) }
        requires few { length (hops (board_of self.now) seg) ≤ limits.MOST_DEPTH }
        ensures value { result ≡ full_cost (hops (board_of self.now) seg) 0 }
        ensures small { result < 2 ^ 17 - 1 }
    {
        let steps = self.steps_at(seg);
        2 * steps.locks + steps.job
    }

    /// What the transfers on a bus of an accepted board ask for.
    pub fn bill(&self, bus: u16) -> BusBill
        requires plain { IsPlainBoard (board_of self.now) }
        requires rules { MeetsRules (board_of self.now) }
        ensures bus { result.bus ≡ bus }
        ensures bill { IsBill (board_of self.now) result }
    {
        if bus >= self.buses() {
            return BusBill {
                bus,
                beside: 1,
                root: None,
            };
        }
        BusBill {
            bus,
            beside: 1 + self.full_cost(SegId(bus)),
            root: Some(self.root(SegId(bus))),
        }
    }
}
