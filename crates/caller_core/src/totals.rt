//! What a script costs, which roots its transfers name, and the room that its replies and its answers may need.

ghost use Rattle.std.specs.Prelude.{◌≡◌, ◌*◌, ◌^◌, ◌<◌, ◌≤◌, drop, length, IfSome};
ghost use Rattle.std.specs.List.{sum_by};
ghost use Rattle.std.specs.Option.{option_map_or};
ghost use Rattle.i2c_base.specs.Limits.{MOST_ROOTS, MOST_BYTES};
ghost use Rattle.i2c_spec.specs.Cost.{cost_of};
ghost use Rattle.tools.specs.Replies.{most_brought};
ghost use Rattle.i2c_board.specs.Bills.{IsBill};
ghost use Rattle.tools.specs.Dialogues.{MOST_PLACES, transfers_of};
ghost use Rattle.caller_core.specs.Runs.{command_dialogue};
ghost use Rattle.caller_core.specs.Turns.{sum_of};
ghost use Rattle.caller_core.specs.Roots.{HasBits, HasRoots, names_root};
ghost use Rattle.caller_core.specs.Scripts.{front_room, room_of};

use crate::commands::Commands;
use crate::run::CommandRun;
use i2c_base::{SegId, Transfer, TransferKind};
use i2c_board::{Accepted, BusBill};

/// The most that the scripts of a run cost together.
pub const MOST_COST: u64 = 1_000_000;

/// Sums over transfers: their cost, how many they are, the bytes that their replies may have, and a bit for each root
/// that they name.
#[derive(Clone, Copy)]
pub struct Totals {
    pub cost: u64,
    pub replies: u32,
    pub bytes: u64,
    pub roots: u8,
}

impl Totals {
    // Of no transfer.
    const NONE: Totals = Totals {
        cost: 0,
        replies: 0,
        bytes: 0,
        roots: 0,
    };
}

// The bit of a root, if there is one.
fn root_bit(root: Option<SegId>) -> u8
    requires { IfSome root (λ r. r < MOST_ROOTS) }
    ensures { result ≡ option_map_or (λ r. 2 ^ r) root 0 }
{
    match root {
        Some(root) => 1 << root.0,
        None => 0,
    }
}

// Asks for what a bus asks for, unless that is what is there.
fn turn_to(board: &Accepted, bus: u16, bill: &mut BusBill)
    requires { IsBill board.now bill.old }
    ensures bus { bill.new.bus ≡ bus }
    ensures bill { IsBill board.now bill.new }
{
    if bill.bus != bus {
        *bill = board.bill(bus);
    }
}

// The totals of the transfers of a command. `transfer` is room for one after the other, and `bill` is that of a bus. One that
// repeats the one before counts as that does.
fn totals_of_command(
    board: &Accepted,
    run: &CommandRun,
    bill: &mut BusBill,
    transfer: &mut Transfer,
) -> Totals
    requires { IsBill board.now bill.old }
    ensures bill { IsBill board.now bill.new }
    ensures cost { result.cost ≡ sum_by (cost_of board.now) (transfers_of (command_dialogue run.now)) }
    ensures small { result.cost ≤ 2 ^ 32 * MOST_PLACES }
    ensures replies { result.replies ≡ sum_by (λ t. 1) (transfers_of (command_dialogue run.now)) }
    ensures few { result.replies ≤ MOST_PLACES }
    ensures bytes { result.bytes ≡ sum_by most_brought (transfers_of (command_dialogue run.now)) }
    ensures few_bytes { result.bytes ≤ MOST_BYTES * MOST_PLACES }
    ensures roots { HasBits (names_root board.now) (transfers_of (command_dialogue run.now)) result.roots }
{
    let mut totals = Totals::NONE;
    let mut one = Totals::NONE;
    for place in 0..run.places() {
        if !run.repeats(place) {
            run.put(place, transfer);
            turn_to(board, transfer.bus(), bill);
            one = Totals {
                cost: bill.cost(board, transfer),
                replies: 1,
                bytes: u64::from(transfer.size()),
                roots: root_bit(bill.root),
            };
        }
        totals.cost += one.cost;
        totals.replies += one.replies;
        totals.bytes += one.bytes;
        totals.roots |= one.roots;
    }
    totals
}

/// What a command costs. `transfer` is room for one after the other.
pub fn cost_of_command(board: &Accepted, run: &CommandRun, transfer: &mut Transfer) -> u64
    ensures cost { result ≡ sum_by (cost_of board.now) (transfers_of (command_dialogue run.now)) }
    ensures small { result ≤ 2 ^ 32 * MOST_PLACES }
{
    let mut bill = board.bill(0);
    totals_of_command(board, run, &mut bill, transfer).cost
}

/// The totals of these commands.
pub fn totals_of(board: &Accepted, commands: &Commands) -> Totals
    requires few { length commands.now ≤ 1000 }
    ensures cost { result.cost ≡ sum_by (sum_of (cost_of board.now)) commands.now }
    ensures small { result.cost ≤ 2 ^ 53 }
    ensures replies { result.replies ≡ sum_by (sum_of (λ t. 1)) commands.now }
    ensures bytes { result.bytes ≡ sum_by (sum_of most_brought) commands.now }
    ensures roots { HasRoots board.now commands.now result.roots }
{
    let mut transfer = Transfer::new(0, TransferKind::Smbus, false);
    let mut bill = board.bill(0);
    let mut totals = Totals::NONE;
    for place in 0..commands.len() {
        let (run, _) = commands.get(place);
        let more = totals_of_command(board, run, &mut bill, &mut transfer);
        totals.cost += more.cost;
        totals.replies += more.replies;
        totals.bytes += more.bytes;
        totals.roots |= more.roots;
    }
    totals
}

// How many bytes a command may print, where a number holds it.
#[inline(always)]
fn room_of(run: &CommandRun, echo: &[u8]) -> Option<usize>
    ensures { IfSome result (λ room. room ≡ room_of (record { echo = echo.now; run = run.now })) }
{
    echo.len().checked_add(run.most())?.checked_add(BESIDE)
}

/// How many bytes the commands from a place on may print, where a number holds it.
pub fn room_from(commands: &Commands, turn: usize) -> Option<usize>
    requires { turn ≤ length commands.now }
    ensures { IfSome result (λ room. room ≡ sum_by room_of (drop turn commands.now)) }
{
    let mut room = 0usize;
    for at in turn..commands.len() {
        let (run, echo) = commands.get(at);
        room = room.checked_add(room_of(run, echo)?)?;
    }
    Some(room)
}

/// How many bytes the commands at the front that ask for nothing may print, where a number holds it.
pub fn front_room(commands: &Commands) -> Option<usize>
    ensures { IfSome result (λ room. room ≡ front_room commands.now) }
{
    let mut room = 0usize;
    for at in 0..commands.len() {
        let (run, echo) = commands.get(at);
        if run.places() > 0 {
            return Some(room);
        }
        room = room.checked_add(room_of(run, echo)?)?;
    }
    Some(room)
}

// What stands beside the words of a command and its answer: `> ` before the words, and the end of their line.
const BESIDE: usize = 3;
