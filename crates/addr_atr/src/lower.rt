//! The lowered board: where each device behind a translator stands on the mux's bus at its alias.
ghost use Rattle.std.specs.Prelude.{◌≡◌, map, option_map, IfOk};
ghost use Rattle.addr_atr.specs.Maps.{pairs_of, route_of, route_view};
ghost use Rattle.addr_atr.specs.Lowering.{lowered, lowered_device, IsMap};

use crate::map::Translator;
use i2c_base::{AliasPair, DeviceSpec, MemoryRun, MuxId, SegId, alias_of};
use i2c_board::{Accepted, Board};
use std::alloc::{AllocError, Global};

// The pairs of the translator that a mux stands for.
fn pairs_of(translators: &[Translator], mux: MuxId) -> Option<&[AliasPair]>
    ensures { option_map (λ s. s.now) result ≡ pairs_of translators.now mux }
{
    for translator in translators {
        if translator.mux == mux {
            return Some(translator.pairs.as_slice());
        }
    }
    None
}

/// Where what is sent on a bus goes, where it is a translator's child bus. A bus that the board lacks is none.
pub(crate) fn route<'t>(
    board: &Board,
    translators: &'t [Translator],
    bus: u16,
) -> Option<(SegId, &'t [AliasPair])>
    ensures { option_map (λ r. route_view r.0 r.1.now) result ≡ route_of board.now translators.now bus }
{
    let seg = board.seg(bus)?;
    let hop = board.layout().over(seg)?;
    let pairs = pairs_of(translators, hop.mux)?;
    Some((hop.on, pairs))
}

// A copy of a run.
fn copy_run(alloc: Global, run: &MemoryRun) -> Result<MemoryRun, AllocError>
    ensures { IfOk result (λ r. r ≡ run.now) }
{
    Ok(MemoryRun {
        start: run.start,
        bytes: run.bytes.as_slice().to_vec(alloc)?,
    })
}

fn copy_runs(alloc: Global, runs: &[MemoryRun]) -> Result<Vec<MemoryRun>, AllocError>
    ensures { IfOk result (λ rs. rs.items ≡ runs.now) }
{
    let mut copy = Vec::with_capacity(alloc, runs.len())?;
    for run in runs {
        copy.push(copy_run(alloc, run)?)?;
    }
    Ok(copy)
}

// A device as it stands on the lowered board.
fn lowered_device(
    alloc: Global,
    board: &Board,
    translators: &[Translator],
    device: &DeviceSpec,
) -> Result<DeviceSpec, AllocError>
    ensures { IfOk result (λ d. d ≡ lowered_device board.now translators.now device.now) }
{
    let set = copy_runs(alloc, &device.set)?;
    let (bus, addr) = match route(board, translators, device.bus.0) {
        Some((bus, pairs)) => (bus, alias_of(pairs, device.addr)),
        None => (device.bus, device.addr),
    };
    Ok(DeviceSpec {
        bus,
        addr,
        bound: device.bound,
        kind: device.kind,
        set,
    })
}

fn lowered_devices(
    alloc: Global,
    board: &Board,
    translators: &[Translator],
) -> Result<Vec<DeviceSpec>, AllocError>
    ensures { IfOk result (λ ds. ds.items ≡ map (lowered_device board.now translators.now) board.now.devices) }
{
    let mut devices = Vec::with_capacity(alloc, board.devices().len())?;
    for device in board.devices() {
        devices.push(lowered_device(alloc, board, translators, device)?)?;
    }
    Ok(devices)
}

/// The lowered board. `Err` is being out of memory.
pub(crate) fn lower(
    alloc: Global,
    accepted: &Accepted,
    translators: &[Translator],
) -> Result<Board, AllocError>
    requires { IsMap accepted.now translators.now }
    ensures { IfOk result (λ b. b ≡ lowered accepted.now translators.now) }
{
    let board = accepted.board();
    let roots = board.roots().to_vec(alloc)?;
    let muxes = board.muxes().to_vec(alloc)?;
    let devices = lowered_devices(alloc, board, translators)?;
    Board::new(alloc, board.layout().version, roots, muxes, devices)
}
