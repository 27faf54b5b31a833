//! The hop over each bus behind the roots, found once for a board.
ghost use Rattle.std.specs.Prelude.{◌≡◌, ◌+◌, ◌<◌, ◌≤◌, ◌^◌, ◌++◌, reverse, length, IfOk, OnOk};
ghost use Rattle.i2c_board.specs.Passes as passes;
ghost use Rattle.i2c_spec.specs.Tree as spec;

use crate::Hop;
use i2c_base::{Idle, LockMode, MuxId, MuxSpec, SegId};
use std::alloc::{AllocError, Global};

/// The mux keeps its last channel when idle.
pub(crate) fn is_staying(idle: Idle) -> bool
    ensures { result ≡ spec.is_staying idle }
{
    matches!(idle, Idle::AsIs)
}

/// The mux is parent-locked.
pub(crate) fn is_parent(lock: LockMode) -> bool
    ensures { result ≡ spec.is_parent lock }
{
    matches!(lock, LockMode::Parent)
}

/// Whether some mux keeps its last channel when idle.
pub fn some_stays(muxes: &[MuxSpec]) -> bool
    ensures { result ≡ spec.stays_in muxes.now }
{
    muxes.iter().any(|mux| is_staying(mux.idle))
}

/// The hop over a bus, which is this channel of a mux.
pub(crate) fn hop_at(bus: SegId, number: MuxId, channel: u16, mux: &MuxSpec) -> Hop
    ensures { result ≡ record { bus = bus; mux = number; channel = channel; on = mux.now.bus; parent = spec.is_parent mux.now.lock; kind = mux.now.kind; stays = spec.is_staying mux.now.idle } }
{
    Hop {
        bus,
        mux: number,
        channel,
        on: mux.bus,
        parent: is_parent(mux.lock),
        kind: mux.kind,
        stays: is_staying(mux.idle),
    }
}

// Puts the hops over the channels of a mux, which begin at this bus, at the end.
fn push_channels(
    hops: &mut Vec<Hop>,
    first: u16,
    number: MuxId,
    mux: &MuxSpec,
) -> Result<(), AllocError>
    requires few { first + mux.now.channels < 2 ^ 16 }
    ensures { OnOk result (hops.new.items ≡ hops.old.items ++ passes.channel_hops first number mux.now mux.now.channels) }
{
    for channel in 0..u16::from(mux.channels) {
        hops.push(hop_at(SegId(first + channel), number, channel, mux))?;
    }
    Ok(())
}

/// The hop over each bus behind the roots, by the numbers of the buses: the channels of these muxes, in their order.
pub fn hops_by_bus(alloc: Global, roots: u16, muxes: &[MuxSpec]) -> Result<Vec<Hop>, AllocError>
    requires few { spec.buses_of roots muxes.now < 2 ^ 16 }
    requires most { length muxes.now < 2 ^ 16 }
    ensures { IfOk result (λ hops. hops.items ≡ passes.hops_by_bus roots (reverse muxes.now)) }
{
    let behind: u16 = muxes.iter().map(|mux| u16::from(mux.channels)).sum();
    let mut hops = Vec::with_capacity(alloc, usize::from(behind))?;
    let mut first = roots;
    for (number, mux) in muxes.iter().enumerate() {
        push_channels(&mut hops, first, MuxId(number as u16), mux)?;
        first += u16::from(mux.channels);
    }
    Ok(hops)
}
