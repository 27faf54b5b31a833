//! A call over ports that drive two wires, beside the same call over ports that don't.

use crate::case::{Call, Case, Files, shelf_of, sink_of};
use case_parts::same_devices;
use i2c_outside::{OpenGate, VecSink};
use i2c_physics::{BitRig, BusLines};
use i2c_top::{Status, top};
use std::alloc::Global;
use std::sync::Wait;
use std::thread::Threads;

/// What a call left that was made over two wires.
#[derive(Drop)]
pub struct WiredCall {
    status: Status,
    sink: VecSink,
    rig: BitRig<BusLines>,
}

impl WiredCall {
    /// Makes a call with these words over two wires. None where there is no memory.
    pub fn make<H: Threads + Wait + Sync>(
        rt: &H,
        alloc: Global,
        case: &Case,
        files: &Files,
        words: &[String],
    ) -> Option<Self> {
        let mut shelf = shelf_of(alloc, case, files, words)?;
        let mut sink = sink_of(alloc, case)?;
        let mut rig = BitRig::<BusLines>::new();
        let status = top(rt, alloc, words, &mut shelf, &mut sink, &mut rig, &OpenGate);
        Some(WiredCall { status, sink, rig })
    }

    /// How often SCL rose on all roots.
    pub fn edges(&self) -> u64 {
        self.rig.edges()
    }

    /// It left what the other call did: the status, each byte that was written, and the devices.
    pub fn is_as(&self, alloc: Global, other: &Call) -> bool {
        self.status.code() == other.status.code()
            && self.sink.bytes() == other.outside.sink.bytes()
            && same_devices(alloc, self.rig.states(), other.outside.rig.states())
    }
}
