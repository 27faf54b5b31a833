//! `i2clab`: runs of the buses of `i2cbus` while chosen calls of their controllers fail, the levels of their wires, and sessions over them.
//!
//! It hands the real files, the standard input and output and two rigs to `lab`, and ends with the status's number. The ports of `FailRig` are
//! those of the bytes, and fail where a list says; those of `BitRig` drive two wires, whose levels are kept.
#![tactic(auto)]

use bus_waves::Recorded;
use i2c_command::words_of;
use i2c_lab::lab;
use i2c_outside::{FileShelf, StdoutSink};
use i2c_physics::{BitRig, FailRig};
use i2c_session::LineInput;
use i2c_top::Status;
use std::io::BufReader;
use std::process::ExitCode;

fn main(rt: HostRuntime) -> ExitCode {
    let alloc = rt.alloc();
    let Ok(words) = words_of(&rt, alloc) else {
        return ExitCode::from(Status::Memory.code());
    };
    let Ok(reader) = BufReader::new(alloc, rt.reader()) else {
        return ExitCode::from(Status::Memory.code());
    };
    let mut input = LineInput::new(reader);
    let mut shelf = FileShelf::new(&rt, words.as_slice());
    let mut sink = StdoutSink::new(&rt);
    let mut rig = FailRig::new(false, Vec::new(alloc));
    let mut wires = BitRig::<Recorded>::new();
    let status = lab(
        alloc,
        words.as_slice(),
        &mut shelf,
        &mut input,
        &mut sink,
        &mut rig,
        &mut wires,
    );
    ExitCode::from(status.code())
}
