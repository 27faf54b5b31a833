//! `i2cbus`: a user-space I2C and SMBus subsystem over simulated boards.
//!
//! It hands the real files, the standard output and a rig to `top`, and ends with the status's number. The rig is `BitRig`:
//! its ports drive the two wires of each root, bit by bit.
#![tactic(auto)]

use i2c_physics::{BitRig, BusLines};
use std::process::ExitCode;

fn main(rt: HostRuntime) -> ExitCode {
    let called = i2c_command::call(&rt, &mut BitRig::<BusLines>::new());
    ExitCode::from(called.status.code())
}
