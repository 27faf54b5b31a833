//! `i2cbus` over the rig of bytes, `SimRig`: its ports act on the world of each root, call by call, with no wires. It prints what
//! `i2cbus` prints, and its speed is what that of the wires is measured by.
#![tactic(auto)]

use i2c_physics::SimRig;
use std::process::ExitCode;

fn main(rt: HostRuntime) -> ExitCode {
    let called = i2c_command::call(&rt, &mut SimRig::new());
    ExitCode::from(called.status.code())
}
