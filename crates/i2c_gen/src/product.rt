//! All that a plan asks for.
ghost use Rattle.std.specs.Prelude.{IfOk};
ghost use Rattle.i2c_gen.specs.Made.{AreMade, IsSchedule};
ghost use Rattle.i2c_gen.specs.Scripts.{IsPlan};

use crate::Plan;
use crate::board::made_board;
use crate::draws::Draws;
use crate::schedule::made_schedule;
use crate::script::made_scripts;
use caller_core::Script;
use i2c_base::NoMemory;
use i2c_board::Accepted;
use std::alloc::Global;

/// A board, a script for each caller, and a schedule.
#[derive(Drop)]
pub struct Made {
    pub board: Accepted,
    pub scripts: Vec<Script>,
    pub schedule: Vec<u8>,
}

/// What a plan asks for. It fails only when out of memory.
pub fn make(alloc: Global, plan: &Plan) -> Result<Made, NoMemory>
    requires { IsPlan plan.now }
    ensures made { IfOk result (λ m. AreMade plan.now m.board m.scripts.items) }
    ensures schedule { IfOk result (λ m. IsSchedule plan.now m.schedule.items) }
{
    let mut draws = Draws { x: plan.seed };
    let board = made_board(alloc, plan.roots)?;
    let scripts = made_scripts(alloc, plan, &board, &mut draws)?;
    let schedule = made_schedule(alloc, plan, &mut draws)?;
    Ok(Made {
        board,
        scripts,
        schedule,
    })
}
