//! The generated schedule.
ghost use Rattle.std.specs.Prelude.{◌≡◌, ◌*◌, IfOk};
ghost use Rattle.i2c_gen.specs.Draws.{number_behind};
ghost use Rattle.i2c_gen.specs.Made.{IsSchedule};
ghost use Rattle.i2c_gen.specs.Scripts.{IsPlan, lines_in};

use crate::Plan;
use crate::draws::Draws;
use i2c_base::{MOST_CALLERS, NoMemory};
use std::alloc::Global;

/// The callers that the draws after those of all lines name.
pub fn made_schedule(alloc: Global, plan: &Plan, draws: &mut Draws) -> Result<Vec<u8>, NoMemory>
    requires plan { IsPlan plan.now }
    requires behind { draws.old.x ≡ number_behind plan.now.seed (5 * lines_in plan.now) }
    ensures { IfOk result (λ words. IsSchedule plan.now words.items) }
{
    let many = usize::from(MOST_CALLERS) * usize::from(plan.lines);
    let mut words = Vec::with_capacity(alloc, many)?;
    for _ in 0..many {
        words.push_reserved(draws.draw(u64::from(MOST_CALLERS)) as u8);
    }
    Ok(words)
}
