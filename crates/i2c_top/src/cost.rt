//! The limit on what the scripts of a run cost together.
ghost use Rattle.std.specs.Prelude.{◌≡◌, ◌<◌, ◌≤◌, length, OnOk, IfErr};
ghost use Rattle.i2c_base.specs.Limits.{MOST_CALLERS};
ghost use Rattle.i2c_top.specs.Readings.{IsTooDear};
ghost use Rattle.i2c_top.specs.Runs.{AreOpened, texts_of, cost_of_texts, MOST_COST};

use crate::Status;
use caller_core::{MOST_COST, Script};
use i2c_board::Accepted;

/// What scripts cost over their board, all together.
pub fn cost_of(board: &Accepted, scripts: &[Script]) -> u64
    requires opened { AreOpened board.now scripts.now }
    requires few { length scripts.now ≤ MOST_CALLERS }
    ensures { result ≡ cost_of_texts board.now (texts_of scripts.now) }
{
    let mut cost = 0;
    for script in scripts {
        cost += script.cost();
    }
    cost
}

/// What scripts that don't cost too much cost, as the limit of their steps.
pub fn limit_of(board: &Accepted, scripts: &[Script]) -> u32
    requires opened { AreOpened board.now scripts.now }
    requires few { length scripts.now ≤ MOST_CALLERS }
    requires cheap { cost_of_texts board.now (texts_of scripts.now) ≤ MOST_COST }
    ensures { result ≡ cost_of_texts board.now (texts_of scripts.now) }
{
    cost_of(board, scripts) as u32
}

/// They don't cost too much.
pub fn check_cost(board: &Accepted, scripts: &[Script]) -> Result<(), Status>
    requires opened { AreOpened board.now scripts.now }
    requires few { length scripts.now ≤ MOST_CALLERS }
    ensures cheap { OnOk result (cost_of_texts board.now (texts_of scripts.now) ≤ MOST_COST) }
    ensures dear { IfErr result (IsTooDear (cost_of_texts board.now (texts_of scripts.now))) }
{
    let cost = cost_of(board, scripts);
    if cost > MOST_COST {
        Err(Status::Cost(cost))
    } else {
        Ok(())
    }
}
