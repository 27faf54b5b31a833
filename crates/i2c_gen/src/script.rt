//! The generated scripts.
ghost use Rattle.std.specs.Prelude.{◌≡◌, ◌+◌, ◌*◌, ◌<◌, ◌≤◌, ◌^◌, ◌++◌, ℕ, IfOk, IsOk, OnOk, Ok, length, All, map};
ghost use Rattle.i2c_base.specs.Limits.{MOST_CALLERS};
ghost use Rattle.caller_core.specs.Callers.{IsOpened};
ghost use Rattle.caller_core.specs.Scripts.{script_read};
ghost use Rattle.caller_core.specs.View.{script_on};
ghost use Rattle.i2c_gen.specs.Boards.{made_board};
ghost use Rattle.i2c_gen.specs.Draws.{number_behind};
ghost use Rattle.i2c_gen.specs.Made.{AreMade};
ghost use Rattle.i2c_gen.specs.Scripts.{IsPlan, line_by, line_of, script_of, lines_in};

use crate::Plan;
use crate::draws::Draws;
use bus_journal::{push_bytes, push_number};
use caller_core::{Script, ScriptFault};
use i2c_base::{MOST_CALLERS, NoMemory};
use i2c_board::Accepted;
use std::alloc::Global;

// The line of an operation.
fn push_by(out: &mut Vec<u8>, op: u64, bus: u64, reg: u64, val: u64) -> Result<(), NoMemory>
    requires { op < 3 }
    ensures { OnOk result (out.new.items ≡ out.old.items ++ line_by op bus reg val) }
{
    push_bytes(
        out,
        if op == 1 {
            b"i2cset -y "
        } else {
            b"i2cget -y "
        },
    )?;
    push_number(out, bus)?;
    if op == 2 {
        return push_bytes(out, b" 0x48 0 w\n");
    }
    push_bytes(out, b" 0x50 ")?;
    push_number(out, reg)?;
    if op == 1 {
        push_bytes(out, b" ")?;
        push_number(out, val)?;
    }
    push_bytes(out, b"\n")
}

// The line of the next five draws.
fn push_line(out: &mut Vec<u8>, plan: &Plan, draws: &mut Draws) -> Result<(), NoMemory>
    requires plan { IsPlan plan.now }
    ensures { (n : ℕ) → draws.old.x ≡ number_behind plan.now.seed (5 * n) → OnOk result
        ((draws.new.x ≡ number_behind plan.now.seed (5 * (n + 1))) × (out.new.items ≡ out.old.items ++ line_of plan.now n)) }
{
    let roots = u64::from(plan.roots);
    let root = draws.draw(roots);
    let channel = draws.draw(8);
    let op = draws.draw(3);
    let reg = draws.draw(256);
    let val = draws.draw(256);
    push_by(out, op, roots + 8 * root + channel, reg, val)
}

// The text of the script of a caller, by the draws after those of the callers before it.
fn made_text(alloc: Global, plan: &Plan, draws: &mut Draws) -> Result<Vec<u8>, NoMemory>
    requires plan { IsPlan plan.now }
    ensures behind { (c : ℕ) → draws.old.x ≡ number_behind plan.now.seed (5 * (c * plan.now.lines)) → OnOk result
        (draws.new.x ≡ number_behind plan.now.seed (5 * ((c + 1) * plan.now.lines))) }
    ensures text { (c : ℕ) → draws.old.x ≡ number_behind plan.now.seed (5 * (c * plan.now.lines)) → IfOk result (λ text.
        text.items ≡ script_of plan.now c) }
{
    let mut text = Vec::new(alloc);
    for _ in 0..plan.lines {
        push_line(&mut text, plan, draws)?;
    }
    Ok(text)
}

// Opens a text that is in the grammar.
fn opened(alloc: Global, board: &Accepted, text: Vec<u8>) -> Result<Script, NoMemory>
    requires short { length text.items ≤ 2 ^ 28 }
    requires read { IsOk (script_read (script_on board.now text.items)) }
    ensures { IfOk result (IsOpened board.now text.items) }
{
    match Script::open(alloc, board, text) {
        Ok(script) => Ok(script),
        Err(ScriptFault::Memory) => Err(NoMemory),
        Err(ScriptFault::Bad { .. }) => unreachable!(),
    }
}

/// The scripts of all callers, opened over the board.
pub fn made_scripts(
    alloc: Global,
    plan: &Plan,
    board: &Accepted,
    draws: &mut Draws,
) -> Result<Vec<Script>, NoMemory>
    requires plan { IsPlan plan.now }
    requires board { board.now ≡ made_board plan.now.roots }
    requires first { draws.old.x ≡ plan.now.seed }
    ensures behind { OnOk result (draws.new.x ≡ number_behind plan.now.seed (5 * lines_in plan.now)) }
    ensures made { IfOk result (λ scripts. AreMade plan.now board.now scripts.items) }
{
    let mut scripts = Vec::with_capacity(alloc, usize::from(MOST_CALLERS))?;
    for _ in 0..MOST_CALLERS {
        let text = made_text(alloc, plan, draws)?;
        scripts.push_reserved(opened(alloc, board, text)?);
    }
    Ok(scripts)
}
