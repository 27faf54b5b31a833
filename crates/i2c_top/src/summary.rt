//! The summary of a generated run: its plan, and what its journal comes to.
ghost use Rattle.std.specs.Prelude.{◌≡◌, ◌++◌, OnOk, IfOk};
ghost use Rattle.i2c_top.specs.forms.Generations.{plan_line, counted_line, tally_text, summary_of};

use bus_journal::{Journal, Tally, push_bytes, push_number, tally_of};
use i2c_base::NoMemory;
use i2c_gen::Plan;
use std::alloc::Global;

fn push_plan(out: &mut Vec<u8>, plan: &Plan) -> Result<(), NoMemory>
    ensures { OnOk result (out.new.items ≡ out.old.items ++ plan_line plan.now) }
{
    push_bytes(out, b"gen seed ")?;
    push_number(out, plan.seed)?;
    push_bytes(out, b" roots ")?;
    push_number(out, u64::from(plan.roots))?;
    push_bytes(out, b" lines ")?;
    push_number(out, u64::from(plan.lines))?;
    push_bytes(out, b"\n")
}

// A line of what is counted, and how often.
fn push_counted(out: &mut Vec<u8>, what: &[u8], count: u64) -> Result<(), NoMemory>
    ensures { OnOk result (out.new.items ≡ out.old.items ++ counted_line what.now count) }
{
    push_bytes(out, what)?;
    push_number(out, count)?;
    push_bytes(out, b"\n")
}

fn push_tally(out: &mut Vec<u8>, tally: &Tally) -> Result<(), NoMemory>
    ensures { OnOk result (out.new.items ≡ out.old.items ++ tally_text tally.now) }
{
    push_counted(out, b"transfers ", tally.transfers)?;
    push_counted(out, b"messages ", tally.messages)?;
    push_counted(out, b"locks ", tally.locks)?;
    push_counted(out, b"errors ", tally.errors)?;
    push_counted(out, b"bytes ", tally.bytes)
}

/// The six lines of a plan whose run has this journal.
pub fn summary_of(alloc: Global, plan: &Plan, journal: &Journal) -> Result<Vec<u8>, NoMemory>
    ensures { IfOk result (λ text. text.items ≡ summary_of plan.now journal.now.entries) }
{
    let mut out = Vec::new(alloc);
    push_plan(&mut out, plan)?;
    push_tally(&mut out, &tally_of(journal))?;
    Ok(out)
}
