//! The runs of bytes that are written into a device's memory.
ghost use Rattle.std.specs.Prelude.{◌≡◌, ◌≤◌, ◌%◌, true, map, All, IfOk, codes};
ghost use Rattle.toml.specs.Data.{get_member};
ghost use Rattle.toml.specs.View.{view, table_view};
ghost use Rattle.i2c_spec.specs.Plain.{IsPlainRun};
ghost use Rattle.i2c_boardtext.specs.Cuts.{cut_byte, cut_run_of, cut_run, cut_runs_in};
ghost use Rattle.i2c_boardtext.specs.Items.{elements, number};
ghost use Rattle.i2c_boardtext.specs.Rules.{fits_if_there};
ghost use Rattle.i2c_boardtext.specs.Values.{runs_in};
ghost use Rattle.i2c_boardtext.specs.declared.rule.Test.TheVariants.{Runs};

use crate::find::{find, items, number};
use i2c_base::MemoryRun;
use std::alloc::{AllocError, Global};
use toml::{Table, Value};

fn byte(value: &Value) -> u8
    ensures { result ≡ cut_byte (view value.now) }
{
    (number(value) % 256) as u8
}

fn start(value: &Value) -> u16
    ensures { result ≡ number (view value.now) % 65536 }
{
    (number(value) % 65536) as u16
}

fn bytes_of(alloc: Global, values: &[Value]) -> Result<Vec<u8>, AllocError>
    ensures { IfOk result (λ bytes. bytes.items ≡ map cut_byte (map view values.now)) }
{
    let mut bytes = Vec::with_capacity(alloc, values.len())?;
    for value in values {
        bytes.push(byte(value))?;
    }
    Ok(bytes)
}

fn run_of(alloc: Global, values: &[Value]) -> Result<MemoryRun, AllocError>
    ensures { IfOk result (λ run. run ≡ cut_run_of (map view values.now)) }
{
    match values.split_first() {
        Some((first, bytes)) => {
            let bytes = bytes_of(alloc, bytes)?;
            Ok(MemoryRun {
                start: start(first),
                bytes,
            })
        }
        None => Ok(MemoryRun {
            start: 0,
            bytes: Vec::new(alloc),
        }),
    }
}

fn run(alloc: Global, value: &Value) -> Result<MemoryRun, AllocError>
    ensures { IfOk result (λ run. run ≡ cut_run (view value.now)) }
{
    match items(value) {
        Some(values) => run_of(alloc, values),
        None => Ok(MemoryRun {
            start: 0,
            bytes: Vec::new(alloc),
        }),
    }
}

fn runs_of(alloc: Global, values: &[Value]) -> Result<Vec<MemoryRun>, AllocError>
    ensures { IfOk result (λ runs. runs.items ≡ map cut_run (map view values.now)) }
{
    let mut runs = Vec::with_capacity(alloc, values.len())?;
    for value in values {
        runs.push(run(alloc, value)?)?;
    }
    Ok(runs)
}

fn runs_at(alloc: Global, value: &Value) -> Result<Vec<MemoryRun>, AllocError>
    ensures { IfOk result (λ runs. runs.items ≡ map cut_run (elements (view value.now))) }
{
    match items(value) {
        Some(values) => runs_of(alloc, values),
        None => Ok(Vec::new(alloc)),
    }
}

fn cut_runs(alloc: Global, table: &Table) -> Result<Vec<MemoryRun>, AllocError>
    ensures { IfOk result (λ runs. runs.items ≡ cut_runs_in (get_member (codes "set") (table_view table.now))) }
{
    match find(table, "set") {
        Some(value) => runs_at(alloc, value),
        None => Ok(Vec::new(alloc)),
    }
}

/// The runs that are written into a memory of this size.
pub fn runs(alloc: Global, table: &Table, size: u32) -> Result<Vec<MemoryRun>, AllocError>
    requires fits { fits_if_there (Runs size) (get_member (codes "set") (table_view table.now)) ≡ true }
    requires size { size ≤ 32768 }
    ensures value { IfOk result (λ runs. runs.items ≡ runs_in (get_member (codes "set") (table_view table.now))) }
    ensures plain { IfOk result (λ runs. All (IsPlainRun size) runs.items) }
{
    cut_runs(alloc, table)
}
