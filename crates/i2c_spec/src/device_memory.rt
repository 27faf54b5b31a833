//! What the memory of a device is at the opening: its size, its pages, and what its board sets.

ghost use Rattle.std.specs.Prelude.{◌≡◌, ◌+◌, ◌≤◌, All, length};
ghost use Rattle.i2c_spec.specs.Targets.EepromDevice.{size_of_eeprom, page_of_eeprom, is_wide};
ghost use Rattle.i2c_spec.specs.Plain.{IsPlainRun};
ghost use Rattle.i2c_spec.specs.Targets.RegsDevice.{write_run, write_runs};

use i2c_base::{MemoryRun, Size};

/// How many bytes an EEPROM of this size has.
pub fn eeprom_bytes(size: Size) -> u16
    ensures { result ≡ size_of_eeprom size }
{
    match size {
        Size::C02 => 256,
        Size::C32 => 4096,
        Size::C256 => 32768,
    }
}

/// How many places each of its pages has.
pub fn eeprom_page(size: Size) -> u8
    ensures { result ≡ page_of_eeprom size }
{
    match size {
        Size::C02 => 8,
        Size::C32 => 32,
        Size::C256 => 64,
    }
}

/// Its places have addresses of two bytes.
pub fn is_wide(size: Size) -> bool
    ensures { result ≡ is_wide size }
{
    match size {
        Size::C02 => false,
        Size::C32 | Size::C256 => true,
    }
}

/// Writes these runs, one after the other.
pub fn write_runs(memory: &mut [u8], runs: &[MemoryRun])
    requires { All (IsPlainRun (length memory.old)) runs.now }
    ensures { memory.new ≡ write_runs memory.old runs.now }
{
    for run in runs {
        write_run(memory, run);
    }
}

/// Writes the bytes of a run at its place.
fn write_run(memory: &mut [u8], run: &MemoryRun)
    requires { run.now.start + length run.now.bytes ≤ length memory.old }
    ensures { memory.new ≡ write_run memory.old run.now }
{
    let start = usize::from(run.start);
    memory[start..start + run.bytes.len()].copy_from_slice(&run.bytes);
}
