//! What an analyser reads off the levels, as a law, and as worked examples that the checker computes itself. Each has an empty body.
ghost use Rattle.std.specs.Prelude.{◌≡◌, ◌++◌, [], ◌∷◌, true, false, reverse};
ghost use Rattle.i2c_spec.specs.Targets.RegsDevice.{regs_table};
ghost use Rattle.wire_spec.specs.Calls.{slow_stop};
ghost use Rattle.wire_spec.specs.Rows as row;
ghost use Rattle.bus_waves.specs.Readings.{Begun, Ended, took, reading, LevelsTellTheCalls};

/// The levels behind each step of recorded lines are read as what the calls on a port over them tell: each start with its address and
/// direction, each byte with the answer to it, and each stop; where no start was too slow.
pub fn the_levels_tell_the_calls()
    ensures { LevelsTellTheCalls }
{}

/// A read of register 5 of the device at 0x20 is read back from what is seen of each pull and look: the address byte and the register, a
/// repeated start, in whose rise one level stands, the address byte with the read bit, the byte, which isn't acknowledged, and a stop.
pub fn a_register_read_is_read_back()
    ensures { (reading (reverse (row.seen row.one_device
        (row.start ++ row.sends 0x40 ++ row.sends 5 ++ row.again ++ row.sends 0x41 ++ row.receives_last ++ row.stop)))).read
        ≡ Ended ∷ took 0x7e false ∷ took 0x41 true ∷ Begun ∷ took 5 true ∷ took 0x40 true ∷ Begun ∷ [] }
{}

/// A start that was too slow is read as one that was acknowledged, by every analyser: the controller pulls SDA for its stop while SCL is
/// still held, so that SCL rises in the ninth clock with SDA low.
pub fn a_start_that_was_too_slow_is_read_otherwise()
    ensures { (reading (slow_stop regs_table row.all_joined (row.addressed 0x40 (row.holding 66)).bus).1.seen).read
        ≡ Ended ∷ took 0x40 true ∷ Begun ∷ [] }
{}
