//! Worked examples, computed by the checker itself: each function has an empty body, and its clauses are what an analyser on
//! the wires sees, after the figures of UM10204 section 3.1.
ghost use Rattle.std.specs.Prelude.{◌≡◌, ◌++◌, [], ◌∷◌, true, false, replicate, take};
ghost use Rattle.i2c_spec.specs.Targets.RegsDevice.{Idle};
ghost use Rattle.wire_spec.specs.Wires.{bits};
ghost use Rattle.wire_spec.specs.Rows as row;

/// A read of register 5, which has 0x7e, of the device at 0x20: the address byte 0x40 and the register, each acknowledged; a
/// repeated start, before which SCL rises once; the address byte 0x41, the byte, which the controller doesn't acknowledge; and
/// a stop, before which SCL rises once. That is 9 + 9 + 1 + 9 + 9 + 1 rises, two starts and a stop.
pub fn a_register_read_has_38_rises()
    ensures seen { row.seen row.one_device
        (row.start ++ row.sends 0x40 ++ row.sends 5 ++ row.again ++ row.sends 0x41 ++ row.receives_last ++ row.stop)
        ≡ row.Started ∷ row.rises (0 ∷ 1 ∷ 0 ∷ 0 ∷ 0 ∷ 0 ∷ 0 ∷ 0 ∷ 0 ∷ [])
        ++ row.rises (0 ∷ 0 ∷ 0 ∷ 0 ∷ 0 ∷ 1 ∷ 0 ∷ 1 ∷ 0 ∷ [])
        ++ row.rises (1 ∷ []) ++ row.Started ∷ row.rises (0 ∷ 1 ∷ 0 ∷ 0 ∷ 0 ∷ 0 ∷ 0 ∷ 1 ∷ 0 ∷ [])
        ++ row.rises (0 ∷ 1 ∷ 1 ∷ 1 ∷ 1 ∷ 1 ∷ 1 ∷ 0 ∷ 1 ∷ [])
        ++ row.rises (0 ∷ []) ++ row.Stopped ∷ [] }
    ensures read { (row.read_behind 0x41 (row.pointed 0x40 5 row.one_device)).read ≡ 0x7e }
    ensures counts { row.stopped (row.read_behind 0x41 (row.pointed 0x40 5 row.one_device)).bus ≡ row.counted 38 3 }
{}

/// Two devices at one address send at once, 0xf3 and 0x3f: SDA is a wired AND, so 0x33 is read (UM10204 section 3.1.1).
pub fn two_that_send_at_once_are_read_as_their_and()
    ensures { row.seen row.two_devices (row.start ++ row.sends 0x41 ++ row.receives_last ++ row.stop)
        ≡ row.Started ∷ row.rises (0 ∷ 1 ∷ 0 ∷ 0 ∷ 0 ∷ 0 ∷ 0 ∷ 1 ∷ 0 ∷ [])
        ++ row.rises (0 ∷ 0 ∷ 1 ∷ 1 ∷ 0 ∷ 0 ∷ 1 ∷ 1 ∷ 1 ∷ [])
        ++ row.rises (0 ∷ []) ++ row.Stopped ∷ [] }
{}

/// A device that holds the clock for 64 looks lets SCL rise at the 64th, with SDA low, so that the 65th finds it high.
pub fn a_clock_is_held_for_64_looks()
    ensures held { row.seen (row.holding 64) (row.start ++ row.clocks_of (bits 8 0x40) ++ row.let_go ++ replicate 63 row.Look)
        ≡ row.Started ∷ row.rises (0 ∷ 1 ∷ 0 ∷ 0 ∷ 0 ∷ 0 ∷ 0 ∷ 0 ∷ []) }
    ensures risen { row.seen (row.holding 64) (row.start ++ row.clocks_of (bits 8 0x40) ++ row.let_go ++ replicate 64 row.Look)
        ≡ row.Started ∷ row.rises (0 ∷ 1 ∷ 0 ∷ 0 ∷ 0 ∷ 0 ∷ 0 ∷ 0 ∷ 0 ∷ []) }
    ensures up { (row.addressed 0x40 (row.holding 64)).up ≡ true }
    ensures counts { row.counts_of (row.addressed 0x40 (row.holding 64)).bus.seen ≡ row.counted 9 1 }
{}

/// One that holds it for 65 looks is too slow, though SCL rises at the last of them; then the controller's stop is seen as a
/// start and a stop. One that holds it for longer lets SCL rise within the stop.
pub fn a_clock_that_is_held_for_65_looks_is_given_up()
    ensures up { (row.addressed 0x40 (row.holding 65)).up ≡ false }
    ensures counts { row.counts_of (row.addressed 0x40 (row.holding 65)).bus.seen ≡ row.counted 9 1 }
    ensures stopped { row.slow_stopped (row.addressed 0x40 (row.holding 65)).bus ≡ row.counted 9 3 }
    ensures longer { row.counts_of (row.addressed 0x40 (row.holding 66)).bus.seen ≡ row.counted 8 1 }
    ensures risen { row.slow_stopped (row.addressed 0x40 (row.holding 66)).bus ≡ row.counted 9 2 }
{}

/// Nobody is at 0x21: SDA stays high in the acknowledge clock (UM10204 section 3.1.6).
pub fn a_start_that_nobody_acknowledges()
    ensures { row.seen row.one_device (row.start ++ row.sends 0x42 ++ row.stop)
        ≡ row.Started ∷ row.rises (0 ∷ 1 ∷ 0 ∷ 0 ∷ 0 ∷ 0 ∷ 1 ∷ 0 ∷ 1 ∷ [])
        ++ row.rises (0 ∷ []) ++ row.Stopped ∷ [] }
{}

/// A stop after five bits of a register's number, 0xa8: the device keeps its pointer, which the whole byte would set.
pub fn a_byte_that_is_cut_after_five_bits_is_no_byte()
    ensures seen { row.seen (row.holding 0) (row.start ++ row.sends 0x40 ++ row.clocks_of (take 5 (bits 8 0xa8)) ++ row.stop)
        ≡ row.Started ∷ row.rises (0 ∷ 1 ∷ 0 ∷ 0 ∷ 0 ∷ 0 ∷ 0 ∷ 0 ∷ 0 ∷ [])
        ++ row.rises (1 ∷ 0 ∷ 1 ∷ 0 ∷ 1 ∷ []) ++ row.rises (0 ∷ []) ++ row.Stopped ∷ [] }
    ensures kept { row.states_on (row.done_all (row.holding 0) (row.start ++ row.sends 0x40 ++ row.clocks_of (take 5 (bits 8 0xa8)) ++ row.stop))
        ≡ (record { phase = Idle; pointer = 0; memory = []; hold = 0 }) ∷ [] }
    ensures whole { row.states_on (row.done_all (row.holding 0) (row.start ++ row.sends 0x40 ++ row.sends 0xa8 ++ row.stop))
        ≡ (record { phase = Idle; pointer = 0xa8; memory = []; hold = 0 }) ∷ [] }
{}
