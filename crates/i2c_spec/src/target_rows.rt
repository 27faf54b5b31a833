//! Worked examples of the targets' tables, computed by the checker itself: each function has an empty body, and its clause
//! is what each event is answered.

ghost use Rattle.std.specs.Prelude.{◌≡◌, [], ◌∷◌, ◌++◌, true, false};
ghost use Rattle.i2c_base.specs.declared.event.Event.TheVariants as event;
ghost use Rattle.i2c_base.specs.declared.event.Answer.TheVariants as answer;
ghost use Rattle.i2c_base.specs.declared.board.Size.TheVariants.{C02, C32};
ghost use Rattle.i2c_spec.specs.Targets.EepromDevice.{eeprom_table, eeprom_opening};
ghost use Rattle.i2c_spec.specs.Targets.Lm75Device.{lm75_table, lm75_opening};
ghost use Rattle.i2c_spec.specs.Targets.RegsDevice.{regs_table, regs_opening};
ghost use Rattle.i2c_spec.specs.TargetRows.{answered, writes, reads, acks, gives};

/// Three bytes from place 6 of a page of eight on: the third comes to the page's start (Microchip 24LC02B, page write).
pub fn a_page_write_wraps_in_its_page()
    ensures { answered eeprom_table (eeprom_opening C02 255 0 false [])
        (writes (6 ∷ 1 ∷ 2 ∷ 3 ∷ []) ++ event.Stop ∷ writes (0 ∷ []) ++ reads 7)
        ≡ acks 5 ++ answer.Nothing ∷ acks 2 ++ gives (3 ∷ 255 ∷ 255 ∷ 255 ∷ 255 ∷ 255 ∷ 1 ∷ 2 ∷ []) }
{}

/// A repeated start comes before the stop, so that the byte that waits is dropped.
pub fn a_byte_waits_for_the_stop()
    ensures { answered eeprom_table (eeprom_opening C02 255 0 false []) (writes (6 ∷ 1 ∷ []) ++ writes (6 ∷ []) ++ reads 0)
        ≡ acks 5 ++ gives (255 ∷ []) }
{}

/// Two starts are refused after a write, and none after a message that writes nothing (acknowledge polling).
pub fn a_busy_eeprom_refuses_starts()
    ensures { answered eeprom_table (eeprom_opening C02 255 2 false [])
        (writes (6 ∷ 1 ∷ []) ++ event.Stop ∷ event.Start false ∷ event.Start true ∷ writes (6 ∷ []) ++ event.Stop ∷ reads 0)
        ≡ acks 3 ++ answer.Nothing ∷ answer.Nack ∷ answer.Nack ∷ acks 2 ++ answer.Nothing ∷ gives (1 ∷ []) }
{}

/// A protected EEPROM refuses a byte for its memory, and keeps its own.
pub fn a_protected_byte_is_refused()
    ensures { answered eeprom_table (eeprom_opening C02 255 2 true [])
        (writes (6 ∷ 1 ∷ []) ++ event.Stop ∷ writes (6 ∷ []) ++ reads 0)
        ≡ acks 2 ++ answer.Nack ∷ answer.Nothing ∷ acks 2 ++ gives (255 ∷ []) }
{}

/// The place of a byte in a wide EEPROM: the high byte comes first. A read goes on over the page's end.
pub fn the_high_byte_of_a_place_comes_first()
    ensures { answered eeprom_table (eeprom_opening C32 255 0 false ((record { start = 0x11f; bytes = 7 ∷ 8 ∷ [] }) ∷ []))
        (writes (0x01 ∷ 0x1f ∷ []) ++ reads 1)
        ≡ acks 3 ++ gives (7 ∷ 8 ∷ []) }
{}

/// A read goes on from the last byte of the memory to the first.
pub fn a_read_wraps_at_the_end_of_memory()
    ensures { answered eeprom_table (eeprom_opening C02 255 0 false ((record { start = 0; bytes = 7 ∷ [] }) ∷ [])) (writes (255 ∷ []) ++ reads 1)
        ≡ acks 2 ++ gives (255 ∷ 7 ∷ []) }
{}

/// A limit of 26.5 degrees: of the low byte only bit 7 is kept, and further bytes change nothing.
pub fn the_low_byte_of_a_limit_keeps_its_highest_bit()
    ensures { answered lm75_table (lm75_opening 0) (writes (3 ∷ 0x1a ∷ 0xff ∷ 0x55 ∷ []) ++ reads 2)
        ≡ acks 5 ++ gives (0x1a ∷ 0x80 ∷ 0x1a ∷ []) }
{}

/// The temperature isn't written, and each read begins at its high byte.
pub fn each_read_of_an_lm75_begins_at_the_high_byte()
    ensures { answered lm75_table (lm75_opening 0x19ff) (writes (0 ∷ 1 ∷ 2 ∷ []) ++ reads 0 ++ reads 1)
        ≡ acks 4 ++ gives (0x19 ∷ []) ++ gives (0x19 ∷ 0x80 ∷ []) }
{}

/// A register device that holds the clock for too long is slow, and takes no byte.
pub fn a_long_hold_is_slow()
    ensures { answered regs_table (regs_opening 65 []) (writes (5 ∷ []) ++ event.Stop ∷ [])
        ≡ answer.Slow ∷ answer.Nack ∷ answer.Nothing ∷ [] }
{}
