//! Worked examples, computed by the checker itself: each function has an empty body.

ghost use Rattle.std.specs.Prelude.{◌≡◌, ◌++◌, pos, negsuc, true, false, map, Some, None, [], ◌∷◌, codes, replicate};
ghost use Rattle.i2c_base.specs.Transfer.{written, plain_read};
ghost use Rattle.i2c_base.specs.declared.board.Size.TheVariants.{C02};
ghost use Rattle.i2c_base.specs.declared.errno.Errno.TheVariants.{Ebusy, Einval, Eio, Enodev, Enxio};
ghost use Rattle.i2c_base.specs.declared.reply.Reply.TheVariants.{Done, Read, Err};
ghost use Rattle.i2c_base.specs.declared.transfer.TransferKind.TheVariants.{Plain, Smbus};
ghost use Rattle.smb_emul.specs.Calls.{messages_of_call};
ghost use Rattle.tools.specs.Dialogues.{place_after, is_over};
ghost use Rattle.i2c_drivers.specs.At24.{read_run, eeprom_write_run};
ghost use Rattle.i2c_drivers.specs.Bound.{eeprom_at, sensor_at, sensors_of};
ghost use Rattle.i2c_drivers.specs.Examples as example;
ghost use Rattle.i2c_drivers.specs.Lm75.{milli_of, raw_of, register_reads, sensor_read_run, sensor_write_run, swapped, write_call};
ghost use Rattle.i2c_drivers.specs.Sensors.{senses};
ghost use Rattle.i2c_drivers.specs.declared.at24.At24Run.TheVariants.{Reads, Writes, Refused};
ghost use Rattle.i2c_drivers.specs.declared.lm75.Lm75Run.TheVariants.{Refused as NoSensor, Writes as WritesRegister};
ghost use Rattle.tools.specs.declared.command.driver.lm75.RegName.TheVariants.{Temp, Hyst, Max};

/// Nine bytes from place 4 on of pages of 8 are pieces of 4 and 5, and three from place 62 on of pages of 64 are pieces of 2 and 1.
pub fn a_write_stops_at_the_ends_of_pages()
    ensures places { example.nine_bytes.places ≡ 16 }
    ensures first { example.nine_bytes.at 0
        ≡ record { bus = 0; kind = Plain; force = true; msgs = written 0x50 5 ∷ []; out = 4 ∷ 1 ∷ 2 ∷ 3 ∷ 4 ∷ [] } }
    ensures second { example.nine_bytes.at 8
        ≡ record { bus = 0; kind = Plain; force = true; msgs = written 0x50 6 ∷ []; out = 8 ∷ 5 ∷ 6 ∷ 7 ∷ 8 ∷ 9 ∷ [] } }
    ensures wide { example.three_bytes.at 0
        ≡ record { bus = 0; kind = Plain; force = true; msgs = written 0x50 4 ∷ []; out = 0 ∷ 62 ∷ 7 ∷ 8 ∷ [] } }
    ensures wide_second { example.three_bytes.at 8
        ≡ record { bus = 0; kind = Plain; force = true; msgs = written 0x50 3 ∷ []; out = 0 ∷ 64 ∷ 9 ∷ [] } }
    ensures wide_places { example.three_bytes.places ≡ 16 }
{}

/// 128 bytes are one piece, and 129 are two, of which the second has one byte.
pub fn a_read_has_pieces_of_128()
    ensures one { (example.read_of 128).places ≡ 8 }
    ensures two { (example.read_of 129).places ≡ 16 }
    ensures first { (example.read_of 129).at 7
        ≡ record { bus = 0; kind = Plain; force = true; msgs = written 0x50 2 ∷ plain_read 0x50 128 ∷ []; out = 3 ∷ 232 ∷ [] } }
    ensures second { (example.read_of 129).at 8
        ≡ record { bus = 0; kind = Plain; force = true; msgs = written 0x50 2 ∷ plain_read 0x50 1 ∷ []; out = 4 ∷ 104 ∷ [] } }
{}

/// The last byte of 256 may be read, and one past it not; where no bound EEPROM stands, that is told before.
pub fn a_read_ends_with_the_chip()
    ensures last { read_run example.two_buses 0 0x50 255 1
        ≡ Reads (record { of = record { bus = 0; addr = 0x50; size = C02 }; offset = 255; count = 1 }) }
    ensures past { read_run example.two_buses 0 0x50 255 2 ≡ Refused Einval }
    ensures behind { eeprom_write_run example.two_buses 0 0x50 256 (7 ∷ []) ≡ Refused Einval }
    ensures nobody { read_run example.two_buses 0 0x52 255 2 ≡ Refused Enodev }
{}

/// A driver is bound to devices of its own bus: neither one that stands on the bus above is found, nor one that is not bound.
pub fn only_a_bound_device_of_the_bus_is_found()
    ensures eeprom { eeprom_at example.two_buses 0 0x50 ≡ Some C02 }
    ensures above { eeprom_at example.two_buses 1 0x50 ≡ None }
    ensures unbound { eeprom_at example.two_buses 0 0x51 ≡ None }
    ensures sensor { sensor_at example.two_buses 1 0x49 ≡ true }
    ensures below { sensor_at example.two_buses 0 0x49 ≡ false }
    ensures other_kind { sensor_at example.two_buses 0 0x50 ≡ false }
    ensures refused { sensor_read_run example.two_buses 1 0x4a Temp ≡ NoSensor Enodev }
{}

/// A piece is tried eight times: after seven refusals stands its eighth try, and after the eighth nothing, which is told as ETIMEDOUT.
pub fn the_eighth_refusal_is_the_last()
    ensures seven { place_after example.nine_bytes (replicate 7 (Err Enxio)) ≡ 7 }
    ensures eight { is_over example.nine_bytes (place_after example.nine_bytes (replicate 8 (Err Enxio))) ≡ true }
    ensures told { example.nine_bytes.lines (replicate 8 (Err Enxio)) ≡ codes "ETIMEDOUT" ∷ [] }
    ensures read { (example.read_of 129).lines (Read (replicate 128 0) ∷ replicate 8 (Err Enxio)) ≡ codes "ETIMEDOUT" ∷ [] }
{}

/// Each piece has eight tries of its own, however many the one before took.
pub fn the_tries_begin_anew_at_each_piece()
    ensures next { place_after example.nine_bytes (replicate 3 (Err Enxio) ++ Done ∷ []) ≡ 8 }
    ensures late { place_after example.nine_bytes (replicate 7 (Err Enxio) ++ Done ∷ []) ≡ 8 }
    ensures more { place_after example.nine_bytes (replicate 7 (Err Enxio) ++ Done ∷ replicate 7 (Err Enxio)) ≡ 15 }
    ensures over { is_over example.nine_bytes (place_after example.nine_bytes (Done ∷ Err Enxio ∷ Done ∷ [])) ≡ true }
    ensures told { example.nine_bytes.lines (Done ∷ Err Enxio ∷ Done ∷ []) ≡ codes "ok" ∷ [] }
{}

/// Another error ends it at once, and is told alone.
pub fn another_error_is_not_tried_again()
    ensures over { is_over example.nine_bytes (place_after example.nine_bytes (Err Eio ∷ [])) ≡ true }
    ensures told { example.nine_bytes.lines (Done ∷ Err Eio ∷ []) ≡ codes "EIO" ∷ [] }
    ensures read { (example.read_of 129).lines (Read (replicate 128 0) ∷ Err Ebusy ∷ []) ≡ codes "EBUSY" ∷ [] }
{}

/// Sixteen bytes stand on a line, whatever reply brought them.
pub fn sixteen_bytes_stand_on_a_line()
    ensures one { (example.read_of 16).lines (Read (replicate 4 0xff ++ 1 ∷ 2 ∷ 3 ∷ 4 ∷ 5 ∷ 6 ∷ 7 ∷ 8 ∷ 9 ∷ replicate 3 0xff) ∷ [])
        ≡ codes "ff ff ff ff 01 02 03 04 05 06 07 08 09 ff ff ff" ∷ [] }
    ensures two { (example.read_of 17).lines (Err Enxio ∷ Read (replicate 16 0) ∷ Err Enxio ∷ Read (0x1f ∷ []) ∷ [])
        ≡ codes "00 00 00 00 00 00 00 00 00 00 00 00 00 00 00 00" ∷ codes "1f" ∷ [] }
{}

/// A register is a signed number of which 128 are half a degree, and is rounded down.
pub fn a_register_is_half_degrees()
    ensures warm { milli_of 0x1900 ≡ pos 25000 }
    ensures cold { milli_of 0xff80 ≡ negsuc 499 }
    ensures rounded { milli_of 0xffff ≡ negsuc 499 }
    ensures highest { milli_of 0x7f80 ≡ pos 127500 }
    ensures lowest { milli_of 0x8000 ≡ negsuc 127999 }
    ensures raw { map raw_of (pos 25000 ∷ negsuc 499 ∷ pos 127500 ∷ negsuc 127999 ∷ []) ≡ 0x1900 ∷ 0xff80 ∷ 0x7f80 ∷ 0x8000 ∷ [] }
{}

/// The high byte of a register comes and goes first, which is the low byte of a word of SMBus.
pub fn a_register_goes_high_byte_first()
    ensures read { (register_reads (record { bus = 0; addr = 0x48 }) Temp).lines (Read (0x19 ∷ 0x00 ∷ []) ∷ []) ≡ codes "25000" ∷ [] }
    ensures cold { (register_reads (record { bus = 0; addr = 0x48 }) Temp).lines (Read (0xff ∷ 0x80 ∷ []) ∷ []) ≡ codes "-500" ∷ [] }
    ensures error { (register_reads (record { bus = 0; addr = 0x48 }) Temp).lines (Err Enxio ∷ []) ≡ codes "ENXIO" ∷ [] }
    ensures word { swapped (raw_of (negsuc 499)) ≡ 0x80ff }
    ensures write { messages_of_call (write_call (record { bus = 0; addr = 0x48 }) Max 0x80ff)
        ≡ record { bus = 0; kind = Smbus; force = true; msgs = written 0x48 3 ∷ []; out = 3 ∷ 0xff ∷ 0x80 ∷ [] } }
    ensures run { sensor_write_run example.two_buses 0 0x48 Hyst (negsuc 499)
        ≡ WritesRegister (record { bus = 0; addr = 0x48 }) Hyst 0x80ff }
{}

/// The sensors are read in file order, each on a line of its own. Where there is none, nothing is asked for and nothing printed.
pub fn sensors_are_read_in_file_order()
    ensures found { sensors_of example.two_buses ≡ record { bus = 1; addr = 0x49 } ∷ record { bus = 0; addr = 0x48 } ∷ [] }
    ensures lines { (senses (sensors_of example.two_buses)).lines (Err Eio ∷ Read (0x19 ∷ 0x00 ∷ []) ∷ [])
        ≡ codes "1-0049 EIO" ∷ codes "0-0048 25000" ∷ [] }
    ensures goes_on { place_after (senses (sensors_of example.two_buses)) (Err Eio ∷ []) ≡ 1 }
    ensures none { (senses []).places ≡ 0 }
    ensures nothing { (senses []).lines [] ≡ [] }
{}
