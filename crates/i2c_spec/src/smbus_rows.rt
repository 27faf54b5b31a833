//! Worked examples of the table of the SMBus device, computed by the checker itself: each function has an empty body, and its
//! clauses are what each event is answered, once where a rule is kept and once where it is broken.

ghost use Rattle.std.specs.Prelude.{◌≡◌, [], ◌∷◌, ◌++◌, bit_xor};
ghost use Rattle.i2c_base.specs.declared.event.Event.TheVariants as event;
ghost use Rattle.i2c_base.specs.declared.event.Answer.TheVariants as answer;
ghost use Rattle.i2c_spec.specs.Targets.SmbusDevice.{smbus_table, smbus_opening};
ghost use Rattle.i2c_spec.specs.TargetRows.{answered, writes, reads, acks, gives};
ghost use Rattle.smb_pec.specs.LongDivision.{pec};

/// A word is written at the stop, and one byte of it isn't.
pub fn data_take_effect_where_they_are_whole()
    ensures kept { answered smbus_table (smbus_opening 0x20 2 0 []) (writes (5 ∷ 7 ∷ 8 ∷ []) ++ event.Stop ∷ writes (5 ∷ []) ++ reads 1)
        ≡ acks 4 ++ answer.Nothing ∷ acks 2 ++ gives (7 ∷ 8 ∷ []) }
    ensures broken { answered smbus_table (smbus_opening 0x20 2 0 []) (writes (5 ∷ 7 ∷ []) ++ event.Stop ∷ writes (5 ∷ []) ++ reads 1)
        ≡ acks 3 ++ answer.Nothing ∷ acks 2 ++ gives (0 ∷ 0 ∷ []) }
{}

/// The error code of a write is of its address byte too; with another one nothing is written (SMBus 3.2, section 6.4).
pub fn the_code_of_a_write_is_of_its_address_too()
    ensures kept { answered smbus_table (smbus_opening 0x20 1 0 [])
        (writes (5 ∷ 7 ∷ pec (0x40 ∷ 5 ∷ 7 ∷ []) ∷ []) ++ event.Stop ∷ writes (5 ∷ []) ++ reads 0)
        ≡ acks 4 ++ answer.Nothing ∷ acks 2 ++ gives (7 ∷ []) }
    ensures broken { answered smbus_table (smbus_opening 0x20 1 0 [])
        (writes (5 ∷ 7 ∷ pec (5 ∷ 7 ∷ []) ∷ []) ++ event.Stop ∷ writes (5 ∷ []) ++ reads 0)
        ≡ acks 3 ++ answer.Nack ∷ answer.Nothing ∷ acks 2 ++ gives (0 ∷ []) }
{}

/// Nothing follows on the error code of a write.
pub fn the_code_of_a_write_is_its_last_byte()
    ensures { answered smbus_table (smbus_opening 0x20 1 0 [])
        (writes (5 ∷ 7 ∷ pec (0x40 ∷ 5 ∷ 7 ∷ []) ∷ 0 ∷ []) ++ event.Stop ∷ writes (5 ∷ []) ++ reads 0)
        ≡ acks 4 ++ answer.Nack ∷ answer.Nothing ∷ acks 2 ++ gives (0 ∷ []) }
{}

/// Where a read follows by a repeated start the data are written before it, and where a write follows they are dropped.
pub fn a_read_that_follows_lets_data_take_effect()
    ensures kept { answered smbus_table (smbus_opening 0x20 1 0 []) (writes (5 ∷ 7 ∷ []) ++ reads 0)
        ≡ acks 3 ++ gives (7 ∷ []) }
    ensures broken { answered smbus_table (smbus_opening 0x20 1 0 []) (writes (5 ∷ 7 ∷ []) ++ writes (5 ∷ []) ++ reads 0)
        ≡ acks 5 ++ gives (0 ∷ []) }
{}

/// A start for another target drops the data.
pub fn a_start_for_another_drops_the_data()
    ensures { answered smbus_table (smbus_opening 0x20 1 0 [])
        (writes (5 ∷ 7 ∷ []) ++ event.Other ∷ event.Stop ∷ writes (5 ∷ []) ++ reads 0)
        ≡ acks 3 ++ answer.Nothing ∷ answer.Nothing ∷ acks 2 ++ gives (0 ∷ []) }
{}

/// The count of a block says how many bytes follow it; a block of which one is missing isn't written (SMBus 3.2, section 6.5.7).
pub fn a_count_says_how_many_bytes_follow()
    ensures kept { answered smbus_table (smbus_opening 0x20 0 0 []) (writes (5 ∷ 2 ∷ 8 ∷ 9 ∷ []) ++ reads 2)
        ≡ acks 5 ++ gives (2 ∷ 8 ∷ 9 ∷ []) }
    ensures broken { answered smbus_table (smbus_opening 0x20 0 0 []) (writes (5 ∷ 2 ∷ 8 ∷ []) ++ reads 0)
        ≡ acks 4 ++ gives (0 ∷ []) }
{}

/// A block of no byte is whole with its count, so that what follows is an error code.
pub fn a_block_of_no_byte_is_its_count()
    ensures kept { answered smbus_table (smbus_opening 0x20 0 0 []) (writes (5 ∷ 0 ∷ pec (0x40 ∷ 5 ∷ 0 ∷ []) ∷ []))
        ≡ acks 4 }
    ensures broken { answered smbus_table (smbus_opening 0x20 0 0 []) (writes (5 ∷ 0 ∷ 1 ∷ []))
        ≡ acks 3 ++ answer.Nack ∷ [] }
{}

/// The error code follows on the data that are read, and is of every byte from the first address byte on; what is read
/// after it is no data. A device can be opened so that its error codes are wrong.
pub fn the_code_follows_on_what_is_read()
    ensures kept { answered smbus_table (smbus_opening 0x20 1 0 ((record { start = 5; bytes = 0x7e ∷ [] }) ∷ [])) (writes (5 ∷ []) ++ reads 2)
        ≡ acks 2 ++ gives (0x7e ∷ pec (0x40 ∷ 5 ∷ 0x41 ∷ 0x7e ∷ []) ∷ 255 ∷ []) }
    ensures broken { answered smbus_table (smbus_opening 0x20 1 3 ((record { start = 5; bytes = 0x7e ∷ [] }) ∷ [])) (writes (5 ∷ []) ++ reads 1)
        ≡ acks 2 ++ gives (0x7e ∷ bit_xor (pec (0x40 ∷ 5 ∷ 0x41 ∷ 0x7e ∷ [])) 3 ∷ []) }
{}

/// After a stop the error code begins anew, and the command stays.
pub fn the_code_begins_anew_after_a_stop()
    ensures { answered smbus_table (smbus_opening 0x20 1 0 ((record { start = 5; bytes = 0x7e ∷ [] }) ∷ []))
        (writes (5 ∷ []) ++ event.Stop ∷ reads 1)
        ≡ acks 2 ++ answer.Nothing ∷ gives (0x7e ∷ pec (0x41 ∷ 0x7e ∷ []) ∷ []) }
{}

/// Data go on from the last register to the first, written and read.
pub fn data_go_on_at_the_first_register()
    ensures { answered smbus_table (smbus_opening 0x20 2 0 []) (writes (255 ∷ 7 ∷ 8 ∷ []) ++ reads 1 ++ event.Stop ∷ writes (0 ∷ []) ++ reads 0)
        ≡ acks 4 ++ gives (7 ∷ 8 ∷ []) ++ answer.Nothing ∷ acks 2 ++ gives (8 ∷ []) }
{}
