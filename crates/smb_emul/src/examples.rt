//! Worked examples, computed by the checker itself: each function has an empty body.

ghost use Rattle.std.specs.Prelude.{◌≡◌, ℕ, true, false, Ok, Err, List, [], ◌∷◌};
ghost use Rattle.std.specs.Borrow.{Bor};
ghost use Rattle.i2c_base.specs.Transfer.{written, plain_read, counted_read};
ghost use Rattle.i2c_base.specs.declared.reply.Reply.TheVariants.{Read};
ghost use Rattle.i2c_base.specs.declared.transfer.TransferKind.TheVariants.{Smbus};
ghost use Rattle.smb_emul.specs.Calls.{messages_of_call, value_of_call};
ghost use Rattle.smb_emul.specs.Value as value;
ghost use Rattle.smb_emul.specs.declared.call.SmbOp.TheVariants.{BlockProc, ReadByte, WriteWord};
ghost use Rattle.smb_emul.specs.declared.call.SmbFail.TheVariants.{Pec};

/// A register is read with an error code: one byte more is asked for.
pub fn a_coded_read_asks_for_one_byte_more()
    ensures { messages_of_call (record { bus = 0; addr = 0x20; force = false; pec = true; op = ReadByte 5 })
        ≡ record { bus = 0; kind = Smbus; force = false; msgs = written 0x20 1 ∷ plain_read 0x20 2 ∷ []; out = 5 ∷ [] } }
{}

/// The error code is of the bytes 0x40, 0x05, 0x41 and 0x7e: both address bytes are among them.
pub fn the_code_is_of_the_address_bytes_too()
    ensures { value_of_call (record { bus = 0; addr = 0x20; force = false; pec = true; op = ReadByte 5 }) (Read (0x7e ∷ 0x68 ∷ []))
        ≡ Ok (value.byte 0x7e) }
{}

/// A code that is off by one bit is refused, with both codes.
pub fn another_code_is_refused()
    ensures { value_of_call (record { bus = 0; addr = 0x20; force = false; pec = true; op = ReadByte 5 }) (Read (0x7e ∷ 0x69 ∷ []))
        ≡ Err (Pec 0x69 0x68) }
{}

/// A word goes low byte first.
pub fn a_word_goes_low_byte_first()
    ensures { messages_of_call (record { bus = 0; addr = 0x20; force = false; pec = false; op = WriteWord 5 0x1234 })
        ≡ record { bus = 0; kind = Smbus; force = false; msgs = written 0x20 3 ∷ []; out = 5 ∷ 0x34 ∷ 0x12 ∷ [] } }
{}

/// A block goes after its count, and comes after one, which isn't among its bytes.
pub fn a_block_has_its_count_before_it()
    ensures asked { (sent : Bor (List ℕ)) → sent.now ≡ 7 ∷ 8 ∷ []
        → messages_of_call (record { bus = 0; addr = 0x20; force = false; pec = false; op = BlockProc 5 sent })
        ≡ record { bus = 0; kind = Smbus; force = false; msgs = written 0x20 4 ∷ counted_read 0x20 false ∷ []; out = 5 ∷ 2 ∷ 7 ∷ 8 ∷ [] } }
    ensures value { (sent : Bor (List ℕ)) → sent.now ≡ 7 ∷ 8 ∷ []
        → value_of_call (record { bus = 0; addr = 0x20; force = false; pec = false; op = BlockProc 5 sent }) (Read (3 ∷ 9 ∷ 9 ∷ 9 ∷ []))
        ≡ Ok (value.block (9 ∷ 9 ∷ 9 ∷ [])) }
{}
