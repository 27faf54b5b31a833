//! Worked examples of the lines of drivers and handles, computed by the checker itself: each function has an empty body.

ghost use Rattle.std.specs.Prelude.{◌≡◌, true, Some, [], ◌∷◌, Ok, Err as Refused, codes, negsuc, pos};
ghost use Rattle.tools.specs.declared.command.Cmd.TheVariants.{Driver, Handle};
ghost use Rattle.tools.specs.declared.command.driver.DriverCmd.TheVariants.{At24Write, Lm75Write};
ghost use Rattle.tools.specs.declared.command.driver.lm75.RegName.TheVariants.{Hyst, Max};
ghost use Rattle.tools.specs.declared.command.handle.HandleCmd.TheVariants.{Bproc, Pec};
ghost use Rattle.tools.specs.Lines.{line_read};

/// A temperature is a number of half degrees, and one below 0 alone has a sign. The sensor's own isn't written.
pub fn a_temperature_is_half_degrees()
    ensures below { line_read 32 (codes "lm75 write 0 0x48 hyst -500")
        ≡ Ok (Some (Driver (Lm75Write (record { bus = 0; addr = 0x48; which = Hyst; milli = negsuc 499 })))) }
    ensures highest { line_read 32 (codes "lm75 write 0 0x48 max 127500")
        ≡ Ok (Some (Driver (Lm75Write (record { bus = 0; addr = 0x48; which = Max; milli = pos 127500 })))) }
    ensures higher { line_read 32 (codes "lm75 write 0 0x48 max 128000") ≡ Refused 5 }
    ensures zero { line_read 32 (codes "lm75 write 0 0x48 hyst -0") ≡ Refused 5 }
    ensures quarter { line_read 32 (codes "lm75 write 0 0x48 hyst 250") ≡ Refused 5 }
    ensures temp { line_read 32 (codes "lm75 write 0 0x48 temp 500") ≡ Refused 4 }
{}

/// A line that ends in bytes has one at least, and a byte is no more than 255.
pub fn bytes_end_a_line()
    ensures two { line_read 32 (codes "at24 write 0 0x50 4 1 0xff")
        ≡ Ok (Some (Driver (At24Write (record { bus = 0; addr = 0x50; offset = 4; bytes = 1 ∷ 255 ∷ [] })))) }
    ensures none { line_read 32 (codes "at24 write 0 0x50 4") ≡ Refused 5 }
    ensures large { line_read 32 (codes "at24 write 0 0x50 4 1 256") ≡ Refused 6 }
    ensures block { line_read 32 (codes "bproc 0 5 7") ≡ Ok (Some (Handle (Bproc 0 5 (7 ∷ [])))) }
{}

/// A handle is named by its number, which is 999 at most.
pub fn a_handle_has_its_number()
    ensures last { line_read 32 (codes "pec 999 on") ≡ Ok (Some (Handle (Pec 999 true))) }
    ensures past { line_read 32 (codes "pec 1000 on") ≡ Refused 1 }
    ensures word { line_read 32 (codes "pec 0 yes") ≡ Refused 2 }
{}
