//! Laws of a cut read and bus clear, and worked examples, each on a function that does nothing.
ghost use Rattle.std.specs.Prelude.{◌≡◌, ◌≤◌, ℕ, true, false, [], ◌∷◌, Ok, Err};
ghost use Rattle.i2c_base.specs.Board.{BoardView};
ghost use Rattle.i2c_base.specs.declared.board.DeviceKind.TheVariants as kind;
ghost use Rattle.i2c_base.specs.declared.board.Size.TheVariants.{C02};
ghost use Rattle.i2c_base.specs.declared.errno.Errno.TheVariants.{Enxio, Etimedout};
ghost use Rattle.i2c_spec.specs.World.{World, opening_world};
ghost use Rattle.bus_clear.specs.Cuts.{RISES, ArePulses, IsQuietWorld, level_at, pulses_of};
ghost use Rattle.bus_clear.specs.Rows as row;

use i2c_spec::openings_are_quiet;

/// The pulses of a cut are the least number of rises from the cut on to one where SDA is high: nine at most.
pub fn the_pulses_are_the_least()
    ensures { (w : World) (addr cut : ℕ) → 1 ≤ cut → cut ≤ RISES → ArePulses (level_at w addr) cut (pulses_of w addr cut) }
{}

/// As a board is opened, starts for others and stops leave every target of a root as it is.
pub fn an_opening_world_is_quiet()
    ensures { (b : BoardView) (r : ℕ) → IsQuietWorld (opening_world b r) }
{
    openings_are_quiet();
}

/// A register device at 0x20 with 0x00 and 0x7e in its first two registers. A cut in the address byte finds SDA high; one in the
/// acknowledge finds it low, and all eight bits of 0x00 and the controller's answer have to go by, so that the next read is of
/// the next register; after the answer SDA is high. Nobody is at 0x21.
pub fn cut_reads_are_cleared()
    ensures fourth { row.row (row.device (0x00 ∷ 0x7e ∷ [])) 0x20 4 ≡ row.told true 0 (Ok 0x00) }
    ensures eighth { row.row (row.device (0x00 ∷ 0x7e ∷ [])) 0x20 8 ≡ row.told true 0 (Ok 0x00) }
    ensures ninth { row.row (row.device (0x00 ∷ 0x7e ∷ [])) 0x20 9 ≡ row.told false 9 (Ok 0x7e) }
    ensures tenth { row.row (row.device (0x00 ∷ 0x7e ∷ [])) 0x20 10 ≡ row.told false 8 (Ok 0x7e) }
    ensures last { row.row (row.device (0x00 ∷ 0x7e ∷ [])) 0x20 18 ≡ row.told true 0 (Ok 0x7e) }
    ensures nobody { row.row (row.device (0x00 ∷ 0x7e ∷ [])) 0x21 9 ≡ row.told true 0 (Err Enxio) }
{}

/// A byte whose first bit is high lets SDA go after one pulse: it wasn't finished, and is read anew.
pub fn an_unfinished_byte_is_read_anew()
    ensures { row.row (row.device (0x80 ∷ 0x7e ∷ [])) 0x20 9 ≡ row.told false 1 (Ok 0x80) }
{}

/// A device that holds its clock for 64 looks is heard; one that holds it for 65 isn't, and the next read is given up.
pub fn a_clock_that_is_held_too_long_is_not_heard()
    ensures heard { row.row (row.holding 64 (0x00 ∷ [])) 0x20 9 ≡ row.told false 9 (Ok 0x00) }
    ensures slow { row.row (row.holding 65 (0x00 ∷ [])) 0x20 9 ≡ row.told true 0 (Err Etimedout) }
{}

/// Other kinds: the first byte of an LM75's temperature, an EEPROM, whose counter the clearing moves, and a switch, whose control
/// byte is read.
pub fn cut_reads_of_other_kinds_are_cleared()
    ensures lm75 { row.row (row.two_roots [] (row.device_on 0 (kind.Lm75 0x1900) 0x48 [] ∷ [])) 0x48 9 ≡ row.told false 4 (Ok 0x19) }
    ensures eeprom { row.row (row.two_roots [] (row.device_on 0 (kind.Eeprom C02 0xff 0 false) 0x50 (0x00 ∷ 0x7e ∷ []) ∷ [])) 0x50 9
        ≡ row.told false 9 (Ok 0x7e) }
    ensures switch { row.row (row.two_roots (row.switch ∷ []) []) 0x70 9 ≡ row.told false 9 (Ok 0x00) }
{}

/// A device behind a switch isn't joined, and one of another root is another's: nobody is there.
pub fn a_cut_read_is_of_its_root()
    ensures behind { row.row (row.two_roots (row.switch ∷ []) (row.device_on 2 (kind.Regs 0) 0x30 (0x00 ∷ []) ∷ [])) 0x30 9 ≡ row.told true 0 (Err Enxio) }
    ensures other { row.row_on (row.two_roots [] (row.device_on 1 (kind.Regs 0) 0x20 (0x00 ∷ 0x7e ∷ []) ∷ [])) 0 0x20 9 ≡ row.told true 0 (Err Enxio) }
    ensures own { row.row_on (row.two_roots [] (row.device_on 1 (kind.Regs 0) 0x20 (0x00 ∷ 0x7e ∷ []) ∷ [])) 1 0x20 9 ≡ row.told false 9 (Ok 0x7e) }
{}

/// A cut at a bit of the address that is 0: as SDA is let go it rises while SCL is high, which is a stop on the wire already.
pub fn a_cut_within_the_address_changes_nothing()
    ensures first { row.row (row.two_roots [] (row.device_on 0 (kind.Regs 0) 0x08 (0x0f ∷ 0x33 ∷ []) ∷ [])) 0x08 1 ≡ row.told true 0 (Ok 0x0f) }
    ensures ninth { row.row (row.two_roots [] (row.device_on 0 (kind.Regs 0) 0x08 (0x0f ∷ 0x33 ∷ []) ∷ [])) 0x08 9 ≡ row.told false 5 (Ok 0x0f) }
{}

/// An arbitrator that the other controller has for one read more gives 0x01, and then 0x00: a read that ends before its ninth clock
/// is none, and one that is cut at the controller's answer is one.
pub fn a_read_of_an_arbitrator_counts_at_its_ninth_clock()
    ensures before { row.row (row.two_roots (row.arbitrator 1 ∷ []) []) 0x72 17 ≡ row.told true 0 (Ok 0x01) }
    ensures counted { row.row (row.two_roots (row.arbitrator 1 ∷ []) []) 0x72 18 ≡ row.told true 0 (Ok 0x00) }
{}
