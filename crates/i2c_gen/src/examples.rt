//! Worked examples, computed by the checker itself: each function has an empty body.

ghost use Rattle.std.specs.Prelude.{◌≡◌, ◌/◌, ◌%◌, ◌^◌, true, false, Some, [], ◌∷◌, length, map, slice_get};
ghost use Rattle.i2c_base.specs.declared.board.DeviceKind.TheVariants.{Eeprom, Lm75};
ghost use Rattle.i2c_base.specs.declared.board.LockMode.TheVariants.{Mux, Parent};
ghost use Rattle.i2c_base.specs.declared.board.MuxKind.TheVariants.{Pca9548};
ghost use Rattle.i2c_base.specs.declared.board.Size.TheVariants.{C02};
ghost use Rattle.i2c_spec.specs.Rules.{clashes};
ghost use Rattle.i2c_spec.specs.Tree.{buses, root_of};
ghost use Rattle.i2c_gen.specs.Boards.{made_board};
ghost use Rattle.i2c_gen.specs.Draws.{draw, number_behind};
ghost use Rattle.i2c_gen.specs.Scripts.{schedule_of};

/// The five draws of a line of seed 7, with two roots; the fourth would be another one bit lower, and in the low half. What is
/// multiplied wraps, and the schedule comes after the draws of all lines.
pub fn draws_are_the_high_bits()
    ensures root { draw 7 0 2 ≡ 0 }
    ensures channel { draw 7 1 8 ≡ 7 }
    ensures operation { draw 7 2 3 ≡ 0 }
    ensures register { draw 7 3 256 ≡ 145 }
    ensures value { draw 7 4 256 ≡ 233 }
    ensures one_lower { number_behind 7 4 / 2 ^ 32 % 256 ≡ 34 }
    ensures low { number_behind 7 4 % 2 ^ 32 % 256 ≡ 43 }
    ensures wraps { number_behind 18446744073709551615 1 ≡ 13525302890751722018 }
    ensures schedule { schedule_of (record { seed = 7; roots = 2; lines = 1 }) ≡ 5 ∷ 7 ∷ 0 ∷ 2 ∷ 4 ∷ 0 ∷ 0 ∷ 0 ∷ [] }
{}

/// Two roots, two switches, and sixteen channels with two devices each. A device at the address of the switch over it would
/// clash with that.
pub fn the_board_of_two_roots()
    ensures buses { buses (made_board 2) ≡ 18 }
    ensures roots { map (λ r. r.smbus_only) (made_board 2).roots ≡ false ∷ false ∷ [] }
    ensures kinds { map (λ m. m.kind) (made_board 2).muxes ≡ Pca9548 ∷ Pca9548 ∷ [] }
    ensures locks { map (λ m. m.lock) (made_board 2).muxes ≡ Parent ∷ Mux ∷ [] }
    ensures stand { map (λ m. m.bus) (made_board 2).muxes ≡ 0 ∷ 1 ∷ [] }
    ensures devices { length (made_board 2).devices ≡ 32 }
    ensures eeprom { slice_get (made_board 2).devices 14
        ≡ Some (record { bus = 9; addr = 0x50; bound = false; kind = Eeprom C02 7 0 false; set = [] }) }
    ensures sensor { slice_get (made_board 2).devices 31
        ≡ Some (record { bus = 17; addr = 0x48; bound = false; kind = Lm75 0x1900; set = [] }) }
    ensures first_channels { (root_of (made_board 2) 9 ≡ 0) × (root_of (made_board 2) 10 ≡ 1) }
    ensures apart { clashes (made_board 2) 0 2 ≡ false }
    ensures clash { clashes (record {
      version = 1;
      roots = (made_board 2).roots;
      muxes = (made_board 2).muxes;
      devices = record { bus = 2; addr = 0x70; bound = false; kind = Lm75 0x1900; set = [] } ∷ [];
    }) 0 2 ≡ true }
{}
