//! Worked examples, computed by the checker itself: each function has an empty body.

ghost use Rattle.std.specs.Prelude.{◌≡◌, [], ◌∷◌};
ghost use Rattle.smb_pec.specs.LongDivision.{pec};

/// `123456789` in ASCII gives 0xF4.
pub fn the_nine_digits_give_0xf4()
    ensures { pec (49 ∷ 50 ∷ 51 ∷ 52 ∷ 53 ∷ 54 ∷ 55 ∷ 56 ∷ 57 ∷ []) ≡ 0xF4 }
{}

/// With another last byte, `123456788`, it is another one.
pub fn another_byte_gives_another_code()
    ensures { pec (49 ∷ 50 ∷ 51 ∷ 52 ∷ 53 ∷ 54 ∷ 55 ∷ 56 ∷ 56 ∷ []) ≡ 0xF3 }
{}
