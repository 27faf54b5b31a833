//! The flags of a message, with Linux's bits.
ghost use Rattle.std.specs.Prelude.{⊤, ◌≡◌, [], ◌∷◌, codes};

use bitflags::{Flag, Flags, bitflag_items};

/// What kind of message it is, with Linux's bits (`I2C_M_RD`, `I2C_M_RECV_LEN`). No bit is a write.
#[derive(Clone, Copy, Default)]
pub struct MsgFlags(u16);

bitflag_items! {
    impl MsgFlags: u16 {
        const READ = 0x0001;
        const RECV_LEN = 0x0400;
    }
}

impl Flags for MsgFlags {
    type Bits = u16;

    ghost exact = { ⊤ };

    ghost table = { (codes "READ", 0x0001) ∷ (codes "RECV_LEN", 0x0400) ∷ [] };

    ghost set_of = { λ f. f.0 };

    fn flags<'a>() -> &'a [Flag<MsgFlags>] {
        MsgFlags::FLAGS
    }

    fn bits(&self) -> u16 {
        self.0
    }

    fn from_bits_retain(bits: u16) -> MsgFlags {
        MsgFlags(bits)
    }
}
