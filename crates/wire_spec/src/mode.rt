//! Where a target stands within a message on the wires.

/// Where a target stands within a message. Numbers of bits count down.
#[derive(Clone, Copy, Debug, PartialEq, Eq)]
pub enum Mode {
    /// Lets the lines go until the next start.
    Out,
    /// Shifts a byte in, the most significant bit first (UM10204 section 3.1.5): the bits that are missing, and the number so
    /// far. It is the address byte, or data.
    In {
        address: bool,
        left: u8,
        value: u8,
    },
    /// Has taken a byte. In the acknowledge clock, once it has begun, it pulls SDA where it acknowledges (UM10204 section
    /// 3.1.6). It lets go where SCL looks low so many times more.
    Answered {
        begun: bool,
        acked: bool,
        next: Next,
        looks: u8,
    },
    /// Shifts a byte out: the bits that are missing. With none the controller answers.
    Give {
        left: u8,
    },
    /// The controller has answered: it wants more, or not.
    Gave {
        more: bool,
    },
}

/// What a target does after an acknowledge clock.
#[derive(Clone, Copy, Debug, PartialEq, Eq)]
pub enum Next {
    /// It is out of the message.
    Leave,
    /// It takes a byte.
    Take,
    /// It sends one.
    Send,
}
