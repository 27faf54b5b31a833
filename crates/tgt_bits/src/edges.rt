//! The edges of the lines, as a target sees them.
ghost use Rattle.std.specs.Prelude.{◌≡◌, true, false};
ghost use Rattle.wire_spec.specs.Wires.{begin, finish, rise, named, called, whole, fall, entered, tick, waited};

use crate::{BitTarget, Wired};
use i2c_base::{Answer, Event, MOST_LOOKS};
use wire_spec::{Mode, Next};

/// A target that has answered lets go after so many low looks at SCL, when the controller gives up.
const LOOKS: u8 = MOST_LOOKS + 1;

/// A byte has so many bits (UM10204 section 3.1.5).
const BITS: u8 = 8;

impl<T: Wired> BitTarget<T> {
    /// SDA falls while SCL is high: a start, so that an address comes in (UM10204 section 3.1.4).
    pub fn on_begin(&mut self)
        ensures { self.new ≡ begin self.old }
    {
        self.mode = Mode::In {
            address: true,
            left: BITS,
            value: 0,
        };
        self.hold = 0;
    }

    /// SDA rises while SCL is high: a stop (UM10204 section 3.1.4).
    #[inline(always)]
    pub fn on_finish(&mut self)
        ensures { self.new ≡ finish T.table self.old }
    {
        self.target.on(Event::Stop);
        self.heard = false;
        self.mode = Mode::Out;
        self.hold = 0;
    }

    /// SCL rises with SDA at this level: a bit comes in (UM10204 section 3.1.5), or the controller answers a byte that was
    /// sent, low for more (section 3.1.6).
    #[inline(always)]
    pub fn on_rise(&mut self, level: bool)
        ensures { self.new ≡ rise T.table self.old level }
    {
        match self.mode {
            Mode::In {
                address,
                left,
                value,
            } => {
                let byte = 2 * value + u8::from(level);
                if left > 1 {
                    self.mode = Mode::In {
                        address,
                        left: left - 1,
                        value: byte,
                    };
                } else if address {
                    self.on_address(byte);
                } else {
                    self.on_byte(byte);
                }
            }
            Mode::Give { left: 0 } => {
                self.target.on(Event::Get { ack: !level });
                self.mode = Mode::Gave { more: !level };
                self.hold = 0;
            }
            Mode::Give { .. } | Mode::Out | Mode::Answered { .. } | Mode::Gave { .. } => {}
        }
    }

    /// An address byte has come in: the address above the R/W bit (UM10204 section 3.1.10).
    #[inline(always)]
    pub fn on_address(&mut self, byte: u8)
        ensures { self.new ≡ named T.table self.old.site byte }
    {
        if byte / 2 == self.addr {
            self.on_call(byte % 2 == 1);
        } else {
            self.target.on(Event::Other);
            self.heard = false;
            self.mode = Mode::Out;
            self.hold = 0;
        }
    }

    /// Its own address has come in: it holds the clock where it hears the message (UM10204 section 3.1.9).
    #[inline(always)]
    fn on_call(&mut self, reading: bool)
        ensures { self.new ≡ called T.table self.old.site reading }
    {
        let hold = self.target.hold();
        let (acked, heard) = match self.target.on(Event::Start { reading }) {
            Answer::Ack => (true, true),
            Answer::Slow => (false, true),
            Answer::Nack | Answer::Byte(_) | Answer::Nothing => (false, false),
        };
        let next = match (acked, reading) {
            (true, true) => Next::Send,
            (true, false) => Next::Take,
            (false, _) => Next::Leave,
        };
        self.heard = heard;
        self.mode = Mode::Answered {
            begun: false,
            acked,
            next,
            looks: LOOKS,
        };
        self.hold = if heard { hold } else { 0 };
    }

    /// A data byte has come in (UM10204 section 3.1.5).
    fn on_byte(&mut self, byte: u8)
        ensures { self.new ≡ whole T.table self.old.site false byte }
    {
        let acked = match self.target.on(Event::Put(byte)) {
            Answer::Ack => true,
            Answer::Slow | Answer::Nack | Answer::Byte(_) | Answer::Nothing => false,
        };
        self.mode = Mode::Answered {
            begun: false,
            acked,
            next: Next::Take,
            looks: LOOKS,
        };
        self.hold = 0;
    }

    /// SCL falls: an acknowledge clock begins or is over (UM10204 section 3.1.6), or a bit that was sent is.
    #[inline(always)]
    pub fn on_fall(&mut self)
        ensures { self.new ≡ fall self.old }
    {
        match self.mode {
            Mode::Answered {
                begun: false,
                acked,
                next,
                looks,
            } => {
                self.mode = Mode::Answered {
                    begun: true,
                    acked,
                    next,
                    looks,
                };
            }
            Mode::Answered {
                begun: true,
                next,
                ..
            } => self.mode = entered(next),
            Mode::Give { left } if left > 0 => self.mode = Mode::Give { left: left - 1 },
            Mode::Gave { more: true } => self.mode = Mode::Give { left: BITS },
            Mode::Gave { more: false } => self.mode = Mode::Out,
            Mode::Out | Mode::In { .. } | Mode::Give { .. } => {}
        }
    }

    /// The controller has looked at SCL, which was low (UM10204 section 3.1.9).
    pub fn on_tick(&mut self)
        ensures { self.new ≡ tick self.old }
    {
        self.hold = self.hold.saturating_sub(1);
        self.mode = waited(self.mode);
    }
}

/// How a target stands behind the acknowledge clock.
#[inline(always)]
pub fn entered(next: Next) -> Mode
    ensures { result ≡ entered next }
{
    match next {
        Next::Leave => Mode::Out,
        Next::Take => Mode::In {
            address: false,
            left: BITS,
            value: 0,
        },
        Next::Send => Mode::Give { left: BITS },
    }
}

// How a target that stands so stands behind a low look: who has answered waits for so many alone.
fn waited(mode: Mode) -> Mode
    ensures { result ≡ waited mode }
{
    match mode {
        Mode::Answered {
            begun,
            acked,
            next,
            looks,
        } => {
            if looks > 1 {
                Mode::Answered {
                    begun,
                    acked,
                    next,
                    looks: looks - 1,
                }
            } else {
                Mode::Out
            }
        }
        Mode::Out | Mode::In { .. } | Mode::Give { .. } | Mode::Gave { .. } => mode,
    }
}
