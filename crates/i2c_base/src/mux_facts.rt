//! What each kind of mux is like, in one row of facts.
ghost use Rattle.std.specs.Prelude.{◌≡◌, ◌≤◌};
ghost use Rattle.i2c_base.specs.Muxes.{facts_of, switch_of, IsNarrowCode};

use crate::MuxKind;

/// Which channel is open at a control byte, or at a level of the line.
#[derive(Clone, Copy)]
pub enum ChannelCode {
    /// Bit i opens channel i, and each bit one of its own.
    Bits,
    /// The bit of this number opens the channel whose number the bits below it are.
    Number(u8),
    /// 1 opens the one channel.
    Alone,
    /// Level k opens channel k - 1.
    Level,
}

/// What is so of every mux of a kind.
#[derive(Clone, Copy)]
pub struct MuxFacts {
    /// How many channels it has, 1 to 8; none where the board says it.
    pub channels: Option<u8>,
    /// How many low bits of a byte its chip keeps as its control byte, at most 8; 0 where there is no chip.
    pub bits: u8,
    /// How the control byte, or the level of the line, tells the open channel.
    pub code: ChannelCode,
    /// It is switched by a line, and so has no chip and no address.
    pub by_line: bool,
    /// It is an arbitrator: before it is switched, it is asked whether another controller has it.
    pub asks: bool,
    /// It has to be parent-locked (Linux i2c-topology).
    pub wants_parent: bool,
    /// It may keep its last channel when idle.
    pub may_stay: bool,
}

// A switch of so many channels, one bit for each.
fn switch_of(channels: u8) -> MuxFacts
    ensures { result ≡ switch_of channels }
{
    MuxFacts {
        channels: Some(channels),
        bits: channels,
        code: ChannelCode::Bits,
        by_line: false,
        asks: false,
        wants_parent: false,
        may_stay: true,
    }
}

impl MuxKind {
    /// The row of the kind.
    pub fn facts(self) -> MuxFacts
        ensures row { result ≡ facts_of self }
        ensures most { result.bits ≤ 8 }
        ensures narrow { IsNarrowCode result.code }
    {
        match self {
            MuxKind::Pca9548 => switch_of(8),
            MuxKind::Pca9546 => switch_of(4),
            MuxKind::Pca9544 => MuxFacts {
                channels: Some(4),
                bits: 3,
                code: ChannelCode::Number(2),
                by_line: false,
                asks: false,
                wants_parent: false,
                may_stay: true,
            },
            MuxKind::Pca9541 => MuxFacts {
                channels: Some(1),
                bits: 1,
                code: ChannelCode::Alone,
                by_line: false,
                asks: true,
                wants_parent: true,
                may_stay: false,
            },
            MuxKind::Gpio => MuxFacts {
                channels: None,
                bits: 0,
                code: ChannelCode::Level,
                by_line: true,
                asks: false,
                wants_parent: true,
                may_stay: false,
            },
        }
    }
}
