//! The limits of boards, transfers, blocks and callers.
ghost use Rattle.std.specs.Prelude.{◌≡◌};
ghost use Rattle.i2c_base.specs.Limits as limit;
ghost use Rattle.i2c_base.specs.declared.limits.TheConstants as code;

/// The most roots of a board, which has at least one.
pub const MOST_ROOTS: usize = 8;

/// The most muxes of a board.
pub const MOST_MUXES: usize = 32;

/// The most buses from a root to a bus, both included.
pub const MOST_ON_PATH: usize = MOST_MUXES + 1;

/// The most devices of a board.
pub const MOST_DEVICES: usize = 128;

/// The most channels of a mux, which has at least one.
pub const MOST_CHANNELS: usize = 8;

/// The most muxes over a bus.
pub const MOST_DEPTH: usize = 4;

/// The most messages of a transfer.
pub const MOST_MESSAGES: usize = 42;

/// The most bytes of a message.
pub const MOST_LENGTH: usize = 512;

/// The most bytes of a transfer.
pub const MOST_BYTES: usize = 4096;

/// The most bytes of a block on a board of version 1 (SMBus 2.0 section 5.5.7).
pub const BLOCK_LIMIT: u8 = 32;

/// The most bytes of a block on a board of version 2, and on any, since its count is one byte (SMBus 3.2 section 6.5.7).
pub const LARGEST_BLOCK: u8 = 255;

/// The most bytes of a block that is asked for by its length, whatever the board's block limit is (Linux i2c.h:
/// I2C_SMBUS_BLOCK_MAX).
pub const I2C_BLOCK_LIMIT: u8 = 32;

/// How often an arbitrator is asked before it is told to be held.
pub const POLLS: u8 = 8;

/// How often a controller looks at a clock that a target holds, before it gives up.
pub const MOST_LOOKS: u8 = 64;

/// The most callers of a run.
pub const MOST_CALLERS: u8 = 8;

/// The most calls that the log of a port holds.
pub const MOST_CALLS: usize = 2_000_000;

/// The most bytes of a block on a board of this version, none where there is no such version.
pub fn limit_of(version: u8) -> Option<u8>
    ensures { result ≡ limit.limit_of version }
{
    match version {
        1 => Some(BLOCK_LIMIT),
        2 => Some(LARGEST_BLOCK),
        _ => None,
    }
}

/// Each limit of the code is the one of its name in the definitions.
pub fn the_code_has_these_limits()
    ensures board { (code.MOST_ROOTS ≡ limit.MOST_ROOTS) × (code.MOST_MUXES ≡ limit.MOST_MUXES) × (code.MOST_DEVICES ≡ limit.MOST_DEVICES) }
    ensures tree { (code.MOST_ON_PATH ≡ limit.MOST_ON_PATH) × (code.MOST_CHANNELS ≡ limit.MOST_CHANNELS) × (code.MOST_DEPTH ≡ limit.MOST_DEPTH) }
    ensures transfer { (code.MOST_MESSAGES ≡ limit.MOST_MESSAGES) × (code.MOST_LENGTH ≡ limit.MOST_LENGTH) × (code.MOST_BYTES ≡ limit.MOST_BYTES) }
    ensures block { (code.BLOCK_LIMIT ≡ limit.BLOCK_LIMIT) × (code.LARGEST_BLOCK ≡ limit.LARGEST_BLOCK) × (code.I2C_BLOCK_LIMIT ≡ limit.I2C_BLOCK_LIMIT) }
    ensures asked { (code.POLLS ≡ limit.POLLS) × (code.MOST_LOOKS ≡ limit.MOST_LOOKS) }
    ensures run { (code.MOST_CALLERS ≡ limit.MOST_CALLERS) × (code.MOST_CALLS ≡ limit.MOST_CALLS) }
{}
