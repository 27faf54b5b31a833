//! What is to be made.

/// The most lines of a script.
pub const MOST_LINES: u16 = 1000;

/// The seed of the draws, how many roots the board has, and how many lines each script.
#[derive(Clone, Copy)]
pub struct Plan {
    pub seed: u64,
    pub roots: u8,
    pub lines: u16,
}
