//! What a row of the table of SMBus calls says.

use i2c_base::ByteList;

/// What a call reads after its write, beside an error code.
#[derive(Clone, Copy)]
pub enum ReadShape {
    Nothing,
    Plain(u16),
    /// A counted read.
    Counted,
}

/// What the value of a call is, of the bytes that it read.
#[derive(Clone, Copy)]
pub enum ValueShape {
    Done,
    Byte,
    Word,
    Block,
    /// What follows the count.
    CountedBlock,
}

/// A row: the messages of a call, whether an error code goes with it where one is asked for, and its value.
#[derive(Drop)]
pub struct CallRow {
    /// The bytes of its write; a call without one begins with its read.
    pub write: Option<ByteList>,
    pub read: ReadShape,
    pub checked: bool,
    pub value: ValueShape,
}
