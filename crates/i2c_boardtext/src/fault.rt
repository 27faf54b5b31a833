//! Why a text is no board.
ghost use Rattle.std.specs.Prelude.{◌≡◌};
ghost use Rattle.i2c_boardtext.specs.BoardText.{placed_fault};

use std::alloc::{AllocError, AllocFailed};

/// Whose table a fault is in, or which array has too many or too few tables.
#[derive(Clone, Copy, Debug)]
pub enum TableName {
    /// The document itself.
    Top,
    Root,
    Mux,
    Device,
}

/// What is wrong with one table.
#[derive(Clone, Copy)]
pub enum TableFault {
    /// A key that isn't listed, or a required one that is missing.
    Key,
    /// A value that isn't as listed.
    Value,
}

/// Why a text is no board. Tables of one name count from 0, in file order; the top is table 0.
#[derive(Clone, Copy, Debug)]
pub enum BoardFault {
    /// It isn't a TOML document.
    NotToml,
    /// A key that isn't listed, or a required one that is missing.
    Key { table: TableName, index: u16 },
    /// A value that isn't as listed.
    Value { table: TableName, index: u16 },
    /// There are too few or too many of these tables; `count` is how many.
    Limit { which: TableName, count: u64 },
    /// Memory ran out, which says nothing of the text.
    Memory,
}

impl From<AllocError> for BoardFault {
    ghost use Rattle.i2c_boardtext.specs.declared.fault.BoardFault.TheVariants.{Memory};

    ghost from_gives = { λ _ e. e ≡ Memory };

    fn from(_: AllocError) -> Self {
        BoardFault::Memory
    }
}

/// A push that took no memory gives its value back, which is dropped here.
impl<T: Drop> From<AllocFailed<T>> for BoardFault {
    ghost use Rattle.i2c_boardtext.specs.declared.fault.BoardFault.TheVariants.{Memory};

    ghost from_gives = { λ _ e. e ≡ Memory };

    fn from(_: AllocFailed<T>) -> Self {
        BoardFault::Memory
    }
}

/// The fault with its place.
pub fn placed_fault(table: TableName, index: u16, fault: TableFault) -> BoardFault
    ensures { result ≡ placed_fault table index fault }
{
    match fault {
        TableFault::Key => BoardFault::Key { table, index },
        TableFault::Value => BoardFault::Value { table, index },
    }
}
