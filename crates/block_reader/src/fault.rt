//! Why a block isn't read.

/// Why lines give no block.
#[derive(Clone, Copy)]
pub enum BlockFault {
    /// The first line that no block has there; where the input ends first, the line after its last.
    Bad { line: u32 },
    /// The line is too long.
    LineTooLong { line: u32 },
    /// The input is too long.
    InputTooLong { line: u32 },
    /// The source failed.
    ReadFault,
    /// There is no memory.
    Memory,
}

/// Why a line isn't taken.
#[derive(Clone, Copy)]
pub(crate) enum TakeFault {
    Bad,
    Memory,
}
