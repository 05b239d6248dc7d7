//! How tall a drill's building may be.

/// The most storeys of a drill.
pub const STOREY_LIMIT: u16 = 40;
