//! How large an expanded network may be.

/// The most nodes.
pub const NODE_LIMIT: u32 = 400;

/// The most arcs.
pub const ARC_LIMIT: u32 = 1_600;

/// The last moment that a horizon may be.
pub const HORIZON_LIMIT: u16 = 1_200;

/// The most cells.
pub const CELL_LIMIT: u32 = 1_000_000;
