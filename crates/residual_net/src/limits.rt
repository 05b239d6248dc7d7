//! How many people a net may send.

/// The most people that all supplies may send together.
pub const SUPPLY_LIMIT: u32 = 200_000;
