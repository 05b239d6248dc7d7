//! The limits of a model.

/// The most seconds of a period.
pub const SECONDS_LIMIT: u16 = 600;
/// The last moment that a horizon may be.
pub const HORIZON_LIMIT: u16 = 1_200;
/// The most nodes, exits counted.
pub const NODE_LIMIT: usize = 400;
/// The most arcs.
pub const ARC_LIMIT: usize = 1_600;
/// The most floors.
pub const FLOOR_LIMIT: usize = 100;
/// The greatest traversal time, in periods.
pub const TRAVEL_LIMIT: u16 = 600;
/// The greatest rate, in people per period.
pub const RATE_LIMIT: u32 = 10_000;
/// The greatest capacity of a node, and the greatest start.
pub const CAPACITY_LIMIT: u32 = 100_000;
/// The most people of a model.
pub const PEOPLE_LIMIT: u32 = 100_000;
/// The most cells: a node or an arc at a moment.
pub const CELL_LIMIT: u32 = 1_000_000;
/// The most closure windows of an arc.
pub const WINDOW_LIMIT: usize = 8;
/// The greatest number in a node's name.
pub const NUMBER_LIMIT: u16 = 9_999;
/// The greatest floor in a node's name.
pub const FLOOR_NUMBER_LIMIT: u16 = 999;
