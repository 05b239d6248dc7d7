//! How many edits a session keeps.

/// The most edits that are kept for undo.
pub const KEPT_LIMIT: usize = 64;
