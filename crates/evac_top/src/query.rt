//! What is asked of a building.
use crate::words::Flags;
use building_table::Names;

/// What is asked of a building: the flags, with its names and the line of its end for the answer.
#[derive(Drop)]
pub struct Query {
    pub flags: Flags,
    pub names: Names,
    pub line: u32,
}
