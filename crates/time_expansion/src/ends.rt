//! What an arc joins.

/// The nodes that an arc joins, each named by its place in the list of nodes.
#[derive(Clone, Copy)]
pub struct Ends {
    pub from: u32,
    pub to: u32,
}
