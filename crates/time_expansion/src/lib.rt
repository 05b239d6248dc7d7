//! The time-expanded network: a cell for each arc and each node at each moment.
//!
//! A `Shape` names the cells by numbers that are one to one and below `cells()`, and lends the arcs that leave and enter
//! each node, exactly and in file order. It knows sizes and ends of arcs only: no flow, no limit and no traversal time.
#![tactic(auto)]

mod ends;
mod index;
mod laws;
mod limits;
mod shape;

pub use ends::Ends;
pub use laws::cells_are_apart;
pub use limits::{ARC_LIMIT, CELL_LIMIT, HORIZON_LIMIT, NODE_LIMIT};
pub use shape::Shape;
