//! A model that is kept with the arcs at each node, and tables that take the people of a plan.
//!
//! `Layout` copies a model and lists its arcs, and takes the rows of another model of the same building in the same memory. `copy_arcs`
//! copies arcs alone.
//! `fill_moves`, `fill_holds` and `fill_entries` put who enters the arcs, who stays in the nodes and who comes into them.
#![tactic(auto)]

mod fill;
mod layout;

pub use fill::{fill_entries, fill_holds, fill_moves};
pub use layout::{Layout, copy_arcs};
