//! The building of a drill, a tower with a number of storeys, and the summary of a plan that clears it.
#![tactic(auto)]

mod building;
mod laws;
mod limits;
mod rows;
mod summary;

pub use building::drill_model;
pub use laws::{drills_are_clearable, drills_are_valid};
pub use limits::STOREY_LIMIT;
pub use summary::{Figures, put_drill};
