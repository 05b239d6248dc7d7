//! What a session says of its state: its answer block, the reports on it, the cut of a period, and its work.
//!
//! Each function puts one text, by the definitions of `specs/StateTexts`; a sink that fails has a front of it.
#![tactic(auto)]

mod laws;
mod reports;
mod texts;

pub use laws::{
    begins_of_building, edit_keeps_building, edit_serves, shape_serves, undo_keeps_building,
};
pub use reports::{ReportSpace, put_bottlenecks, put_clearing, put_reports, put_summary};
pub use texts::{put_barred, put_block, put_cut, put_routes, put_work};
