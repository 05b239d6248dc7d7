//! The texts of the reports on an answer: the cut of a period, routes, person cards, when rooms and floors are empty, what holds people up, a
//! summary, and the work of an edit.
//!
//! What a writer puts is the text that `specs/ReportText` defines from the model, the plan and the labels.
#![tactic(auto)]

mod bottlenecks;
mod clearing;
mod cut;
mod lines;
mod person_cards;
mod routes;
mod subject;
mod summary;

pub use bottlenecks::put_bottlenecks;
pub use clearing::put_clearing;
pub use cut::put_cut;
pub use lines::{put_cut_line, put_number, put_work};
pub use person_cards::put_cards;
pub use routes::put_routes;
pub use subject::Subject;
pub use summary::put_summary;
