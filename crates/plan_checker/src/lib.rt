//! A checker of answer blocks.
//!
//! `check` says of a block that was read for a model which part of it fails first, or yes. Yes comes exactly where the block has the
//! model's people and the curve of its plan, and the plan is certified by the labels.
#![tactic(auto)]

mod checker;
mod curve;
mod cuts;
mod holds;
mod laws;
mod rates;
mod tally;
mod verdict;

pub use checker::check;
pub use laws::{one_verdict, yes_is_certified};
pub use verdict::Verdict;
