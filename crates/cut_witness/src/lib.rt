//! What a cut is worth, and the items that it is made of.
//!
//! The labels of a plan make a cut for each period. `cut_value` sums one cut, `crossing` gives its items one after another, and
//! `CutValues` sums the cuts of all periods in one pass over the labels. `arc_span` and `hold_span` give the periods in whose cuts
//! an arc or a hold of a moment is an item.
#![tactic(auto)]

mod all_cuts;
mod begin;
mod differences;
mod one_cut;
mod period_cut;
mod position;
mod span;
mod walk;

pub use all_cuts::CutValues;
pub use begin::crossing;
pub use one_cut::cut_value;
pub use span::{Span, arc_span, hold_span};
pub use walk::Crossing;
