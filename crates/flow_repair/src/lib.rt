//! Brings the flow of a plan under the limits of an edited model.
//!
//! An edit changes the limits of one arc, one node or the arcs into one exit. `reshape` sets these limits, takes flow off along whole
//! paths until every place fits, and says up to which moment what no more people can reach by then is still shown by the labels.
#![tactic(auto)]

mod fit;
mod number;
mod repair;
mod reshaped;
mod row;

pub use repair::reshape;
pub use reshaped::Reshaped;
