//! How often each arc and each node's capacity is an item of a period's cut.
#![tactic(auto)]

mod bottlenecks;
mod cover;

pub use bottlenecks::Bottlenecks;
