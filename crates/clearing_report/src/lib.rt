//! When a plan has each node empty, how long people would need who meet nobody, and the person-periods.
#![tactic(auto)]

mod clearing;
mod laws;
mod moments;
mod periods;
mod times;

pub use clearing::Clearing;
pub use laws::uncongested_is_least;
