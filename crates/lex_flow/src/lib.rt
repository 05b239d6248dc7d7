//! Settles all arrival moments of a net, one after another, so that its plan has as many people out by every period as any plan
//! has; or shows by its labels how many can get out at all.
#![tactic(auto)]

mod all;
mod outcome;

pub use all::settle_all;
pub use outcome::Outcome;
