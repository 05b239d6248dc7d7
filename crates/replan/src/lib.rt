//! A plan that is carried out up to a moment and planned anew from there on.
//!
//! `Replan` is a session whose plan is carried out step by step. `advance` keeps the moves before a moment and plans what is left of the
//! building from nothing: whoever is in a node then, on an arc, or still to come. The laws say that what is left can always be cleared, and
//! that the moves made with the best plan of the rest after them are best among all plans that make the same moves.
#![tactic(auto)]

mod comers;
mod faults;
mod gone;
mod laws;
mod replan;
mod rest;

pub use faults::{AdvanceFault, ReplanRefusal};
pub use laws::{
    advance_keeps_curve, advances_add_up, certified_rest_is_best, rest_goes_on, rest_is_clearable,
};
pub use replan::Replan;
