//! The definitions of the law, computed plainly: what a plan moves, holds and has out, and what a cut is worth.
//!
//! Each function is a sum over the whole list, as its definition says, and slow. Worked cases alone are computed with them, so that the
//! definitions are seen to say what is meant.
#![tactic(auto)]

mod cuts;
mod parts;
mod plans;

pub use cuts::{cut_items, sum_of_items};
pub use parts::{arrival, entry, head, node_at, rate, tail};
pub use plans::{held, moved, out_by};
