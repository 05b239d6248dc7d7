//! Studies of a building that has its best plan: when everybody is out without one of its exits, and the least rate of an arc at which
//! everybody is out by a moment.
//!
//! `study_exit` and `least_rate` try edits of a session, which stays as it was.
#![tactic(auto)]

mod exits;
mod laws;
mod rates;

pub use exits::{ExitRow, study_exit};
pub use laws::{enough_stays, too_slow_is_not_enough};
pub use rates::{Least, least_rate};
