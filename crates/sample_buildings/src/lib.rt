//! Buildings as text, and how a text is read, for worked cases.
//!
//! Each building is a constant. `building_of` and `model_of` answer what a text describes, or its first fault. Only tests call them.
#![tactic(auto)]

mod reading;
mod texts;

pub use reading::{building_of, model_of};
pub use texts::{EMPTY_ROOM, OFFICE, ONE_ROOM, THROUGH_HALL, TRAPPED, TWO_EXITS, TWO_ROOMS};
