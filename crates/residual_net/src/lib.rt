//! A flow over time with its limits, and the one way to raise it: a push along an augmenting path.
//!
//! A `Net` has a flow and a limit at each place: an arc at a moment, a node's contents at a moment, and the people who come into
//! a node at a moment. What comes to a node at a moment leaves it or waits in it, whatever the limits are. The net is Over while
//! some flow is above its limit, as may be after `set_limit`; `cancel` takes such flow off along a path from its supply to its
//! arrival. Only `push`, `push_legs` and `restore` raise a flow. The laws tie a net to its plan and to the cuts of its model.
#![tactic(auto)]

mod cancel;
mod end;
mod grid;
mod laws;
mod leads;
mod legs;
mod limits;
mod net;
mod path;
mod place;
mod saved;
mod standing;
mod start;

pub use end::End;
pub use laws::{
    arrived_get_out, arrived_is_out, arrived_rises, arrived_within_cut, cancel_lowers_arrivals,
    closed_grows, closed_is_cut, closed_survives_push, last_is_arrival, net_fits, net_is_feasible,
    push_moves_arrivals, sent_is_arrived, supplies_between,
};
pub use legs::Leg;
pub use limits::SUPPLY_LIMIT;
pub use net::Net;
pub use path::Path;
pub use place::{Cell, PathStep, Place, Transit};
pub use start::{Kind, limit_of, place_of};
