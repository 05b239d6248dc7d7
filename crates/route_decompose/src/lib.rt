//! Routes that make up a plan, lent one after another.
#![tactic(auto)]

mod laws;
mod lead;
mod people;
mod route;
mod routes;
mod store;
mod trail;

pub use laws::{routes_are_few, routes_cover};
pub use route::{Route, RouteStep};
pub use routes::Routes;
pub use trail::Trail;
