//! Hints at the paths along which people can be sent to an arrival moment.
//!
//! **What this crate answers is a hint, and no contract speaks of it.** It is proved to be safe and to end, and no more: its contracts
//! are on sizes alone, so that nothing is read or written out of its place, and its numbers may be wrong or stale. A net of another
//! size than the building's gets no hint. Whoever takes a path from it looks at each of its steps before people are sent along it, and
//! finishes a moment by a flood that needs no hint. So a wrong number costs time, and never a right answer.
//!
//! A `PathFinder` hints in two ways, both over the ways that `residual_ways` lays out. While people are unsent, it finds shortest
//! augmenting paths: a search goes back from the arrival along steps that distance labels call admissible, and relabels where there is
//! none; the labels outlive the moments. Where everybody is sent already, as after an exit is opened again, a `TargetFlow` is a flow of
//! the best arrivals, found by that search from no flow; what it has more or less than the net's leads people straight to where they are
//! to arrive.
#![tactic(auto)]

mod budget;
mod distances;
mod global_relabelling;
mod levels;
mod lists;
mod look;
mod partial_path;
mod path_finder;
mod relabelled;
mod runs;
mod search;
mod shortest_paths;
mod straight_path;
mod surplus;
mod target_flow;
mod tuning;
mod waits;
mod weights;

pub use path_finder::PathFinder;
