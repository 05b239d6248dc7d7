//! Settles one arrival moment of a net: as many people as can arrive by it, without taking any from earlier moments.
//!
//! `settle` first sends people along paths that `guided_search` hints at, each checked step by step. Where everybody is out by the moment
//! then, all pairs before it that have no label get it: these are closed. Otherwise a flood goes back from the arrivals at the moment,
//! through all pairs of a node and a moment from which people could still arrive then, and labels each pair that it meets. Where it comes
//! to nobody who can be sent, the labels stay: with those of earlier moments these pairs are closed, so that no plan has more people out
//! by then. Where it comes to somebody, unsent or to arrive later, the labels are taken back. The steps by which it met the pairs lead on
//! to the arrival: people are sent along them, hints are asked for again, and so on.
#![tactic(auto)]

mod all_out;
mod buffers;
mod flood;
mod hint;
mod marks;
mod moment;
mod path;
mod queue;
mod spot;
mod steps;

pub use all_out::are_all_out;
pub use moment::{Search, settle};
