//! The pairs, cells and ways of a building by their numbers, for searches that go over many of them.
//!
//! A pair is a node at a moment. A cell is a place of a net, with its flow and its limit. A way is an arc or a wait that leads into a
//! node, forwards or backwards; at a moment it is a step. `Sizes` numbers pairs and cells, `Ways` has the ways into each node
//! in the order in which they are to be tried, and `Residual` has them beside the cells of a net.
//!
//! The contracts say which numbers pairs and cells have, that the cell of each place is the one that it has in a net of the same sizes, which
//! step a way is at a moment, and how many people have room over it. **Which ways there are and in which order they come is said by
//! none**, but that each is within the building, so that nothing is read or written out of its place. `guided_search` needs no more:
//! it looks for paths over the ways, and what it finds is a hint.
#![tactic(auto)]

mod cells;
mod layout;
mod residual;
mod sizes;
mod step;
mod way;
mod ways;

pub use cells::{count_sent, is_all_sent, is_open, room, room_in, send, supplies_of, unsent};
pub use residual::{Incoming, Residual};
pub use sizes::Sizes;
pub use step::{Stay, Step};
pub use way::{Limits, Way};
pub use ways::Ways;
