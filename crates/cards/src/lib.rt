//! Person cards: one itinerary for each person of a plan, lent one after another. Whoever comes to a node first leaves it
//! no later than those who come after.
//!
//! No queue of people is kept. Comings and leavings at each node are numbered by sums, and a person is followed from number to
//! number: the one of a number to come to a node is the one of that number to leave it.
#![tactic(auto)]

mod card;
mod comer;
mod counts;
mod deal;
mod fill;
mod follow;
mod laws;
mod plan;
mod sums;
mod turn;

pub use card::Card;
pub use deal::Cards;
pub use laws::numbered_cards_are_fair;
