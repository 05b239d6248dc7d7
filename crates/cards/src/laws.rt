//! The law, the contract of a function with nothing to do.
ghost use Rattle.cards.specs.Laws.{NumberedCardsAreFair};

/// Cards that follow the numbers, one for each number in order, are a first in first out deal of the plan.
#[tactic(auto, using(crate::proofs::Fair::fair))]
pub fn numbered_cards_are_fair()
    ensures { NumberedCardsAreFair }
{}
