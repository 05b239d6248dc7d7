//! The laws of cells, each the contract of a function with nothing to do.
ghost use Rattle.time_expansion.specs.Expansion.{CellsAreApart};

/// Different arguments give different cells, all below the number of the cells.
#[tactic(auto, using(crate::proofs::Cells::cells_are_apart))]
pub fn cells_are_apart()
    ensures { CellsAreApart }
{}
