//! A plan, and how many have come to each node and left it by each moment.
ghost use Rattle.std.specs.Prelude.{◌≡◌, ℕ, IfOk};
ghost use Rattle.evac_law.specs.Building.{IsValid};
ghost use Rattle.evac_law.specs.Plans.{moved};
ghost use Rattle.evac_law.specs.Stands.{Stands};
ghost use Rattle.plan_layout.specs.Layouts.{IsSameSite};

use crate::fill::{fill_came, fill_left};
use crate::plan::PlanCopy;
use crate::sums::SumTable;
use evac_law::{Model, Standing};
use std::alloc::{AllocError, Global};

/// A plan, and how many have come to each node and left it by each moment. All memory that it needs is taken when it is made.
#[derive(Drop)]
pub struct Counts {
    pub plan: PlanCopy,
    pub came: SumTable,
    pub left: SumTable,
}

impl Counts {
    ghost use Rattle.cards.specs.Counts.{AreTrueCounts, IsSized};

    /// A plan of a model in which nobody moves, and room for its counts.
    pub fn new(alloc: Global, model: &Model) -> Result<Counts, AllocError>
        requires { IsValid model.now }
        ensures model { IfOk result (λ c. c.plan.model ≡ model.now) }
        ensures sized { IfOk result IsSized }
    {
        let came = SumTable::new(alloc, model.node_count(), model.horizon)?;
        let left = SumTable::new(alloc, model.node_count(), model.horizon)?;
        let plan = PlanCopy::new(alloc, model)?;
        Ok(Counts { plan, came, left })
    }

    /// Takes a plan that has everybody out, of another model of the same building.
    pub fn set<F: Standing>(&mut self, model: &Model, standing: &F)
        requires sized { IsSized self.old }
        requires site { IsSameSite model.now self.old.plan.model }
        requires stands { Stands model.now (F.stand standing.now) }
        ensures model { self.new.plan.model ≡ model.now }
        ensures moves { (a t : ℕ) → moved self.new.plan.moves a t ≡ moved (F.stand standing.now).plan a t }
        ensures true_counts { AreTrueCounts self.new }
    {
        self.plan.set(model, standing);
        fill_came(&mut self.came, &self.plan);
        fill_left(&mut self.left, &self.plan);
    }
}
