//! The cards of a plan.
ghost use Rattle.std.specs.Prelude.{◌≡◌, IfOk, IsFalse, IsTrue};
ghost use Rattle.evac_law.specs.Building.{IsValid};
ghost use Rattle.evac_law.specs.Stands.{Stands};
ghost use Rattle.plan_layout.specs.Layouts.{IsSameSite};
ghost use Rattle.cards.specs.Dealing.{AreAllToCome, DealsNext, IsAllDealt};

use crate::card::Card;
use crate::counts::Counts;
use crate::follow::follow;
use crate::turn::{Turn, entrant, find_turn};
use evac_law::Standing;
use route_decompose::Trail;
use std::alloc::{AllocError, Global};
use std::marker::Model;

/// A plan and its counts, and the card handed out last. All memory that it needs is taken when it is made.
pub struct Cards {
    counts: Counts,
    people: u32,
    given: u32,
    turn: Turn,
    trail: Trail,
}

// Written out, since a derived drop is laid out part by part in each function that lets one go.
impl Drop for Cards {
    fn drop(self) {
        let Cards {
            counts: _,
            people: _,
            given: _,
            turn: _,
            trail: _,
        } = self;
    }
}

impl Model for Cards {
    ghost use Rattle.cards.specs.Dealing.{CardsView, IsDealer};

    ghost Value = { CardsView };

    ghost view = { λ c. record {
      model = c.counts.plan.model;
      plan = c.counts.plan.moves;
      given = c.given;
      card = record { start = c.turn.node; entered = c.turn.moment; steps = c.trail.steps };
    } };

    ghost invariant = { λ c. IsDealer c.counts c.people c.given c.turn c.trail };
}

impl Cards {
    /// Room for the cards of a plan of a model, and no plan.
    pub fn new(alloc: Global, model: &evac_law::Model) -> Result<Cards, AllocError>
        requires { IsValid model.now }
        ensures model { IfOk result (λ c. c.model ≡ model.now) }
        ensures none { IfOk result IsAllDealt }
    {
        let trail = Trail::new(alloc, model.horizon as usize)?;
        let counts = Counts::new(alloc, model)?;
        let people = model.people();
        Ok(Cards {
            counts,
            people,
            given: people,
            turn: Turn::first(),
            trail,
        })
    }

    /// Takes a plan that has everybody out, of which no card is handed out yet.
    pub fn begin<F: Standing>(&mut self, model: &evac_law::Model, standing: &F)
        requires stands { Stands model.now (F.stand standing.now) }
        requires site { IsSameSite model.now self.old.model }
        ensures { AreAllToCome model.now (F.stand standing.now).plan self.new }
    {
        self.counts.set(model, standing);
        self.people = model.people();
        self.given = 0;
        self.turn = Turn::first();
    }

    /// Makes the next card; none exactly after as many as there are people.
    pub fn next(&mut self) -> bool
        ensures card { IsTrue result → DealsNext self.old self.new }
        ensures none { IsFalse result → IsAllDealt self.old }
        ensures same { IsFalse result → self.new ≡ self.old }
    {
        if self.given == self.people {
            return false;
        }
        let turn = find_turn(self.counts.plan.layout().model(), self.turn, self.given);
        let first = entrant(&self.counts, turn, self.given);
        follow(&self.counts, first, &mut self.trail);
        self.turn = turn;
        self.given += 1;
        true
    }

    /// The card made last.
    pub fn card(&self) -> Card<'_>
        ensures { result ≡ self.now.card }
    {
        Card {
            start: self.turn.node,
            entered: self.turn.moment,
            steps: self.trail.steps(),
        }
    }
}
