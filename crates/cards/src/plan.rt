//! A plan that is kept.
ghost use Rattle.std.specs.Prelude.{◌≡◌, ℕ, ◌<◌, ◌≤◌, ◌^◌, IfOk, length};
ghost use Rattle.std.specs.List.{All};
ghost use Rattle.evac_law.specs.Building.{IsValid};
ghost use Rattle.evac_law.specs.Plans.{coming, leaving, moved};
ghost use Rattle.evac_law.specs.Stands.{Fits};
ghost use Rattle.plan_layout.specs.Layouts.{IsSameSite};
ghost use Rattle.cards.specs.Numbers.{brought};

use evac_law::Standing;
use plan_layout::{Layout, fill_moves};
use std::alloc::{AllocError, Global};
use std::marker::Model;
use tables::Table;

/// A model, and the people who enter each arc at each moment. All memory that it needs is taken when it is made.
#[derive(Drop)]
pub struct PlanCopy {
    layout: Layout,
    moved: Table<u32>,
}

impl Model for PlanCopy {
    ghost use Rattle.std.specs.Prelude.{◌≡◌, length};
    ghost use Rattle.evac_law.specs.Moves.{moves_of};
    ghost use Rattle.plan_layout.specs.Tables.{people_at};
    ghost use Rattle.cards.specs.Kept.{PlanView};

    ghost Value = { PlanView };

    ghost view = { λ p. record { model = p.layout; moves = moves_of (length p.layout.arcs) p.layout.horizon (people_at p.moved) } };

    ghost invariant = { λ p. (p.moved.rows ≡ length p.layout.arcs) × (p.moved.last ≡ p.layout.horizon) };
}

impl PlanCopy {
    /// A plan of a model in which nobody moves.
    pub fn new(alloc: Global, model: &evac_law::Model) -> Result<PlanCopy, AllocError>
        requires { IsValid model.now }
        ensures { IfOk result (λ p. p.model ≡ model.now) }
    {
        let moved = Table::new(alloc, 0, model.arc_count(), model.horizon)?;
        let layout = Layout::new(alloc, model)?;
        Ok(PlanCopy { layout, moved })
    }

    /// Takes a plan of another model of the same building.
    pub fn set<F: Standing>(&mut self, model: &evac_law::Model, standing: &F)
        requires valid { IsValid model.now }
        requires site { IsSameSite model.now self.old.model }
        requires fits { Fits model.now (F.stand standing.now) }
        ensures model { self.new.model ≡ model.now }
        ensures moves { (a t : ℕ) → moved self.new.moves a t ≡ moved (F.stand standing.now).plan a t }
        ensures in_range { All (λ v. (v.arc < length self.new.model.arcs) × (v.moment ≤ self.new.model.horizon)) self.new.moves }
    {
        self.layout.set_model(model);
        fill_moves(&mut self.moved, standing);
    }

    /// The model, and the arcs at each node.
    pub fn layout(&self) -> &Layout
        ensures { result.now ≡ self.now.model }
    {
        &self.layout
    }

    /// The people who enter an arc at a moment.
    pub fn moved(&self, arc: u32, moment: u16) -> u32
        requires arc_in { arc < length self.now.model.arcs }
        requires moment_in { moment ≤ self.now.model.horizon }
        ensures { result ≡ moved self.now.moves arc moment }
    {
        self.moved.get(arc, moment)
    }

    /// The people who come out of an arc at a moment.
    pub fn brought(&self, arc: u32, moment: u16) -> u32
        requires arc_in { arc < length self.now.model.arcs }
        requires moment_in { moment ≤ self.now.model.horizon }
        ensures { result ≡ brought self.now.model self.now.moves arc moment }
    {
        let travel = self.layout.model().arc(arc).travel;
        if moment < travel {
            return 0;
        }
        self.moved(arc, moment - travel)
    }

    /// The people who leave a node at a moment.
    pub fn leaving(&self, node: u32, moment: u16) -> u64
        requires node_in { node < length self.now.model.nodes }
        requires moment_in { moment ≤ self.now.model.horizon }
        ensures leaving { result ≡ leaving self.now.model self.now.moves node moment }
        ensures small { result < 2 ^ 43 }
    {
        let mut people = 0;
        for arc in self.layout.arcs_from(node) {
            people += u64::from(self.moved(*arc, moment));
        }
        people
    }

    /// The people who come to a node at a moment along arcs.
    pub fn coming(&self, node: u32, moment: u16) -> u64
        requires node_in { node < length self.now.model.nodes }
        requires moment_in { moment ≤ self.now.model.horizon }
        ensures coming { result ≡ coming self.now.model self.now.moves node moment }
        ensures small { result < 2 ^ 43 }
    {
        let mut people = 0;
        for arc in self.layout.arcs_to(node) {
            people += u64::from(self.brought(*arc, moment));
        }
        people
    }
}
