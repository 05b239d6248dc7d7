//! The routes of a plan.
ghost use Rattle.std.specs.Prelude.{◌≡◌, IfOk, IsFalse, IsTrue};
ghost use Rattle.evac_law.specs.Building.{IsValid};
ghost use Rattle.evac_law.specs.Stands.{Stands};
ghost use Rattle.plan_layout.specs.Layouts.{IsSameSite};
ghost use Rattle.route_decompose.specs.Routes.{HandsOut, IsUsedUp, IsAllLeft};

use crate::lead::lead_out;
use crate::route::Route;
use crate::store::Store;
use crate::trail::Trail;
use evac_law::Standing;
use std::alloc::{AllocError, Global};
use std::marker::Model;

/// What is left of a plan, and the route handed out last. All memory that it needs is taken when it is made.
pub struct Routes {
    store: Store,
    people: u32,
    start: u32,
    entered: u16,
    trail: Trail,
}

// Written out, since a derived drop is laid out part by part in each function that lets one go.
impl Drop for Routes {
    fn drop(self) {
        let Routes {
            store: _,
            people: _,
            start: _,
            entered: _,
            trail: _,
        } = self;
    }
}

impl Model for Routes {
    ghost use Rattle.route_decompose.specs.Routes.{RoutesView};
    ghost use Rattle.route_decompose.specs.Stocks.{IsRoutes, used};

    ghost Value = { RoutesView };

    ghost view = { λ r. record {
      model = r.store.model;
      left = r.store.left;
      waiting = r.store.waiting;
      places = used r.store;
      route = record { people = r.people; start = r.start; entered = r.entered; steps = r.trail.steps };
    } };

    ghost invariant = { λ r. IsRoutes r.store r.trail };
}

impl Routes {
    /// Room for the routes of a plan of a model, and no plan.
    pub fn new(alloc: Global, model: &evac_law::Model) -> Result<Routes, AllocError>
        requires { IsValid model.now }
        ensures model { IfOk result (λ r. r.model ≡ model.now) }
        ensures none { IfOk result IsUsedUp }
    {
        let trail = Trail::new(alloc, model.horizon as usize)?;
        let store = Store::new(alloc, model)?;
        Ok(Routes {
            store,
            people: 0,
            start: 0,
            entered: 0,
            trail,
        })
    }

    /// Makes all moves of a plan that has everybody out unused.
    pub fn begin<F: Standing>(&mut self, model: &evac_law::Model, standing: &F)
        requires stands { Stands model.now (F.stand standing.now) }
        requires site { IsSameSite model.now self.old.model }
        ensures { IsAllLeft model.now (F.stand standing.now).plan self.new }
    {
        self.store.set_model(model);
        self.store.fill(standing);
    }

    /// Finds the next route; none exactly where every move is used up.
    pub fn next(&mut self) -> bool
        ensures route { IsTrue result → HandsOut self.old self.new }
        ensures none { IsFalse result → IsUsedUp self.old }
        ensures same { IsFalse result → self.new ≡ self.old }
    {
        let Some((node, moment)) = self.store.starting() else {
            return false;
        };
        let most = self.store.start(node, moment);
        let people = lead_out(&mut self.store, &mut self.trail, node, moment, most);
        self.store.take_start(node, moment, people);
        self.people = people;
        self.start = node;
        self.entered = moment;
        true
    }

    /// The route found last.
    pub fn route(&self) -> Route<'_>
        ensures { result ≡ self.now.route }
    {
        Route {
            people: self.people,
            start: self.start,
            entered: self.entered,
            steps: self.trail.steps(),
        }
    }
}
