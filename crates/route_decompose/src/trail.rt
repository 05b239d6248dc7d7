//! Steps, in memory that is reserved once.
ghost use Rattle.std.specs.Prelude.{◌≡◌, ◌<◌, [], ◌∷◌, ◌++◌, IfOk, length};

use crate::route::RouteStep;
use std::alloc::{AllocError, Global};
use std::marker::Model;

/// Steps one after another.
#[derive(Drop)]
pub struct Trail {
    steps: Vec<RouteStep>,
    len: usize,
}

impl Model for Trail {
    ghost use Rattle.std.specs.Prelude.{◌≤◌, length, take};
    ghost use Rattle.route_decompose.specs.Stocks.{TrailView};

    ghost Value = { TrailView };

    ghost view = { λ t. record { steps = take t.len t.steps.items; room = length t.steps.items } };

    ghost invariant = { λ t. t.len ≤ length t.steps.items };
}

impl Trail {
    /// No step, with room for some.
    pub fn new(alloc: Global, room: usize) -> Result<Trail, AllocError>
        ensures { IfOk result (λ t. t ≡ record { steps = []; room = room }) }
    {
        let blank = RouteStep { moment: 0, arc: 0 };
        let steps = vec![in alloc; blank; room]?;
        Ok(Trail { steps, len: 0 })
    }

    /// Leaves no step.
    pub fn clear(&mut self)
        ensures { self.new ≡ record { steps = []; room = self.old.room } }
    {
        self.len = 0;
    }

    /// Adds a step at the end.
    pub fn add(&mut self, step: RouteStep)
        requires { length self.old.steps < self.old.room }
        ensures { self.new ≡ record { steps = self.old.steps ++ step ∷ []; room = self.old.room } }
    {
        self.steps[self.len] = step;
        self.len += 1;
    }

    /// The steps.
    pub fn steps(&self) -> &[RouteStep]
        ensures { result.now ≡ self.now.steps }
    {
        &self.steps[..self.len]
    }
}
