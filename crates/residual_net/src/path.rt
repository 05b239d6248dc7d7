//! A path of residual steps, in memory that is reserved once.
ghost use Rattle.std.specs.Prelude.{◌≡◌, ◌<◌, ◌-◌, [], ◌∷◌, ◌++◌, IfOk, length, reverse};

use crate::place::PathStep;
use std::alloc::{AllocError, Global};
use std::marker::Model;

/// Steps one after another. Memory for more of them isn't touched before they are added.
#[derive(Drop)]
pub struct Path {
    steps: Vec<PathStep>,
    room: usize,
}

impl Model for Path {
    ghost use Rattle.std.specs.Prelude.{◌≤◌, length, vec_capacity};
    ghost use Rattle.residual_net.specs.Route.{Trail};

    ghost Value = { Trail };

    ghost view = { λ p. record { steps = p.steps.items; room = p.room } };

    ghost invariant = { λ p. (length p.steps.items ≤ p.room) × (p.room ≤ vec_capacity p.steps) };
}

impl Path {
    /// A path of no step, with room for some.
    pub fn new(alloc: Global, room: usize) -> Result<Path, AllocError>
        ensures { IfOk result (λ p. p ≡ record { steps = []; room = room }) }
    {
        let steps = Vec::with_capacity(alloc, room)?;
        Ok(Path { steps, room })
    }

    /// Leaves no step.
    pub fn clear(&mut self)
        ensures { self.new ≡ record { steps = []; room = self.old.room } }
    {
        self.steps.clear();
    }

    /// How many more steps there is room for.
    pub fn spare(&self) -> usize
        ensures { result ≡ self.now.room - length self.now.steps }
    {
        self.room - self.steps.len()
    }

    /// Adds a step at the end.
    pub fn add(&mut self, step: PathStep)
        requires { length self.old.steps < self.old.room }
        ensures { self.new ≡ record { steps = self.old.steps ++ step ∷ []; room = self.old.room } }
    {
        self.steps.push_reserved(step);
    }

    /// The steps.
    pub fn steps(&self) -> &[PathStep]
        ensures { result.now ≡ self.now.steps }
    {
        &self.steps
    }

    /// Turns the order of the steps round.
    pub(crate) fn turn(&mut self)
        ensures { self.new ≡ record { steps = reverse self.old.steps; room = self.old.room } }
    {
        self.steps.reverse();
    }
}
