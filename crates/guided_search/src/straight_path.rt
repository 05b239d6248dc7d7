//! The path that is hinted at.
//!
//! Where the path of a search comes to a node twice, people walk in a circle. If the waits between have room, they wait in its place: forward
//! waits weigh nothing, so the path is as short. The search goes on along its own path all the same.
ghost use Rattle.std.specs.Prelude.{◌≡◌, ◌<◌, ◌≤◌, IfOk, IfSome, length, vec_capacity};
ghost use Rattle.std.specs.List.{All};
ghost use Rattle.residual_ways.specs.Steps.{IsStayWithin, IsStepWithin};

use crate::lists::add;
use residual_net::{Cell, Leg};
use residual_ways::{Sizes, Stay, Step, room, room_in, send};
use std::alloc::{AllocError, Global};

/// A path from people on, without circles that can be waited out. Memory past its stays isn't touched.
#[derive(Drop)]
pub struct StraightPath {
    /// How large the building is.
    sizes: Sizes,
    /// Its stays, from its exit way on.
    stays: Vec<Stay>,
    ghost within: { All (IsStayWithin sizes) stays.items },
}

impl StraightPath {
    /// An empty path, with room for some stays.
    pub fn new(alloc: Global, sizes: Sizes, room: usize) -> Result<StraightPath, AllocError>
        ensures { IfOk result (λ path. path.sizes ≡ sizes) }
    {
        let stays = Vec::with_capacity(alloc, room)?;
        Ok(StraightPath { sizes, stays })
    }

    /// Leaves no stay.
    pub fn clear(&mut self)
        ensures { self.new.sizes ≡ self.old.sizes }
    {
        self.stays.clear();
    }

    /// Adds a stay before the others, while there is room.
    pub fn add(&mut self, stay: Stay)
        requires { IsStayWithin self.old.sizes stay }
        ensures { self.new.sizes ≡ self.old.sizes }
    {
        if self.stays.len() < self.stays.capacity() {
            self.stays.push_reserved(stay);
        }
    }

    // The step by which people come in where the path begins.
    fn supply(&self) -> Option<Step>
        ensures { IfSome result (IsStepWithin self.now.sizes) }
    {
        let first = self.stays.as_slice().last()?;
        Some(Step::supply(self.sizes, first.step.node, first.since))
    }

    /// Fills a list with the legs of the path.
    pub fn lay(&self, legs: &mut Vec<Leg>)
        ensures { vec_capacity legs.new ≡ vec_capacity legs.old }
    {
        legs.clear();
        if let Some(supply) = self.supply() {
            let step = supply.path_step(self.sizes);
            add(legs, Leg { since: 0, step });
        }
        for stay in self.stays.as_slice().iter().rev() {
            add(legs, stay.step.leg_since(self.sizes, stay.since));
        }
    }

    // The most people who may go along the stays.
    fn most(&self, cells: &[Cell]) -> u32
        requires { length cells.now ≡ self.now.sizes.cells }
    {
        let mut people = u32::MAX;
        for stay in self.stays.as_slice() {
            let (first, end) = stay.waits(self.sizes);
            let most = people.min(room(cells, stay.step));
            let waits = cells[first..end].iter();
            people = waits.fold(most, |least, wait| least.min(room_in(*wait)));
        }
        people
    }

    /// Sends as many people as may go along the path. The answer is how many.
    pub fn carry(&self, cells: &mut [Cell]) -> u32
        requires { length cells.old ≡ self.now.sizes.cells }
    {
        let Some(supply) = self.supply() else {
            return 0;
        };
        let people = self.most(cells).min(room(cells, supply));
        send(cells, supply, people);
        for stay in self.stays.as_slice() {
            send(cells, stay.step, people);
            let (first, end) = stay.waits(self.sizes);
            send_waits(&mut cells[first..end], people);
        }
        people
    }
}

// Sends people over waits.
fn send_waits(waits: &mut [Cell], people: u32) {
    for wait in waits.iter_mut() {
        wait.flow = wait.flow.saturating_add(people);
    }
}
