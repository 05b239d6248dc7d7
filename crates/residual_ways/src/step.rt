//! Residual steps, and stays in a node before them.
ghost use Rattle.std.specs.Prelude.{◌≡◌, ◌+◌, ◌*◌, ◌<◌, ◌≤◌, ◌↔◌, false, IsFalse, IsTrue};
ghost use Rattle.residual_net.specs.Site.{Site, cell_of};
ghost use Rattle.residual_net.specs.declared.place.Place.TheVariants.{Supply};
ghost use Rattle.residual_ways.specs.Layout.{AreSizesOf};
ghost use Rattle.residual_ways.specs.Steps.{IsPair, IsStayWithin, IsStepWithin};

use crate::sizes::Sizes;
use residual_net::{Leg, PathStep};

/// A residual step: the pair at which it begins, and the cell over which it goes on.
#[derive(Clone, Copy)]
pub struct Step {
    /// The node in which it begins.
    pub node: u32,
    /// The moment at which it begins.
    pub moment: u32,
    /// That pair.
    pub pair: u32,
    /// Its cell.
    pub cell: u32,
    /// Whether it takes people off that cell.
    pub back: bool,
}

impl Step {
    /// The step by which people come into a node at a moment.
    pub fn supply(sizes: Sizes, node: u32, moment: u32) -> Step
        requires { IsPair sizes node moment }
        ensures pair { result ≡ record { node = node; moment = moment; pair = node * sizes.moments + moment; cell = result.cell; back = false } }
        ensures cell { (site : Site) → AreSizesOf site sizes → cell_of site (Supply node moment) ≡ result.cell }
        ensures within { IsStepWithin sizes result }
    {
        let pair = sizes.pair(node, moment);
        Step {
            node,
            moment,
            pair,
            cell: sizes.supply(pair),
            back: false,
        }
    }

    /// Whether it is a wait forwards.
    pub fn waits(&self, sizes: Sizes) -> bool
        requires { IsStepWithin sizes self.now }
        ensures { IsTrue result ↔ (IsFalse self.now.back × (self.now.cell + 2 * sizes.pairs ≡ sizes.cells + self.now.pair)) }
    {
        !self.back && self.cell == sizes.wait(self.pair)
    }

    /// Whether it takes a wait back.
    pub fn takes_wait_back(&self, sizes: Sizes) -> bool {
        self.back && self.cell >= sizes.wait(0)
    }

    /// The step as the net has it.
    pub fn path_step(&self, sizes: Sizes) -> PathStep
        ensures cell { (site : Site) → AreSizesOf site sizes → cell_of site result.place ≡ self.now.cell }
        ensures back { result.back ≡ self.now.back }
    {
        let place = sizes.place_of(self.cell);
        let back = self.back;
        PathStep { place, back }
    }

    /// The waits since a moment where the step starts, and then the step.
    pub fn leg_since(&self, sizes: Sizes, since: u32) -> Leg
        requires { since < sizes.moments }
        ensures since { result.since ≡ since }
        ensures cell { (site : Site) → AreSizesOf site sizes → cell_of site result.step.place ≡ self.now.cell }
        ensures back { result.step.back ≡ self.now.back }
    {
        Leg {
            since: since as u16,
            step: self.path_step(sizes),
        }
    }
}

/// Waits in a node, and the step that leads on from there.
#[derive(Clone, Copy)]
pub struct Stay {
    /// The moment since which people wait.
    pub since: u32,
    /// The step that leads on.
    pub step: Step,
}

impl Stay {
    /// A step without waits before it.
    pub fn before(step: Step) -> Stay
        ensures { result ≡ record { since = step.moment; step = step } }
    {
        Stay {
            since: step.moment,
            step,
        }
    }

    // How many waits it has.
    fn count(&self) -> u32
        requires { self.now.since ≤ self.now.step.moment }
        ensures { result + self.now.since ≡ self.now.step.moment }
    {
        self.step.moment - self.since
    }

    /// The pair at which it begins.
    pub fn pair(&self) -> u32
        requires since { self.now.since ≤ self.now.step.moment }
        requires pair { self.now.step.moment ≤ self.now.step.pair }
        ensures { result + self.now.step.moment ≡ self.now.step.pair + self.now.since }
    {
        self.step.pair - self.count()
    }

    /// The numbers of the cells of its waits: the first, and the one after the last.
    pub fn waits(&self, sizes: Sizes) -> (usize, usize)
        requires { IsStayWithin sizes self.now }
        ensures count { result.0 + self.now.step.moment ≡ result.1 + self.now.since }
        ensures end { result.1 + 2 * sizes.pairs ≡ sizes.cells + self.now.step.pair }
    {
        let first = sizes.wait(self.pair());
        (first as usize, (first + self.count()) as usize)
    }
}
