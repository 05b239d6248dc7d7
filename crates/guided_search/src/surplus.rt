//! What a target flow has more or less than the net's.
//!
//! Nothing is taken off ahead: the surplus of a step is what the two flows differ by when it is looked at, so people who are sent along
//! the search's path, or otherwise, are accounted for by themselves. A surplus only falls, so a way without any is never looked at again.
ghost use Rattle.std.specs.Prelude.{◌≡◌, ◌<◌, IfSome, length};
ghost use Rattle.std.specs.List.{All};
ghost use Rattle.residual_ways.specs.Steps.{IsStepWithin};
ghost use Rattle.residual_ways.specs.Ways.{IsWayWithin};

use residual_net::Cell;
use residual_ways::{Residual, Step, Way, send};

/// A target flow beside a net's.
#[derive(Clone, Copy)]
pub struct Surplus<'a> {
    /// The cells of the target flow.
    pub target: &'a [Cell],
    /// The net.
    pub net: Residual<'a>,
    ghost fits: { length target.now ≡ net.ways.now.sizes.cells },
}

impl Surplus<'_> {
    /// How many more people are to go over a step.
    pub fn over(&self, step: Step) -> u32
        requires { step.cell < self.now.net.ways.now.sizes.cells }
    {
        let wanted = self.target[step.cell as usize].flow;
        let flow = self.net.cells[step.cell as usize].flow;
        if step.back {
            flow.saturating_sub(wanted)
        } else {
            wanted.saturating_sub(flow)
        }
    }

    /// How many more people are to go over a step, and over others from an index on.
    pub fn along(&self, step: Step, others: &[Step], first: usize) -> u32
        requires step { step.cell < self.now.net.ways.now.sizes.cells }
        requires others { All (IsStepWithin self.now.net.ways.now.sizes) others.now }
    {
        let mut people = self.over(step);
        for at in first..others.len() {
            people = people.min(self.over(others[at]));
        }
        people
    }

    /// The index of the first of some steps, from an index on, over which no more people are to go; or how many steps there are.
    pub fn first_done(&self, steps: &[Step], first: usize) -> usize
        requires { All (IsStepWithin self.now.net.ways.now.sizes) steps.now }
    {
        for at in first..steps.len() {
            if self.over(steps[at]) == 0 {
                return at;
            }
        }
        steps.len()
    }

    /// The index of the first way, from an index on, over which more people are to go into a moment, and its step.
    pub fn wanted(&self, ways: &[Way], from: usize, moment: u32) -> Option<(usize, Step)>
        requires ways { All (IsWayWithin self.now.net.ways.now.sizes) ways.now }
        requires moment { moment < self.now.net.ways.now.sizes.moments }
        ensures index { IfSome result (λ found. found.0 < length ways.now) }
        ensures step { IfSome result (λ found. IsStepWithin self.now.net.ways.now.sizes found.1) }
    {
        let sizes = self.net.sizes();
        for index in from..ways.len() {
            if let Some(step) = ways[index].step(sizes, moment) {
                if self.over(step) > 0 {
                    return Some((index, step));
                }
            }
        }
        None
    }

    /// The step to people at the pair of a step who may be sent to arrive at a moment: those who come in there unsent, or those who
    /// arrive later from there.
    pub fn source(&self, at: Step, moment: u32) -> Option<Step>
        requires { IsStepWithin self.now.net.ways.now.sizes at }
        ensures { IfSome result (IsStepWithin self.now.net.ways.now.sizes) }
    {
        let sizes = self.net.sizes();
        let supply = Step::supply(sizes, at.node, at.moment);
        if self.over(supply) > 0 {
            return Some(supply);
        }
        for way in self.net.ways.exit_ways_of(at.node) {
            let arrival = at.moment + way.travel();
            if arrival < sizes.moments && arrival > moment {
                let cell = way.first_cell + at.moment;
                let taken = Step {
                    cell,
                    back: true,
                    ..supply
                };
                if self.over(taken) > 0 {
                    return Some(taken);
                }
            }
        }
        None
    }
}

/// Lets fewer people go over a step in a target flow.
pub fn lower(target: &mut [Cell], step: Step, people: u32)
    requires { step.cell < length target.old }
{
    let back = !step.back;
    send(target, Step { back, ..step }, people);
}

/// Lets fewer people go over some steps from an index on.
pub fn lower_all(target: &mut [Cell], steps: &[Step], first: usize, people: u32)
    requires { All (λ step. step.cell < length target.old) steps.now }
{
    for at in first..steps.len() {
        lower(target, steps[at], people);
    }
}
