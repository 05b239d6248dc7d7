//! Runs of waits that are taken back.
//!
//! Where people wait in a node from a moment on up to later ones, all these waits can be taken back one after another: people who come to
//! the node later take the place of those who wait.
ghost use Rattle.std.specs.Prelude.{◌≡◌, ◌+◌, ◌<◌, ◌≤◌, length};
ghost use Rattle.residual_ways.specs.Ways.{IsWayWithin};

use crate::distances::Distances;
use crate::tuning::RUN_LENGTH;
use residual_net::Cell;
use residual_ways::{Incoming, Way};

// How many waits are looked at at once.
const BLOCK: usize = 16;

/// The waits in a node from a moment on, as far as a run reaches, if all of them have people.
#[derive(Clone, Copy)]
pub struct Run<'c, 'd> {
    /// The cell of each.
    waits: &'c [Cell],
    /// The distance label of the pair at which each ends, and from which it is taken back.
    labels: &'d [u16],
    ghost fits: { length labels.now ≡ length waits.now },
}

/// The pair to which a look along a run has come.
#[derive(Clone, Copy)]
pub struct Reached {
    /// How many waits are taken back from there.
    pub count: usize,
    /// The least distance label of those looked at. Only where it is low enough it is that of the pair.
    pub label: u16,
}

impl<'c, 'd> Run<'c, 'd> {
    /// The run that leads to the moment, by the way over waits.
    pub fn into(incoming: &Incoming<'c>, distances: &'d Distances, way: Way) -> Run<'c, 'd>
        requires sizes { distances.now.sizes ≡ incoming.now.sizes }
        requires way { IsWayWithin incoming.now.sizes way }
        ensures { length result.waits.now + incoming.now.moment < incoming.now.sizes.moments }
    {
        let count = (incoming.sizes.moments - 1 - incoming.moment).min(RUN_LENGTH);
        let first = (way.first_cell + incoming.moment) as usize;
        let waits = &incoming.cells[first..first + count as usize];
        let labels = distances.labels_from(way.first_pair + incoming.moment + 1, count);
        Run { waits, labels }
    }

    /// The first pair of at most a distance label from which the waits can be taken back. Where there is none, the least distance label.
    pub fn look(&self, most: u16) -> Reached
        ensures { result.count ≤ length self.now.waits.now }
    {
        let passed = self.pass_blocks(most);
        self.look_singly(passed, most)
    }

    // Passes the blocks of waits that all have people, and of pairs that all have more than a distance label.
    fn pass_blocks(&self, most: u16) -> Reached
        ensures { result.count ≤ length self.now.waits.now }
    {
        let mut label = u16::MAX;
        let blocks = self.waits.len() / BLOCK;
        for block in 0..blocks {
            let at = block * BLOCK;
            let here = least_of(&self.labels[at..at + BLOCK]);
            if here <= most || some_empty(&self.waits[at..at + BLOCK]) {
                return Reached { count: at, label };
            }
            label = label.min(here);
        }
        Reached {
            count: blocks * BLOCK,
            label,
        }
    }

    // Looks at the pairs one by one, after some that were passed.
    fn look_singly(&self, passed: Reached, most: u16) -> Reached
        requires { passed.count ≤ length self.now.waits.now }
        ensures { result.count ≤ length self.now.waits.now }
    {
        let mut reached = passed;
        for at in passed.count..self.waits.len() {
            if self.waits[at].flow == 0 {
                return reached;
            }
            reached.count = at + 1;
            reached.label = reached.label.min(self.labels[at]);
            if reached.label <= most {
                return reached;
            }
        }
        reached
    }
}

// The least of some distance labels.
fn least_of(labels: &[u16]) -> u16 {
    labels
        .iter()
        .fold(u16::MAX, |least, label| least.min(*label))
}

// Whether nobody waits at one of some waits. Nothing is skipped after a first, so that a processor compares several at once.
fn some_empty(waits: &[Cell]) -> bool {
    waits
        .iter()
        .fold(false, |some, wait| some | (wait.flow == 0))
}
