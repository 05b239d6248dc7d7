//! What a search for shortest paths knows of each pair.
//!
//! The distance label of a pair is meant to be at most what any residual path from unsent people to it weighs.
ghost use Rattle.std.specs.Prelude.{◌≡◌, ◌+◌, ◌<◌, ◌≤◌, IfOk, length, vec_len};
ghost use Rattle.residual_ways.specs.Steps.{IsStepWithin};
ghost use Rattle.guided_search.specs.Labelled.{HasLabels};

use crate::tuning::{FAR, LOW_LIMIT};
use crate::waits::Waits;
use evac_law::Labels;
use residual_net::Cell;
use residual_ways::{Residual, Sizes, Step, Ways, supplies_of, unsent};
use std::alloc::{AllocError, Global};

/// Distance labels and current arcs of pairs, and when people come to nodes.
#[derive(Drop)]
pub struct Distances {
    /// How large the building is.
    sizes: Sizes,
    /// The limit of the weights: the distance label from which on a run of waits counts as one step.
    pub limit: u16,
    /// The distance label of each pair.
    labels: Vec<u16>,
    /// The current arc of each pair: the index of the way into it that is to be tried next. Past 255 ways it begins again, which is slower
    /// for such a node and no less right.
    current_arcs: Vec<u8>,
    /// Of each node the moment after the last at which unsent people come into it.
    unsent_until: Vec<u32>,
    /// Of each node the moment at which people first come to it, be it along arcs.
    earliest: Vec<u16>,
    ghost labels_fit: { vec_len labels ≡ sizes.pairs },
    ghost current_arcs_fit: { vec_len current_arcs ≡ sizes.pairs },
    ghost unsent_fit: { vec_len unsent_until ≡ sizes.nodes },
    ghost earliest_fit: { vec_len earliest ≡ sizes.nodes },
}

impl Distances {
    /// Nothing is known.
    pub fn new(alloc: Global, sizes: Sizes) -> Result<Distances, AllocError>
        ensures { IfOk result (λ distances. distances.sizes ≡ sizes) }
    {
        let labels = vec![in alloc; 0u16; sizes.pairs as usize]?;
        let current_arcs = vec![in alloc; 0u8; sizes.pairs as usize]?;
        let unsent_until = vec![in alloc; 0u32; sizes.nodes as usize]?;
        let earliest = vec![in alloc; 0u16; sizes.nodes as usize]?;
        Ok(Distances {
            sizes,
            limit: LOW_LIMIT,
            labels,
            current_arcs,
            unsent_until,
            earliest,
        })
    }

    /// The distance label of a pair.
    pub fn get(&self, pair: u32) -> u32
        requires { pair < self.now.sizes.pairs }
        ensures { result ≤ 65535 }
    {
        self.labels[pair as usize] as u32
    }

    /// The distance labels of some pairs from one on.
    pub fn labels_from(&self, pair: u32, count: u32) -> &[u16]
        requires { pair + count ≤ self.now.sizes.pairs }
        ensures { length result.now ≡ count }
    {
        let first = pair as usize;
        &self.labels[first..first + count as usize]
    }

    /// Gives a pair a distance label and a current arc.
    pub fn set(&mut self, pair: u32, label: u32, index: usize)
        requires pair { pair < self.old.sizes.pairs }
        requires label { label ≤ 65535 }
        ensures { self.new.sizes ≡ self.old.sizes }
    {
        self.labels[pair as usize] = label as u16;
        self.set_current_arc(pair, index);
    }

    /// The current arc of a pair.
    pub fn current_arc(&self, pair: u32) -> usize
        requires { pair < self.now.sizes.pairs }
    {
        self.current_arcs[pair as usize] as usize
    }

    /// Makes a way the current arc of a pair.
    pub fn set_current_arc(&mut self, pair: u32, index: usize)
        requires { pair < self.old.sizes.pairs }
        ensures { self.new.sizes ≡ self.old.sizes }
    {
        self.current_arcs[pair as usize] = (index % 256) as u8;
    }

    /// Whether unsent people come into a node at a moment.
    pub fn is_source(&self, cells: &[Cell], node: u32, moment: u32) -> bool
        requires cells { length cells.now ≡ self.now.sizes.cells }
        requires node { node < self.now.sizes.nodes }
        requires moment { moment < self.now.sizes.moments }
    {
        moment < self.unsent_until[node as usize] && unsent(cells, self.sizes, node, moment) > 0
    }

    /// The lowest moment down to which waits from a step on are admissible, first among their ways, and have room, and nobody comes in
    /// between who is unsent: whoever comes in last can wait for the fewest moments, and so goes first.
    pub fn wait_back(&self, residual: Residual<'_>, step: Step) -> u32
        requires residual { residual.ways.now.sizes ≡ self.now.sizes }
        requires step { IsStepWithin self.now.sizes step }
    {
        let label = self.labels[step.pair as usize];
        let moment = step.moment as usize;
        let first = (step.pair - step.moment) as usize;
        let first_wait = self.sizes.wait(step.pair - step.moment) as usize;
        let waits = Waits {
            labels: &self.labels.as_slice()[first..first + moment],
            current_arcs: &self.current_arcs.as_slice()[first + 1..first + 1 + moment],
            cells: &residual.cells[first_wait..first_wait + moment],
        };
        let unsent_until = self.unsent_until[step.node as usize];
        let quiet = unsent_until.saturating_sub(1).min(step.moment);
        let low = waits.passable_from(quiet as usize, label) as u32;
        if low > quiet {
            return low;
        }
        for before in (0..quiet).rev() {
            let goes_on = waits.is_passable(before as usize, label)
                && unsent(residual.cells, self.sizes, step.node, before + 1) == 0;
            if !goes_on {
                return before + 1;
            }
        }
        0
    }

    /// Lets all pairs that aren't dead have the label 0: steps may weigh less than they did. Which pairs are dead doesn't depend on that.
    pub fn lower(&mut self)
        ensures { self.new.sizes ≡ self.old.sizes }
    {
        for label in self.labels.as_mut_slice().iter_mut() {
            if (*label as u32) < FAR {
                *label = 0;
            }
        }
        self.current_arcs.as_mut_slice().fill(0);
    }

    /// Finds when people first come to each node, be it along arcs.
    pub fn find_earliest(&mut self, cells: &[Cell], ways: &Ways)
        requires cells { length cells.now ≡ self.old.sizes.cells }
        requires ways { ways.now.sizes ≡ self.old.sizes }
        ensures { self.new.sizes ≡ self.old.sizes }
    {
        let earliest = self.earliest.as_mut_slice();
        enter(earliest, cells, self.sizes);
        for _ in 0..self.sizes.nodes {
            if !come_earlier(earliest, ways) {
                return;
            }
        }
    }

    /// The distance labels where no label of the net is known: no pair before people first come to its node leads out.
    pub fn begin(&mut self)
        ensures { self.new.sizes ≡ self.old.sizes }
    {
        self.current_arcs.as_mut_slice().fill(0);
        for node in 0..self.sizes.nodes {
            let first = self.sizes.first_pair(node) as usize;
            let moments = self.sizes.moments as usize;
            let early = (self.earliest[node as usize] as usize).min(moments);
            let row = &mut self.labels[first..first + moments];
            row[..early].fill(FAR as u16);
            row[early..].fill(0);
        }
    }

    /// Lets all pairs before a moment be dead.
    pub fn kill_until(&mut self, end: u32)
        ensures { self.new.sizes ≡ self.old.sizes }
    {
        let count = end.min(self.sizes.moments) as usize;
        self.current_arcs.as_mut_slice().fill(0);
        for node in 0..self.sizes.nodes {
            let first = self.sizes.first_pair(node) as usize;
            self.labels[first..first + count].fill(FAR as u16);
        }
    }

    /// How many pairs before a moment aren't dead.
    pub fn count_living(&self, end: u32) -> usize {
        let count = end.min(self.sizes.moments) as usize;
        let mut living = 0usize;
        for node in 0..self.sizes.nodes {
            let first = self.sizes.first_pair(node) as usize;
            let labels = self.labels[first..first + count].iter();
            let here = labels.filter(|label| **label < FAR as u16).count();
            living = living.saturating_add(here);
        }
        living
    }

    /// The moment after the last at which unsent people come into a node.
    pub fn unsent_until(&self, node: u32) -> u32
        requires { node < self.now.sizes.nodes }
        ensures { result ≤ self.now.sizes.moments }
    {
        self.unsent_until[node as usize].min(self.sizes.moments)
    }

    /// From no pair that the net labels below a moment can one get out.
    pub fn close(&mut self, labels: &Labels, k: u16)
        requires { HasLabels self.old.sizes labels.now }
        ensures { self.new.sizes ≡ self.old.sizes }
    {
        for node in 0..self.sizes.nodes {
            self.close_in(labels, k, node);
        }
    }

    // From no pair of a node that the net labels below a moment can one get out.
    fn close_in(&mut self, labels: &Labels, k: u16, node: u32)
        requires labels { HasLabels self.old.sizes labels.now }
        requires node { node < self.old.sizes.nodes }
        ensures { self.new.sizes ≡ self.old.sizes }
    {
        let first = self.sizes.first_pair(node);
        for moment in 0..self.sizes.moments {
            if labels.get(node, moment as u16) < k {
                self.labels[(first + moment) as usize] = FAR as u16;
            }
        }
    }

    /// Counts the unsent people, and finds when the last of them come.
    pub fn count_unsent(&mut self, cells: &[Cell]) -> u32
        requires { length cells.now ≡ self.old.sizes.cells }
        ensures { self.new.sizes ≡ self.old.sizes }
    {
        let mut people = 0u32;
        for node in 0..self.sizes.nodes {
            let (unsent, until) = count_in(cells, self.sizes, node);
            self.unsent_until[node as usize] = until;
            people = people.saturating_add(unsent);
        }
        people
    }
}

// Whether the flow of each of some cells is its limit. Nothing is skipped after a first where it isn't, so that a processor compares several
// at once.
fn are_full(cells: &[Cell]) -> bool {
    cells
        .iter()
        .fold(0u32, |differ, cell| differ | (cell.flow ^ cell.limit))
        == 0
}

// Whether some of some cells let people in.
fn do_come_in(supplies: &[Cell]) -> bool {
    supplies.iter().fold(0u32, |some, cell| some | cell.limit) > 0
}

// How many unsent people come into a node, and the moment after the last at which they do.
fn count_in(cells: &[Cell], sizes: Sizes, node: u32) -> (u32, u32)
    requires cells { length cells.now ≡ sizes.cells }
    requires node { node < sizes.nodes }
{
    let supplies = supplies_of(cells, sizes, node);
    let mut people = 0u32;
    let mut until = 0;
    if are_full(supplies) {
        return (people, until);
    }
    for moment in 0..sizes.moments {
        let cell = supplies[moment as usize];
        if cell.flow < cell.limit {
            people = people.saturating_add(cell.limit - cell.flow);
            until = moment + 1;
        }
    }
    (people, until)
}

// Lets people come to each node when they first come in there from outside.
fn enter(earliest: &mut [u16], cells: &[Cell], sizes: Sizes)
    requires nodes { length earliest.old ≡ sizes.nodes }
    requires cells { length cells.now ≡ sizes.cells }
{
    for node in 0..sizes.nodes {
        let supplies = supplies_of(cells, sizes, node);
        let first = if do_come_in(supplies) {
            supplies.iter().position(|cell| cell.limit > 0)
        } else {
            None
        };
        earliest[node as usize] = first.map_or(FAR as u16, |moment| moment as u16);
    }
}

// Lets people come earlier to each node by the ways forwards into it. Whether some do.
fn come_earlier(earliest: &mut [u16], ways: &Ways) -> bool
    requires { length earliest.old ≡ ways.now.sizes.nodes }
{
    let mut changed = false;
    for node in 0..ways.sizes.nodes {
        let moment = first_by(earliest, ways, node);
        if moment < earliest[node as usize] {
            earliest[node as usize] = moment;
            changed = true;
        }
    }
    changed
}

// When people first come by the ways forwards into a node.
fn first_by(earliest: &[u16], ways: &Ways, node: u32) -> u16
    requires nodes { length earliest.now ≡ ways.now.sizes.nodes }
    requires node { node < ways.now.sizes.nodes }
{
    let mut first = FAR as u16;
    for way in ways.into(node) {
        let moment = earliest[way.node as usize] as u32 + way.travel();
        if !way.back && moment < first as u32 {
            first = moment as u16;
        }
    }
    first
}
