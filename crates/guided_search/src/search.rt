//! A search back from an arrival along admissible steps: those over which the distance label rises by what they weigh.
//!
//! It advances while there is one. Where there is none it relabels the pair, and retreats a step.
ghost use Rattle.std.specs.Prelude.{◌≡◌, ◌<◌, ◌≤◌, IfOk};
ghost use Rattle.std.specs.Coded.{Coded-set};
ghost use Rattle.residual_ways.specs.Steps.{IsStepWithin};
ghost use Rattle.residual_ways.specs.Ways.{IsWayWithin};

use crate::distances::Distances;
use crate::levels::Levels;
use crate::look::{Look, look_from};
use crate::partial_path::PartialPath;
use crate::relabelled::Relabelled;
use crate::tuning::{FAR, PATH_LIMIT, RELABEL_FACTOR, RELABEL_LIMIT};
use residual_ways::{Residual, Sizes, Step, Way, Ways};
use std::alloc::{AllocError, Global};

/// What comes of a step of a search.
#[derive(Clone, Copy)]
pub enum Progress {
    /// It goes on.
    Going,
    /// It has come to people who can be sent.
    Found,
    /// Too many pairs were relabelled since people were last sent.
    Stale,
    /// It has come to an end without any.
    Exhausted,
    /// There is no room for a longer path.
    Full,
}

/// A search, and what it knows of each pair from earlier ones.
#[derive(Drop)]
pub struct BackwardSearch {
    /// How large the building is.
    pub sizes: Sizes,
    /// The distance labels and current arcs. They outlive the moments.
    pub distances: Distances,
    /// The path, as far as it has come.
    pub path: PartialPath,
    /// The pairs that were relabelled since people were last sent.
    pub relabelled: Relabelled,
    /// How many times pairs were relabelled one by one since then.
    pub relabels: usize,
    /// The levels of a global relabelling.
    pub levels: Levels,
    ghost distances_fit: { distances.sizes ≡ sizes } by { Coded-set sizes-code distances.sizes sizes },
    ghost path_fits: { path.sizes ≡ sizes } by { Coded-set sizes-code path.sizes sizes },
    ghost relabelled_fit: { relabelled.pairs.count ≡ sizes.pairs },
    ghost levels_fit: { levels.pairs ≡ sizes.pairs },
}

impl BackwardSearch {
    /// An empty path, with nothing known.
    pub fn new(alloc: Global, sizes: Sizes) -> Result<BackwardSearch, AllocError>
        ensures { IfOk result (λ search. search.sizes ≡ sizes) }
    {
        let path = PartialPath::new(alloc, sizes, (sizes.pairs as usize).min(PATH_LIMIT))?;
        let relabelled = Relabelled::new(alloc, sizes.pairs)?;
        let levels = Levels::new(alloc, sizes.pairs)?;
        let distances = Distances::new(alloc, sizes)?;
        Ok(BackwardSearch {
            sizes,
            distances,
            path,
            relabelled,
            relabels: 0,
            levels,
        })
    }

    /// Forgets which pairs were relabelled: people were sent since, or the search ends elsewhere.
    pub fn forget(&mut self)
        ensures { self.new.sizes ≡ self.old.sizes }
    {
        self.relabels = 0;
        if self.relabelled.pairs.len() > 0 {
            self.relabelled.clear();
        }
    }

    /// Whether its path leads away from the exits at no weight.
    pub fn is_astray(&self, ways: &Ways) -> bool
        requires { ways.now.sizes ≡ self.now.sizes }
    {
        self.path.leads_astray(&self.distances, ways)
    }

    /// Advances a step, or retreats where no way is admissible.
    pub fn step_on(&mut self, residual: Residual<'_>) -> Progress
        requires { residual.ways.now.sizes ≡ self.old.sizes }
        ensures { self.new.sizes ≡ self.old.sizes }
    {
        let Some(last) = self.path.last() else {
            return Progress::Exhausted;
        };
        let pair = last.pair();
        let label = self.distances.get(pair);
        if label == 0
            && self
                .distances
                .is_source(residual.cells, last.step.node, last.since)
        {
            return Progress::Found;
        }
        if label < FAR {
            let incoming = residual.incoming(last.step.node, last.since);
            let from = self.distances.current_arc(pair);
            match look_from(&incoming, &self.distances, from, label) {
                Look::Admissible { index, step } => {
                    self.distances.set_current_arc(pair, index);
                    return self.advance(residual, index, step);
                }
                Look::Run { index, way, since } => {
                    self.distances.set_current_arc(pair, index);
                    return self.take_back(way, last.since, since);
                }
                Look::Least { label, index } => self.relabel(pair, label, index),
            }
        }
        self.path.retreat();
        let enough = self.relabelled.pairs.len().saturating_mul(RELABEL_FACTOR);
        if self.relabels > enough.saturating_add(RELABEL_LIMIT) {
            Progress::Stale
        } else {
            Progress::Going
        }
    }

    // Takes an admissible step into the last pair: a wait makes its stay longer, another step begins a stay.
    fn advance(&mut self, residual: Residual<'_>, index: usize, step: Step) -> Progress
        requires residual { residual.ways.now.sizes ≡ self.old.sizes }
        requires step { IsStepWithin self.old.sizes step }
        ensures { self.new.sizes ≡ self.old.sizes }
    {
        if !step.waits(self.sizes) {
            return if self.path.push(step) {
                Progress::Going
            } else {
                Progress::Full
            };
        }
        // A run of waits is taken at once where the wait is the first way into its node.
        let since = if index == 0 {
            self.distances.wait_back(residual, step)
        } else {
            step.moment
        };
        self.path.wait_since(since);
        Progress::Going
    }

    // Takes back a run of waits into the last pair.
    fn take_back(&mut self, way: Way, moment: u32, since: u32) -> Progress
        requires way { IsWayWithin self.old.sizes way }
        requires moment { moment ≤ since }
        requires since { since < self.old.sizes.moments }
        ensures { self.new.sizes ≡ self.old.sizes }
    {
        if self.path.take_back(way, moment, since) {
            Progress::Going
        } else {
            Progress::Full
        }
    }

    // Raises the distance label of a pair to what its ways allow.
    fn relabel(&mut self, pair: u32, label: u32, index: usize)
        requires pair { pair < self.old.sizes.pairs }
        requires label { label ≤ 65535 }
        ensures { self.new.sizes ≡ self.old.sizes }
    {
        self.distances.set(pair, label, index);
        if label < FAR {
            self.relabelled.add(pair);
        }
        self.relabels = self.relabels.saturating_add(1);
    }
}
