//! What hints at the next path: a search for shortest paths where people are unsent, otherwise a target flow.
ghost use Rattle.std.specs.Prelude.{◌≡◌, ◌<◌, ◌≤◌, IfOk, IsTrue, length};
ghost use Rattle.std.specs.Coded.{Coded-set};
ghost use Rattle.guided_search.specs.Labelled.{HasLabels};

use crate::budget::Budget;
use crate::shortest_paths::ShortestPaths;
use crate::target_flow::TargetFlow;
use evac_law::{Labels, Model as Building};
use residual_net::{Cell, Leg, Net};
use residual_ways::{Residual, Sizes, count_sent, is_all_sent};
use std::alloc::{AllocError, Global};

// How far a path finder is with a net.
#[derive(Clone, Copy)]
enum Phase {
    // The net isn't what it was, or nothing is known of it yet.
    Unknown,
    // Everybody was sent at the moment, so that it began with a flood.
    Flood,
    // It follows shortest paths.
    ShortestPaths,
    // It follows a target flow.
    TargetFlow,
}

/// Hints at augmenting paths.
#[derive(Drop)]
pub struct PathFinder {
    /// How large the building is.
    sizes: Sizes,
    /// The search for shortest paths.
    shortest_paths: ShortestPaths,
    /// The flow that the net is led over to where shortest paths are dear.
    target_flow: TargetFlow,
    /// The legs of the hint.
    legs: Vec<Leg>,
    /// Which of the two it follows.
    phase: Phase,
    /// The moment with which it began last.
    moment: u16,
    /// What the search for shortest paths may cost, if not as much as it likes.
    budget: Option<Budget>,
    /// Whether the target flow was recalled since it was last renewed.
    is_recalled: bool,
    ghost paths_fit: { shortest_paths.sizes ≡ sizes } by { Coded-set sizes-code shortest_paths.sizes sizes },
    ghost target_fits: { target_flow.sizes ≡ sizes } by { Coded-set sizes-code target_flow.sizes sizes },
}

// Whether cells are those of a building. A net of another one gets no hint.
fn fits(cells: &[Cell], sizes: Sizes) -> bool
    ensures { IsTrue result → (length cells.now ≡ sizes.cells) }
{
    cells.len() == sizes.cells as usize
}

// Whether there is a label for each node of a building at each moment.
fn has_labels(labels: &Labels, sizes: Sizes) -> bool
    ensures { IsTrue result → HasLabels sizes labels.now }
{
    labels.nodes() == sizes.nodes && labels.horizon() as u32 + 1 == sizes.moments
}

impl PathFinder {
    /// A path finder for a building.
    pub fn new(alloc: Global, model: &Building) -> Result<PathFinder, AllocError>
        ensures nodes { IfOk result (λ finder. finder.sizes.nodes ≤ length model.now.nodes) }
        ensures arcs { IfOk result (λ finder. finder.sizes.arcs ≤ length model.now.arcs) }
    {
        let sizes = Sizes::of(model);
        let legs = Vec::with_capacity(alloc, sizes.pairs as usize + 1)?;
        let target_flow = TargetFlow::new(alloc, sizes)?;
        let shortest_paths = ShortestPaths::new(alloc, model, sizes)?;
        Ok(PathFinder {
            sizes,
            shortest_paths,
            target_flow,
            legs,
            phase: Phase::Unknown,
            moment: 0,
            budget: None,
            is_recalled: false,
        })
    }

    /// Forgets what it knows, but for a flow that was recalled since: the net isn't what it was.
    pub fn renew(&mut self)
        ensures { self.new.sizes ≡ self.old.sizes }
    {
        self.phase = Phase::Unknown;
        if !self.is_recalled {
            self.target_flow.clear();
        }
        self.is_recalled = false;
    }

    /// Recalls the flow that a net saved last: where an edit is undone, the net comes to it again.
    pub fn recall(&mut self, net: &Net)
        ensures { self.new.sizes ≡ self.old.sizes }
    {
        self.is_recalled = self.target_flow.set(net.saved());
    }

    // Whether a moment follows the one with which it began last.
    fn is_next(&self, k: u16) -> bool {
        k as u32 == self.moment as u32 + 1
    }

    /// Whether a moment begins with a flood: everybody is sent and nothing is known yet, so that perhaps nobody can arrive sooner. Until a
    /// flood meets somebody, the moments after it begin with one too, with no further look.
    pub fn floods_first(&mut self, net: &Net, k: u16) -> bool
        ensures { self.new.sizes ≡ self.old.sizes }
    {
        let cells = net.cells();
        let sent = match self.phase {
            Phase::ShortestPaths | Phase::TargetFlow if self.is_next(k) => return false,
            Phase::Flood if self.is_next(k) => true,
            _ => fits(cells, self.sizes) && is_all_sent(cells, self.sizes),
        };
        self.moment = k;
        self.phase = if sent { Phase::Flood } else { Phase::Unknown };
        sent
    }

    /// Begins with an arrival moment. What it follows goes on, if it began with the moment before.
    pub fn begin(&mut self, net: &Net, labels: &Labels, k: u16)
        ensures { self.new.sizes ≡ self.old.sizes }
    {
        let cells = net.cells();
        if !fits(cells, self.sizes) || !has_labels(labels, self.sizes) {
            self.phase = Phase::Unknown;
            return;
        }
        if k as u32 >= self.sizes.moments {
            return;
        }
        let goes_on = self.is_next(k);
        self.moment = k;
        match self.phase {
            Phase::ShortestPaths if goes_on => self.shortest_paths.begin(k as u32),
            Phase::TargetFlow if goes_on => self.target_flow.begin(k as u32),
            _ => self.start(cells, labels, k, net.last_arrival()),
        }
    }

    // Starts with a net of which nothing is known but when the last of its people arrive.
    fn start(&mut self, cells: &[Cell], labels: &Labels, k: u16, last_arrival: u16)
        requires cells { length cells.now ≡ self.old.sizes.cells }
        requires labels { HasLabels self.old.sizes labels.now }
        requires moment { k < self.old.sizes.moments }
        ensures { self.new.sizes ≡ self.old.sizes }
    {
        if self.target_flow.has_limits_of(cells) {
            self.follow();
            return;
        }
        self.shortest_paths.sort(cells);
        if is_all_sent(cells, self.sizes) {
            self.seek(cells);
            return;
        }
        self.shortest_paths.renew(cells, labels, k, last_arrival);
        self.shortest_paths.begin(k as u32);
        let sent = count_sent(cells, self.sizes);
        self.budget = Budget::new(self.sizes.pairs, sent, self.shortest_paths.unsent);
        self.phase = Phase::ShortestPaths;
    }

    // Seeks a target flow, and follows it.
    fn seek(&mut self, cells: &[Cell])
        requires { length cells.now ≡ self.old.sizes.cells }
        ensures { self.new.sizes ≡ self.old.sizes }
    {
        self.target_flow.seek(&mut self.shortest_paths, cells);
        self.follow();
    }

    // Follows the target flow.
    fn follow(&mut self)
        ensures { self.new.sizes ≡ self.old.sizes }
    {
        self.target_flow.restart();
        self.target_flow.begin(self.moment as u32);
        self.phase = Phase::TargetFlow;
    }

    /// People were sent along a path that it didn't find: they were to arrive later. There are more of them as a rule, where some were taken
    /// off ahead of them or a way was opened, and each costs a path. So a target flow leads on.
    pub fn miss(&mut self, net: &Net)
        ensures { self.new.sizes ≡ self.old.sizes }
    {
        let cells = net.cells();
        if !fits(cells, self.sizes) {
            return;
        }
        if let Phase::ShortestPaths = self.phase {
            self.seek(cells);
        }
    }

    /// Searches on to people who can be sent. Whether there are any.
    pub fn find(&mut self, net: &Net) -> bool
        ensures { self.new.sizes ≡ self.old.sizes }
    {
        let cells = net.cells();
        if !fits(cells, self.sizes) {
            return false;
        }
        if let Phase::ShortestPaths = self.phase {
            let found = self.find_shortest(cells);
            if found || self.left() > 0 {
                return found;
            }
            self.seek(cells);
        }
        if let Phase::TargetFlow = self.phase {
            let ways = self.shortest_paths.ways();
            return self.target_flow.find(Residual { cells, ways });
        }
        false
    }

    // How many pairs the search for shortest paths may still relabel globally.
    fn left(&self) -> usize {
        match self.budget {
            Some(budget) => budget.left(),
            None => usize::MAX,
        }
    }

    // Searches on for shortest paths, as far as the budget reaches.
    fn find_shortest(&mut self, cells: &[Cell]) -> bool
        requires { length cells.now ≡ self.old.sizes.cells }
        ensures { self.new.sizes ≡ self.old.sizes }
    {
        let before = self.shortest_paths.global_relabels;
        let most = before
            .saturating_add(self.left())
            .min(self.shortest_paths.most_relabels());
        let found = self.shortest_paths.find(cells, most);
        let spent = self.shortest_paths.global_relabels.saturating_sub(before);
        if let Some(budget) = &mut self.budget {
            budget.spend(spent);
        }
        found
    }

    /// The most people to send along the hint.
    pub fn most(&self) -> u32 {
        match self.phase {
            Phase::TargetFlow => self.target_flow.most(),
            _ => u32::MAX,
        }
    }

    /// The legs of the hint.
    pub fn lay(&mut self) -> &[Leg] {
        match self.phase {
            Phase::TargetFlow => self.target_flow.lay(&mut self.legs),
            _ => self.shortest_paths.lay(&mut self.legs),
        }
        self.legs.as_slice()
    }

    /// People were sent along the hint.
    pub fn sent(&mut self, net: &Net, people: u32)
        ensures { self.new.sizes ≡ self.old.sizes }
    {
        let cells = net.cells();
        if !fits(cells, self.sizes) {
            return;
        }
        if let Phase::TargetFlow = self.phase {
            let ways = self.shortest_paths.ways();
            self.target_flow.sent(Residual { cells, ways });
            return;
        }
        if let Some(budget) = &mut self.budget {
            budget.earn(people);
        }
        self.shortest_paths.sent(cells, people);
    }
}
