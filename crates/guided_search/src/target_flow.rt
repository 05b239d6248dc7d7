//! The flow that a net is to come to.
//!
//! Where people are sent already, a search from no flow tells how many can arrive by each moment, and by which ways. What its
//! flow has more than the net's at some places and less at others is made of paths that bring people to a moment, from later
//! arrivals or from unsent people, and of circles: so each path brings people straight to where they are to arrive. Where an edit is
//! undone, that flow is known already: it is the one before the edit.
ghost use Rattle.std.specs.Prelude.{◌≡◌, ◌<◌, ◌≤◌, IfOk, IfSome, IsTrue, length, vec_capacity, vec_len};
ghost use Rattle.std.specs.List.{All};
ghost use Rattle.residual_ways.specs.Steps.{IsStepWithin};
ghost use Rattle.residual_ways.specs.Ways.{IsWayWithin};

use crate::lists::add;
use crate::search::Progress;
use crate::shortest_paths::ShortestPaths;
use crate::surplus::{Surplus, lower, lower_all};
use residual_net::{Cell, Leg};
use residual_ways::{Residual, Sizes, Step, Way};
use std::alloc::{AllocError, Global};

// How far a search has come at a pair.
#[derive(Clone, Copy, Default)]
struct Visit {
    // 0 until nobody at the pair may be sent, and then 1 more than its current arc. Past 254 ways it begins again.
    current_arc: u8,
    // How many steps lead up to it on the path, and 0 where it isn't on it.
    height: u32,
}

/// A flow to come to, and how far a search along its surplus has come.
///
/// Its memory isn't touched before a target flow is sought or set, and that of the path only as far as searches go.
#[derive(Drop)]
pub struct TargetFlow {
    /// How large the building is.
    sizes: Sizes,
    /// The flow, with the limits of the net.
    cells: Vec<Cell>,
    /// How far searches have come at each pair.
    visits: Vec<Visit>,
    /// The steps of the path, from its exit way on.
    steps: Vec<Step>,
    /// The index of the exit way at which the path ends.
    exit_way: usize,
    /// The arrival moment.
    moment: u32,
    /// The step by which people come to the path, once there is one.
    origin: Option<Step>,
    /// How many people are to go along it.
    most: u32,
    ghost within: { All (IsStepWithin sizes) steps.items },
    ghost room: { sizes.pairs ≤ vec_capacity steps },
}

impl TargetFlow {
    ghost use Rattle.guided_search.specs.Targets.{IsReady};

    /// No flow yet.
    pub fn new(alloc: Global, sizes: Sizes) -> Result<TargetFlow, AllocError>
        ensures { IfOk result (λ target. target.sizes ≡ sizes) }
    {
        let cells = Vec::with_capacity(alloc, sizes.cells as usize)?;
        let visits = Vec::with_capacity(alloc, sizes.pairs as usize)?;
        let steps = Vec::with_capacity(alloc, sizes.pairs as usize)?;
        Ok(TargetFlow {
            sizes,
            cells,
            visits,
            steps,
            exit_way: 0,
            moment: 0,
            origin: None,
            most: 0,
        })
    }

    // Whether a search along it may begin: a flow is set or was sought, and there is memory for both.
    fn is_ready(&self) -> bool
        ensures { IsTrue result → IsReady self.now.sizes self.now }
    {
        self.cells.len() == self.sizes.cells as usize
            && self.visits.len() == self.sizes.pairs as usize
    }

    /// Makes the flow of some cells the one to come to. Whether there is memory for it.
    pub fn set(&mut self, cells: &[Cell]) -> bool
        ensures sizes { self.new.sizes ≡ self.old.sizes }
        ensures cells { IsTrue result → (vec_len self.new.cells ≡ length cells.now) }
    {
        self.cells.clear();
        self.cells.extend_from_slice(cells).is_ok()
    }

    /// Forgets the flow.
    pub fn clear(&mut self)
        ensures { self.new.sizes ≡ self.old.sizes }
    {
        self.cells.clear();
    }

    /// Whether its limits are those of a net: then it is known, and needn't be sought.
    pub fn has_limits_of(&self, cells: &[Cell]) -> bool {
        let own = self.cells.as_slice();
        let both = own.iter().zip(cells);
        own.len() == cells.len()
            && both.fold(0u32, |differ, (cell, now)| {
                differ | (cell.limit ^ now.limit)
            }) == 0
    }

    /// Forgets how far searches came. Whether there is memory for one.
    pub fn restart(&mut self) -> bool
        ensures { self.new.sizes ≡ self.old.sizes }
    {
        let pairs = self.sizes.pairs as usize;
        self.steps.clear();
        self.visits.clear();
        self.visits.resize(pairs, Visit::default()).is_ok()
    }

    /// Finds the flow to come to, by a search from no flow, as far as there is memory for it.
    pub fn seek(&mut self, shortest_paths: &mut ShortestPaths, cells: &[Cell])
        requires sizes { shortest_paths.old.sizes ≡ self.old.sizes }
        requires cells { length cells.now ≡ self.old.sizes.cells }
        ensures sizes { self.new.sizes ≡ self.old.sizes }
        ensures shortest_paths { shortest_paths.new.sizes ≡ shortest_paths.old.sizes }
    {
        if self.set(cells) {
            empty(self.cells.as_mut_slice());
            shortest_paths.send_all(self.cells.as_mut_slice());
        }
    }

    /// Begins with an arrival moment.
    pub fn begin(&mut self, k: u32)
        ensures { self.new.sizes ≡ self.old.sizes }
    {
        if self.is_ready() {
            self.leave(0);
        }
        self.exit_way = 0;
        self.moment = k;
    }

    /// Searches on to people who may be sent. Whether there are any.
    pub fn find(&mut self, net: Residual<'_>) -> bool
        requires { net.ways.now.sizes ≡ self.old.sizes }
        ensures { self.new.sizes ≡ self.old.sizes }
    {
        if !self.is_ready() {
            return false;
        }
        for _ in 0..net.ways.rounds() {
            match self.step_on(net) {
                Progress::Going => {}
                Progress::Found => return true,
                Progress::Stale | Progress::Exhausted | Progress::Full => return false,
            }
        }
        false
    }

    // Advances a step, or retreats where no way leads on. Where the path is empty it begins anew, at the next exit way.
    fn step_on(&mut self, net: Residual<'_>) -> Progress
        requires { IsReady net.ways.now.sizes self.old }
        ensures { IsReady net.entry.ways.now.sizes self.new }
    {
        let Some(last) = self.steps.as_slice().last().copied() else {
            return self.open(net);
        };
        let current_arc = self.visits[last.pair as usize].current_arc as usize;
        if current_arc == 0 && self.arrive(net, last) {
            return Progress::Found;
        }
        let ways = net.ways.into(last.node);
        let from = current_arc.saturating_sub(1);
        let target = self.cells.as_slice();
        let wanted = Surplus { target, net }.wanted(ways, from, last.moment);
        let Some((index, step)) = wanted else {
            self.retreat(net, last);
            return Progress::Going;
        };
        let current_arc = ((index % 256 + 1) % 256) as u8;
        self.visits[last.pair as usize].current_arc = current_arc;
        let progress = self.advance(net, step);
        if step.node == last.node {
            self.wait_on(net, ways[index], current_arc);
        }
        progress
    }

    // Goes on by a wait, as long as it is the current arc of the last pair too, and more people are to go over it.
    fn wait_on(&mut self, net: Residual<'_>, wait: Way, current_arc: u8)
        requires sought { IsReady net.ways.now.sizes self.old }
        requires wait { IsWayWithin net.ways.now.sizes wait }
        ensures { IsReady net.entry.ways.now.sizes self.new }
    {
        let Some(mut last) = self.steps.as_slice().last().copied() else {
            return;
        };
        // Where a circle was taken out, the path may end in another node.
        if last.node != wait.node {
            return;
        }
        for _ in 0..self.sizes.moments {
            if self.visits[last.pair as usize].current_arc != current_arc {
                return;
            }
            let Some(step) = wait.step(self.sizes, last.moment) else {
                return;
            };
            let target = self.cells.as_slice();
            let is_on_path = self.visits[step.pair as usize].height > 0;
            if is_on_path || (Surplus { target, net }).over(step) == 0 {
                return;
            }
            if let Progress::Full = self.push(step) {
                return;
            }
            last = step;
        }
    }

    // Begins a path at the next exit way by which more people are to arrive at the moment.
    fn open(&mut self, net: Residual<'_>) -> Progress
        requires { IsReady net.ways.now.sizes self.old }
        ensures { IsReady net.entry.ways.now.sizes self.new }
    {
        if self.moment >= self.sizes.moments {
            return Progress::Exhausted;
        }
        let ways = net.ways.exit_ways();
        let target = self.cells.as_slice();
        let wanted = Surplus { target, net }.wanted(ways, self.exit_way, self.moment);
        let Some((at, step)) = wanted else {
            return Progress::Exhausted;
        };
        self.exit_way = at;
        self.push(step)
    }

    // Finds people at the pair of a step who may be sent, and how many are to go the whole path. Whether there are any.
    fn arrive(&mut self, net: Residual<'_>, last: Step) -> bool
        requires sought { IsReady net.ways.now.sizes self.old }
        requires last { IsStepWithin net.ways.now.sizes last }
        ensures { IsReady net.entry.ways.now.sizes self.new }
    {
        let target = self.cells.as_slice();
        let surplus = Surplus { target, net };
        let Some(origin) = surplus.source(last, self.moment) else {
            return false;
        };
        self.most = surplus.along(origin, self.steps.as_slice(), 0);
        self.origin = Some(origin);
        true
    }

    // Takes a step into the last pair. Where that closes a circle with the path, the circle is taken out of the flow.
    fn advance(&mut self, net: Residual<'_>, step: Step) -> Progress
        requires sought { IsReady net.ways.now.sizes self.old }
        requires step { IsStepWithin net.ways.now.sizes step }
        ensures { IsReady net.entry.ways.now.sizes self.new }
    {
        let height = self.visits[step.pair as usize].height as usize;
        if height == 0 {
            return self.push(step);
        }
        self.unwind(net, height, step);
        Progress::Going
    }

    // Adds a step to the path, if there is room for it.
    fn push(&mut self, step: Step) -> Progress
        requires sought { IsReady self.old.sizes self.old }
        requires step { IsStepWithin self.old.sizes step }
        ensures { IsReady self.old.sizes self.new }
    {
        if self.steps.len() >= self.sizes.pairs as usize {
            return Progress::Full;
        }
        self.steps.push_reserved(step);
        self.visits[step.pair as usize].height = self.steps.len() as u32;
        Progress::Going
    }

    // Goes back a step, the last one. Nobody is to go over it any more.
    fn retreat(&mut self, net: Residual<'_>, last: Step)
        requires sought { IsReady net.ways.now.sizes self.old }
        requires last { IsStepWithin net.ways.now.sizes last }
        ensures { IsReady net.entry.ways.now.sizes self.new }
    {
        let target = self.cells.as_slice();
        let people = Surplus { target, net }.over(last);
        lower(self.cells.as_mut_slice(), last, people);
        let left = self.steps.len().saturating_sub(1);
        self.leave(left);
    }

    // Takes a circle out of the flow: a step, and those of the path from an index on. The search goes on before the first of these
    // over which nobody is to go then.
    fn unwind(&mut self, net: Residual<'_>, first: usize, closing: Step)
        requires sought { IsReady net.ways.now.sizes self.old }
        requires closing { IsStepWithin net.ways.now.sizes closing }
        ensures { IsReady net.entry.ways.now.sizes self.new }
    {
        let target = self.cells.as_slice();
        let people = Surplus { target, net }.along(closing, self.steps.as_slice(), first);
        let target = self.cells.as_mut_slice();
        lower(target, closing, people);
        lower_all(target, self.steps.as_slice(), first, people);
        self.go_back(net, first);
    }

    // Goes back to the pair before the first step over which no more people are to go, from an index on.
    fn go_back(&mut self, net: Residual<'_>, first: usize)
        requires { IsReady net.ways.now.sizes self.old }
        ensures { IsReady net.entry.ways.now.sizes self.new }
    {
        let target = self.cells.as_slice();
        let left = Surplus { target, net }.first_done(self.steps.as_slice(), first);
        self.leave(left);
    }

    // Goes back to so many steps.
    fn leave(&mut self, count: usize)
        requires { IsReady self.old.sizes self.old }
        ensures { IsReady self.old.sizes self.new }
    {
        clear_heights(self.visits.as_mut_slice(), self.steps.as_slice(), count);
        self.steps.truncate(count);
    }

    /// The most people who are to be sent along the hint.
    pub fn most(&self) -> u32 {
        self.most
    }

    /// Fills a list with the legs of the hint.
    pub fn lay(&self, legs: &mut Vec<Leg>)
        ensures { vec_capacity legs.new ≡ vec_capacity legs.old }
    {
        legs.clear();
        if let Some(origin) = self.origin {
            let step = origin.path_step(self.sizes);
            add(legs, Leg { since: 0, step });
        }
        let mut waited = None;
        for step in self.steps.as_slice().iter().rev() {
            let since = waited.unwrap_or(step.moment);
            if step.waits(self.sizes) {
                waited = Some(since);
            } else {
                add(legs, step.leg_since(self.sizes, since));
                waited = None;
            }
        }
    }

    /// People were sent along the hint: goes back to the pair before the first step over which no more are to go.
    pub fn sent(&mut self, net: Residual<'_>)
        requires { net.ways.now.sizes ≡ self.old.sizes }
        ensures { self.new.sizes ≡ self.old.sizes }
    {
        if self.is_ready() {
            self.go_back(net, 0);
        }
    }
}

// Lets nobody go over cells.
fn empty(cells: &mut [Cell]) {
    for cell in cells.iter_mut() {
        cell.flow = 0;
    }
}

// Takes the pairs of some steps, from an index on, off a path.
fn clear_heights(visits: &mut [Visit], steps: &[Step], first: usize)
    requires { All (λ step. step.pair < length visits.old) steps.now }
{
    for at in first..steps.len() {
        visits[steps[at].pair as usize].height = 0;
    }
}
