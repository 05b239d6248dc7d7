//! Global relabelling: the distance labels of relabelled pairs, computed anew.
//!
//! Relabelling one pair after another can go on for long where many pairs raise each other by 1. So after too many relabels without a
//! push all relabelled pairs get the labels that the pairs around them allow: a breadth-first search from these, level by level. The
//! pairs that it doesn't reach are dead. At times all ancestors of theirs are relabelled with them; or, where others were sent before, all
//! pairs are, from the unsent people on.
ghost use Rattle.std.specs.Prelude.{◌≡◌, ◌<◌, ◌≤◌};
ghost use Rattle.residual_ways.specs.Ways.{IsWayWithin};

use crate::look::{least_label, run_label};
use crate::search::BackwardSearch;
use crate::tuning::{FAR, RUN_LENGTH};
use crate::weights::label_after;
use residual_ways::{Residual, Way, is_open, room_in, unsent};

impl BackwardSearch {
    /// Computes the labels of the relabelled pairs anew, leaves those of them that aren't dead, and lets the search begin anew.
    pub fn relabel_all(&mut self, residual: Residual<'_>)
        requires { residual.ways.now.sizes ≡ self.old.sizes }
        ensures { self.new.sizes ≡ self.old.sizes }
    {
        self.unlabel();
        self.find_seeds(residual);
        self.scan_levels(residual);
        self.leave_living();
        self.path.clear();
        self.relabels = 0;
    }

    /// Computes the labels of all pairs before a moment anew, from the unsent people on, and lets the search begin anew. The pairs to which
    /// these can't come are dead. The answer is how many pairs before the moment aren't.
    pub fn relabel_from_unsent(&mut self, residual: Residual<'_>, end: u32) -> usize
        requires { residual.ways.now.sizes ≡ self.old.sizes }
        ensures { self.new.sizes ≡ self.old.sizes }
    {
        self.distances.kill_until(end);
        self.levels.clear();
        for node in 0..self.sizes.nodes {
            self.seed_unsent(residual, node);
        }
        self.scan_levels(residual);
        self.path.clear();
        self.forget();
        self.distances.count_living(end)
    }

    // Lets the pairs at which unsent people come into a node have the label 0.
    fn seed_unsent(&mut self, residual: Residual<'_>, node: u32)
        requires residual { residual.ways.now.sizes ≡ self.old.sizes }
        requires node { node < self.old.sizes.nodes }
        ensures { self.new.sizes ≡ self.old.sizes }
    {
        for moment in 0..self.distances.unsent_until(node) {
            if unsent(residual.cells, self.sizes, node, moment) > 0 {
                self.levels
                    .add_seed(0, self.sizes.first_pair(node) + moment);
            }
        }
    }

    /// Adds the ancestors of the relabelled pairs: those from which steps lead to them, and from which to these again, but for the dead
    /// ones.
    pub fn add_ancestors(&mut self, residual: Residual<'_>)
        requires { residual.ways.now.sizes ≡ self.old.sizes }
        ensures { self.new.sizes ≡ self.old.sizes }
    {
        for at in 0..self.sizes.pairs as usize {
            if at >= self.relabelled.pairs.len() {
                return;
            }
            let pair = self.relabelled.pairs.get(at);
            self.add_parents(residual, pair);
        }
    }

    // Adds the pairs from which steps lead to a pair, but for the dead ones.
    fn add_parents(&mut self, residual: Residual<'_>, pair: u32)
        requires residual { residual.ways.now.sizes ≡ self.old.sizes }
        requires pair { pair < self.old.sizes.pairs }
        ensures { self.new.sizes ≡ self.old.sizes }
    {
        let incoming = residual.incoming_at(pair);
        for way in incoming.ways {
            let Some(step) = incoming.step(*way) else {
                continue;
            };
            if !self.relabelled.has(step.pair)
                && self.distances.get(step.pair) < FAR
                && is_open(residual.cells, step)
            {
                self.relabelled.add(step.pair);
            }
        }
    }

    // Lets the relabelled pairs be dead for now.
    fn unlabel(&mut self)
        ensures { self.new.sizes ≡ self.old.sizes }
    {
        for at in 0..self.relabelled.pairs.len() {
            self.distances.set(self.relabelled.pairs.get(at), FAR, 0);
        }
    }

    // Finds the labels that the relabelled pairs get from others, the lowest first.
    fn find_seeds(&mut self, residual: Residual<'_>)
        requires { residual.ways.now.sizes ≡ self.old.sizes }
        ensures { self.new.sizes ≡ self.old.sizes }
    {
        self.levels.clear();
        for at in 0..self.relabelled.pairs.len() {
            let pair = self.relabelled.pairs.get(at);
            let label = self.seed_label(residual, pair);
            if label < FAR {
                self.levels.add_seed(label, pair);
            }
        }
        self.levels.sort();
    }

    // The least label that a pair may have by the steps to it.
    fn seed_label(&self, residual: Residual<'_>, pair: u32) -> u32
        requires residual { residual.ways.now.sizes ≡ self.now.sizes }
        requires pair { pair < self.now.sizes.pairs }
    {
        let (node, moment) = self.sizes.node_and_moment(pair);
        if self.distances.is_source(residual.cells, node, moment) {
            return 0;
        }
        let incoming = residual.incoming(node, moment);
        let (least, _) = least_label(&incoming, &self.distances, 0);
        if least <= self.distances.limit as u32 + 1 {
            return least;
        }
        least.min(run_label(&incoming, &self.distances, 0))
    }

    // Hands the labels on, level by level.
    fn scan_levels(&mut self, residual: Residual<'_>)
        requires { residual.ways.now.sizes ≡ self.old.sizes }
        ensures { self.new.sizes ≡ self.old.sizes }
    {
        let mut seeded = 0;
        for level in 0..FAR {
            seeded = self.seed(level, seeded);
            if self.levels.frontier.len() == 0 && seeded >= self.levels.seeds.len() {
                return;
            }
            self.scan_level(residual, level);
            self.levels.go_on();
        }
    }

    // Adds to a level the pairs that get it from others than those relabelled, from one of these labels on. The answer is how many are
    // done.
    fn seed(&mut self, level: u32, from: usize) -> usize
        requires { level < 65535 }
        ensures { self.new.sizes ≡ self.old.sizes }
    {
        for at in from..self.levels.seeds.len() {
            let (label, pair) = self.levels.seeds[at];
            if label != level {
                return at;
            }
            if level < self.distances.get(pair) {
                self.distances.set(pair, level, 0);
                self.levels.frontier.add(pair);
            }
        }
        self.levels.seeds.len()
    }

    // Scans all pairs of a level, those that come to it meanwhile too.
    fn scan_level(&mut self, residual: Residual<'_>, level: u32)
        requires residual { residual.ways.now.sizes ≡ self.old.sizes }
        requires level { level < 65535 }
        ensures { self.new.sizes ≡ self.old.sizes }
    {
        for at in 0..self.sizes.pairs as usize {
            if at >= self.levels.frontier.len() {
                return;
            }
            let pair = self.levels.frontier.get(at);
            if self.distances.get(pair) == level {
                self.scan(residual, pair, level);
            }
        }
    }

    // Lets the pairs to which steps lead from a pair have no higher label than it allows. The step that leads on to a pair goes over the
    // cell of one that leads in from there, the other way.
    fn scan(&mut self, residual: Residual<'_>, pair: u32, level: u32)
        requires residual { residual.ways.now.sizes ≡ self.old.sizes }
        requires pair { pair < self.old.sizes.pairs }
        requires level { level < 65535 }
        ensures { self.new.sizes ≡ self.old.sizes }
    {
        let incoming = residual.incoming_at(pair);
        for way in incoming.ways {
            let Some(begun) = way.begun(incoming.sizes, incoming.moment) else {
                continue;
            };
            if way.back {
                let ahead = residual.cells[(way.first_cell + incoming.moment) as usize];
                if room_in(ahead) > 0 {
                    let after = label_after(*way, level);
                    self.lower(way.first_pair + begun, after, level);
                }
            } else if level >= self.distances.limit as u32 && way.is_wait(incoming.sizes) {
                self.scan_run(residual, *way, begun, level);
            } else {
                let before = residual.cells[(way.first_cell + begun) as usize];
                if before.flow > 0 {
                    self.lower(way.first_pair + begun, level + 1, level);
                }
            }
        }
    }

    // Lets the pairs to which a run of waits is taken back, from the one that begins at a moment on, have no higher label than it allows. A pair
    // that is as low as the level hands it on itself.
    fn scan_run(&mut self, residual: Residual<'_>, way: Way, begun: u32, level: u32)
        requires residual { residual.ways.now.sizes ≡ self.old.sizes }
        requires way { IsWayWithin self.old.sizes way }
        requires begun { begun < self.old.sizes.moments }
        requires level { level < 65535 }
        ensures { self.new.sizes ≡ self.old.sizes }
    {
        for passed in 0..RUN_LENGTH.min(begun + 1) {
            let at = begun - passed;
            let pair = way.first_pair + at;
            let wait = residual.cells[(way.first_cell + at) as usize];
            if wait.flow == 0 || self.distances.get(pair) <= level {
                return;
            }
            self.lower(pair, level + 1, level);
        }
    }

    // Lets a pair have no higher label than one of a level or of the next.
    fn lower(&mut self, pair: u32, label: u32, level: u32)
        requires pair { pair < self.old.sizes.pairs }
        requires label { label ≤ 65535 }
        ensures { self.new.sizes ≡ self.old.sizes }
    {
        if label >= self.distances.get(pair) {
            return;
        }
        self.distances.set(pair, label, 0);
        if label == level {
            self.levels.frontier.add(pair);
        } else {
            self.levels.next.add(pair);
        }
    }

    // Leaves those of the relabelled pairs that aren't dead.
    fn leave_living(&mut self)
        ensures { self.new.sizes ≡ self.old.sizes }
    {
        self.relabelled.swap(&mut self.levels.frontier);
        for at in 0..self.levels.frontier.len() {
            let pair = self.levels.frontier.get(at);
            if self.distances.get(pair) < FAR {
                self.relabelled.add(pair);
            }
        }
    }
}
