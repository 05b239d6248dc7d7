//! The path of a search, as far as it has come.
ghost use Rattle.std.specs.Prelude.{◌≡◌, ◌<◌, ◌≤◌, IfOk, IfSome, length, vec_len};
ghost use Rattle.std.specs.List.{All};
ghost use Rattle.residual_ways.specs.Steps.{IsStayWithin, IsStepWithin};
ghost use Rattle.residual_ways.specs.Ways.{IsWayWithin};

use crate::distances::Distances;
use crate::straight_path::StraightPath;
use crate::waits::have_room;
use residual_net::Cell;
use residual_ways::{Sizes, Stay, Step, Way, Ways, is_open};
use std::alloc::{AllocError, Global};

/// The path of a search, as far as it has come. Memory past its stays isn't touched.
#[derive(Drop)]
pub struct PartialPath {
    /// How large the building is.
    sizes: Sizes,
    /// Its stays, from its exit way on.
    list: Vec<Stay>,
    /// Of each node the index of the last of the stays in it.
    last_at: Vec<usize>,
    ghost within: { All (IsStayWithin sizes) list.items },
    ghost last_fits: { vec_len last_at ≡ sizes.nodes },
}

impl PartialPath {
    /// An empty path, with room for some stays.
    pub fn new(alloc: Global, sizes: Sizes, room: usize) -> Result<PartialPath, AllocError>
        ensures { IfOk result (λ path. path.sizes ≡ sizes) }
    {
        let list = Vec::with_capacity(alloc, room)?;
        let last_at = vec![in alloc; 0usize; sizes.nodes as usize]?;
        Ok(PartialPath {
            sizes,
            list,
            last_at,
        })
    }

    /// The last stay.
    pub fn last(&self) -> Option<Stay>
        ensures { IfSome result (IsStayWithin self.now.sizes) }
    {
        self.list.as_slice().last().copied()
    }

    /// Begins a stay where a step into the last pair begins. Whether there was room for it.
    pub fn push(&mut self, step: Step) -> bool
        requires { IsStepWithin self.old.sizes step }
        ensures { self.new.sizes ≡ self.old.sizes }
    {
        if self.list.len() >= self.list.capacity() {
            return false;
        }
        self.list.push_reserved(Stay::before(step));
        true
    }

    /// Lets the last stay begin at another moment, at that of its step at the latest.
    pub fn wait_since(&mut self, since: u32)
        ensures { self.new.sizes ≡ self.old.sizes }
    {
        let count = self.list.len();
        if count > 0 {
            let stay = &mut self.list[count - 1];
            stay.since = since.min(stay.step.moment);
        }
    }

    /// Takes waits back one after another, from a later moment on up to that of the last pair. Whether there was room for them.
    #[inline(never)]
    pub fn take_back(&mut self, way: Way, moment: u32, since: u32) -> bool
        requires way { IsWayWithin self.old.sizes way }
        requires moment { moment ≤ since }
        requires since { since < self.old.sizes.moments }
        ensures { self.new.sizes ≡ self.old.sizes }
    {
        let from = self.cut_circle(way.node, moment, since);
        for later in from..since {
            if !self.push(way.step_between(later + 1, later)) {
                return false;
            }
        }
        true
    }

    // Where the path comes to a node at a moment of a run already, all that comes after is a circle: ends the path there. The answer is the
    // moment from which on the run is left to be taken back.
    fn cut_circle(&mut self, node: u32, moment: u32, since: u32) -> u32
        requires { moment ≤ since }
        ensures path { self.new.sizes ≡ self.old.sizes }
        ensures moment { result ≤ since }
    {
        for at in 0..self.list.len() {
            let stay = self.list[at];
            if stay.step.node == node && stay.step.moment > moment && stay.since <= since {
                let from = stay.step.moment.min(since);
                self.list[at].since = from;
                self.list.truncate(at + 1);
                return from;
            }
        }
        moment
    }

    // Leaves the last stay, and the whole of a run of waits that is taken back.
    fn leave_last(&mut self)
        ensures { self.new.sizes ≡ self.old.sizes }
    {
        for _ in 0..self.sizes.moments {
            let count = self.list.len();
            if count == 0 {
                return;
            }
            let step = self.list[count - 1].step;
            self.list.truncate(count - 1);
            if !self.is_run_before(step) {
                return;
            }
        }
    }

    // Whether the last stay takes back the wait before that of a step.
    fn is_run_before(&self, step: Step) -> bool {
        let Some(stay) = self.last() else {
            return false;
        };
        stay.step.takes_wait_back(self.sizes)
            && stay.step.node == step.node
            && stay.since + 1 == step.moment
    }

    /// Goes back a step: from the last stay to its next moment, or to the stay before.
    pub fn retreat(&mut self)
        ensures { self.new.sizes ≡ self.old.sizes }
    {
        let count = self.list.len();
        if count == 0 {
            return;
        }
        let stay = &mut self.list[count - 1];
        if stay.since < stay.step.moment {
            stay.since += 1;
        } else {
            self.leave_last();
        }
    }

    /// Goes back to before its exit way.
    pub fn clear(&mut self)
        ensures { self.new.sizes ≡ self.old.sizes }
    {
        self.list.clear();
    }

    /// Goes back to the pair before the full step nearest the exit.
    pub fn turn_back(&mut self, cells: &[Cell])
        requires { length cells.now ≡ self.old.sizes.cells }
        ensures { self.new.sizes ≡ self.old.sizes }
    {
        for at in 0..self.list.len() {
            let stay = self.list[at];
            if !is_open(cells, stay.step) {
                self.list.truncate(at + 1);
                self.leave_last();
                return;
            }
            if let Some(since) = full_wait(cells, self.sizes, stay) {
                self.list[at].since = since;
                self.list.truncate(at + 1);
                return;
            }
        }
    }

    /// Lays the path without the circles that can be waited out.
    #[inline(never)]
    pub fn straighten(&mut self, cells: &[Cell], straight: &mut StraightPath)
        requires cells { length cells.now ≡ self.old.sizes.cells }
        requires straight { straight.old.sizes ≡ self.old.sizes }
        ensures path { self.new.sizes ≡ self.old.sizes }
        ensures straight { straight.new.sizes ≡ straight.old.sizes }
    {
        self.find_last();
        straight.clear();
        let mut next = 0;
        for at in 0..self.list.len() {
            if at >= next {
                let (stay, after) = self.without_circle(cells, at);
                straight.add(stay);
                next = after;
            }
        }
    }

    /// Whether it leads away from the exits at no weight: by an arc that begins at a distance label of at least the limit.
    pub fn leads_astray(&self, distances: &Distances, ways: &Ways) -> bool
        requires distances { distances.now.sizes ≡ self.now.sizes }
        requires ways { ways.now.sizes ≡ self.now.sizes }
    {
        for at in 1..self.list.len() {
            let head = self.list[at - 1].step.node;
            let step = self.list[at].step;
            let is_free = distances.get(step.pair) >= distances.limit as u32;
            if is_free && !step.back && step.node != head && ways.leads_away(step.node, head) {
                return true;
            }
        }
        false
    }

    // Finds the last stay in each node.
    fn find_last(&mut self)
        ensures { self.new.sizes ≡ self.old.sizes }
    {
        for at in 0..self.list.len() {
            let node = self.list[at].step.node;
            self.last_at[node as usize] = at;
        }
    }

    // A stay of the path that lasts for the longest circle before it that can be waited out, and the index of the stay after that.
    fn without_circle(&self, cells: &[Cell], at: usize) -> (Stay, usize)
        requires cells { length cells.now ≡ self.now.sizes.cells }
        requires at { at < vec_len self.now.list }
        ensures { IsStayWithin self.now.sizes result.0 }
    {
        let stay = self.list[at];
        let last = self.last_at[stay.step.node as usize];
        if last <= at || last >= self.list.len() || stay.step.takes_wait_back(self.sizes) {
            return (stay, at + 1);
        }
        let lowest = room_from(cells, self.sizes, stay);
        for later in (at + 1..=last).rev() {
            let other = self.list[later];
            if other.step.node == stay.step.node
                && lowest <= other.since
                && other.since <= stay.since
            {
                let since = other.since;
                return (Stay { since, ..stay }, later + 1);
            }
        }
        (stay, at + 1)
    }
}

// The moment after the last full wait of a stay.
fn full_wait(cells: &[Cell], sizes: Sizes, stay: Stay) -> Option<u32>
    requires cells { length cells.now ≡ sizes.cells }
    requires stay { IsStayWithin sizes stay }
    ensures { IfSome result (λ moment. moment ≤ stay.step.moment) }
{
    let (first, end) = stay.waits(sizes);
    let waits = &cells[first..end];
    if have_room(waits) {
        return None;
    }
    let mut waits = waits.iter().rev();
    let passed = waits.position(|wait| wait.flow >= wait.limit)?;
    Some(stay.step.moment - passed as u32)
}

// The moment from which on all waits before a stay have room.
fn room_from(cells: &[Cell], sizes: Sizes, stay: Stay) -> u32
    requires cells { length cells.now ≡ sizes.cells }
    requires stay { IsStayWithin sizes stay }
    ensures { result ≤ stay.since }
{
    let before = Stay { since: 0, ..stay };
    let (first, _) = before.waits(sizes);
    let mut waits = cells[first..first + stay.since as usize].iter().rev();
    match waits.position(|wait| wait.flow >= wait.limit) {
        Some(passed) => stay.since - passed as u32,
        None => 0,
    }
}
