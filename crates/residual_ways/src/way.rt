//! The ways into the pairs of a node.
ghost use Rattle.std.specs.Prelude.{◌≡◌, ◌+◌, ◌<◌, ◌≤◌, ◌^◌, ◌≤ℤ◌, pos, unsigned_abs, IfSome, IsTrue, max};
ghost use Rattle.residual_ways.specs.Steps.{IsStepWithin};
ghost use Rattle.residual_ways.specs.Ways.{IsBegun, IsStepInto, IsWayWithin, step_between};

use crate::sizes::Sizes;
use crate::step::Step;

/// When a way is tried among those of its list that lead as it does, forwards or backwards.
#[derive(Clone, Copy, PartialEq, Eq, PartialOrd, Ord)]
pub enum Rank {
    /// Before all others.
    First,
    /// By its row.
    ByRow,
}

/// Where an arc leads, by the shortest ways out.
#[derive(Clone, Copy, PartialEq, Eq, PartialOrd, Ord)]
pub(crate) enum Course {
    /// It is the first on a shortest way out. A wait counts as straight too.
    Straight,
    /// It leads to a node nearer to the exits, but another way out is shorter.
    Detour,
    /// It leads to a node that isn't nearer to the exits.
    Away,
}

/// The distance labels below which steps over arcs that lead astray weigh 1.
#[derive(Clone, Copy)]
pub struct Limits {
    /// That of detours.
    pub detour: u16,
    /// That of arcs that lead away.
    pub away: u16,
}

impl Limits {
    /// The distance label below which a step over an arc weighs 1.
    pub(crate) fn of(self, course: Course) -> u16 {
        match course {
            Course::Straight => 0,
            Course::Detour => self.detour,
            Course::Away => self.away,
        }
    }
}

/// A residual arc into a node: over an arc of the building or a wait, forwards or backwards. At each moment it is a step.
///
/// The order of the fields is that of the ways.
#[derive(Clone, Copy, PartialEq, Eq, PartialOrd, Ord)]
pub struct Way {
    /// The number of its list: the node into which it leads, but for exit ways.
    pub(crate) list: u32,
    /// Whether it leads backwards.
    pub back: bool,
    /// Its rank in its list.
    pub(crate) rank: Rank,
    /// The row of its cells.
    pub(crate) row: u32,
    /// The cell of that row at moment 0.
    pub first_cell: u32,
    /// The node in which it begins.
    pub node: u32,
    /// The pair of that node at moment 0.
    pub first_pair: u32,
    /// From the moment at which the way ends to that at which it begins: back by its travel forwards, and on by it backwards.
    pub shift: i32,
    /// Whether it leads over an arc forwards that somebody may enter at some moment, by the limits of the net for which the ways were put
    /// in order.
    pub(crate) may_enter: bool,
    /// The distance label below which a step over it weighs 1, forwards.
    pub weighs_below: u32,
}

impl Way {
    /// A way of a list from a node over a row, forwards.
    pub(crate) fn forwards(sizes: Sizes, list: u32, node: u32, row: u32, travel: u16) -> Way
        requires node { node < sizes.nodes }
        requires row { row < sizes.arcs + sizes.nodes }
        ensures { IsWayWithin sizes result }
    {
        Way {
            list,
            back: false,
            rank: Rank::ByRow,
            row,
            first_cell: sizes.first_cell(row),
            node,
            first_pair: sizes.first_pair(node),
            shift: -(travel as i32),
            may_enter: false,
            weighs_below: 0,
        }
    }

    /// A way of a list from a node over a row, backwards.
    pub(crate) fn backwards(sizes: Sizes, list: u32, node: u32, row: u32, travel: u16) -> Way
        requires node { node < sizes.nodes }
        requires row { row < sizes.arcs + sizes.nodes }
        ensures { IsWayWithin sizes result }
    {
        Way {
            back: true,
            shift: travel as i32,
            ..Way::forwards(sizes, list, node, row, travel)
        }
    }

    /// Whether it leads over an arc forwards.
    pub(crate) fn is_arc(&self, sizes: Sizes) -> bool
        ensures { IsTrue result → (self.now.row < sizes.arcs) }
    {
        !self.back && self.row < sizes.arcs
    }

    /// Whether it leads over waits, forwards or backwards.
    pub fn is_wait(&self, sizes: Sizes) -> bool {
        self.row >= sizes.arcs
    }

    /// How many periods lie between its ends.
    pub fn travel(&self) -> u32
        ensures travel { result ≡ unsigned_abs self.now.shift }
        ensures within { result ≤ 2 ^ 31 }
    {
        self.shift.unsigned_abs()
    }

    /// The moment at which it begins where it ends at a moment, if that is within the horizon.
    pub fn begun(&self, sizes: Sizes, moment: u32) -> Option<u32>
        ensures begun { IsBegun sizes self.now moment result }
        ensures within { IfSome result (λ begun. begun < sizes.moments) }
        ensures forwards { IfSome result (λ begun. self.now.shift ≤ℤ pos 0 → begun ≤ moment) }
    {
        let begun = (moment as i64 + self.shift as i64).cast_unsigned();
        if begun >= sizes.moments as u64 {
            return None;
        }
        Some(begun as u32)
    }

    /// The step that it is from one moment into another. Its cell is that of the earlier of the two.
    pub fn step_between(&self, begun: u32, moment: u32) -> Step
        requires pair { self.now.first_pair + begun < 2 ^ 32 }
        requires cell { self.now.first_cell + max begun moment < 2 ^ 32 }
        ensures { result ≡ step_between self.now begun moment }
    {
        let entered = if self.back { moment } else { begun };
        Step {
            node: self.node,
            moment: begun,
            pair: self.first_pair + begun,
            cell: self.first_cell + entered,
            back: self.back,
        }
    }

    /// The step that it is into a moment, where that begins within the horizon.
    pub fn step(&self, sizes: Sizes, moment: u32) -> Option<Step>
        requires way { IsWayWithin sizes self.now }
        requires moment { moment < sizes.moments }
        ensures step { IsStepInto sizes self.now moment result }
        ensures within { IfSome result (IsStepWithin sizes) }
    {
        let begun = self.begun(sizes, moment)?;
        Some(self.step_between(begun, moment))
    }
}
