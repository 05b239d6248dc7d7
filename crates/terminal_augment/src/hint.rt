//! A hint at a path, checked leg by leg before people are sent along it.
ghost use Rattle.std.specs.Prelude.{◌≡◌, ℕ, ◌+◌, ◌-◌, ◌<◌, ◌≤◌, IsFalse, IsTrue, MatchOption};
ghost use Rattle.std.specs.List.{All};
ghost use Rattle.residual_net.specs.Legs.{steps_of_legs, wait_at};
ghost use Rattle.residual_net.specs.Network.{IsNet, IsWithinLimits, residual_room};
ghost use Rattle.residual_net.specs.Site.{IsOpenEnd, IsOpenPair};
ghost use Rattle.terminal_augment.specs.Hints.{CarriesPeople, IsCheckedOver, IsMarkedOn, IsMarkedOver, IsMarksOf, IsStep};
ghost use Rattle.terminal_augment.specs.Marking.{IsMarks};
ghost use Rattle.terminal_augment.specs.Searches.{AreBuffers, KeepsBuffers};
ghost use Rattle.terminal_augment.specs.Settled.{IsCountedOn};

use crate::buffers::Buffers;
use crate::marks::Marks;
use crate::spot::Spot;
use evac_law::Steps;
use residual_net::{Cell, End, Leg, Net, PathStep, Transit};
use std::sync::ledger::Ledger;

// Whether each of some cells has room for some more people. It is quicker to find than the least room.
fn have_room(cells: &[Cell], people: u32) -> bool
    requires { All (λ c. c.flow ≤ c.limit) cells.now }
    ensures { IsTrue result → All (λ c. people ≤ c.limit - c.flow) cells.now }
{
    let mut full = false;
    for cell in cells {
        full |= cell.limit - cell.flow < people;
    }
    !full
}

// The least room of some cells for more people, or the most people where that is less.
fn least_room(cells: &[Cell], most: u32) -> u32
    requires { All (λ c. c.flow ≤ c.limit) cells.now }
    ensures most { result ≤ most }
    ensures room { All (λ c. result ≤ c.limit - c.flow) cells.now }
{
    if have_room(cells, most) {
        return most;
    }
    let mut least = most;
    for cell in cells {
        least = least.min(cell.limit - cell.flow);
    }
    least
}

// The least room of the waits in a node, at each moment from one up to another, or the most people where that is less.
fn waits_room(net: &Net, node: u32, from: u16, to: u16, most: u32) -> u32
    requires within { IsWithinLimits net.now }
    requires node { node < net.now.site.shape.nodes }
    requires moment { to ≤ net.now.site.shape.horizon }
    requires some { from ≤ to }
    ensures most { result ≤ most }
    ensures room { (t : ℕ) → from ≤ t → t < to → result ≤ residual_room net.now (wait_at node t) }
{
    let first = net.shape().hold_cell(node, 0) as usize;
    let waits = &net.cells()[first + from as usize..first + to as usize];
    least_room(waits, most)
}

// How far the check of a hint has come: to a pair, with the people who may be sent on from there.
#[derive(Clone, Copy)]
struct Checked {
    spot: Spot,
    people: u32,
}

// Goes back over the waits since a moment in the node to which the check has come, if they have room.
fn over_waits(net: &Net, since: u16, from: Checked) -> Option<Checked>
    requires within { IsWithinLimits net.now }
    requires inside { IsOpenPair net.now.site from.spot.node from.spot.moment }
    ensures { IsCheckedOver net.now since from result }
{
    if from.spot.moment <= since {
        return Some(from);
    }
    let node = from.spot.node;
    let people = waits_room(net, node, since, from.spot.moment, from.people);
    if people == 0 {
        return None;
    }
    let spot = Spot {
        node,
        moment: since,
    };
    Some(Checked { spot, people })
}

// Marks a node at each moment from one up to another, until one of them is found marked. Whether none is.
fn mark_all(marks: &mut Marks, node: u32, from: u16, past: u16) -> bool
    requires marks { IsMarks marks.old }
    requires node { node < marks.old.nodes }
    requires past { past ≤ marks.old.horizon + 1 }
    ensures over { IsTrue result → IsMarkedOver marks.old marks.new node from past }
    ensures marks { IsMarkedOn marks.old marks.new }
{
    for moment in from..past {
        let spot = Spot { node, moment };
        if marks.is_marked(spot) {
            return false;
        }
        marks.mark(spot);
    }
    true
}

// Whether a path that comes to a node at each moment from one up to another comes to none of these pairs for the second time. Only
// a path that turns back at some step needs marks for that: the others come to earlier and earlier moments.
fn is_new(marks: &mut Marks, turns: bool, node: u32, from: u16, past: u16) -> bool
    requires marks { IsMarks marks.old }
    requires node { node < marks.old.nodes }
    requires past { past ≤ marks.old.horizon + 1 }
    ensures over { IsTrue result → IsTrue turns → IsMarkedOver marks.old marks.new node from past }
    ensures marks { IsMarkedOn marks.old marks.new }
{
    if turns {
        mark_all(marks, node, from, past)
    } else {
        true
    }
}

// Whether one of some legs goes over its step backwards. None is skipped, as most paths have none.
fn turn_back(legs: &[Leg]) -> bool
    ensures { IsFalse result → All (λ g. IsFalse g.step.back) legs.now }
{
    let mut turns = false;
    for leg in legs {
        turns |= leg.step.back;
    }
    turns
}

// Where a step starts and its room, if it is one of the net's, has room and stops at an end.
fn begins(net: &Net, step: PathStep, end: End) -> Option<Transit>
    requires within { IsWithinLimits net.now }
    requires open { IsOpenEnd net.now.site end }
    ensures step { MatchOption result (Unit {0}) (λ r. IsStep net.now step r.start end) }
    ensures room { MatchOption result (Unit {0}) (λ r. r.room ≡ residual_room net.now step) }
{
    if !step.back {
        return net.leads(step.place, end);
    }
    let transit = net.transit(step)?;
    if transit.stop != end {
        return None;
    }
    if transit.room == 0 {
        return None;
    }
    Some(transit)
}

// The most people who may be sent along the path of some legs to an arrival at a moment, or 0 where it leads there from no source,
// twice to one pair, or over a step with no room.
fn carried(net: &Net, marks: &mut Marks, legs: &[Leg], most: u32, k: u16) -> u32
    requires net { IsNet net.now }
    requires within { IsWithinLimits net.now }
    requires marks { IsMarksOf net.now.site marks.old }
    ensures path { 0 < result → CarriesPeople net.now k (steps_of_legs net.now.site legs.now) result }
    ensures marks { IsMarkedOn marks.old marks.new }
{
    let mut end = End::Door(k);
    if most == 0 {
        return 0;
    }
    let turns = turn_back(legs);
    let mut people = most;
    let mut left = legs.len();
    while left > 0 {
        left -= 1;
        let leg = legs[left];
        let Some(before) = begins(net, leg.step, end) else {
            return 0;
        };
        people = people.min(before.room);
        match before.start {
            End::Pair { node, moment } => {
                let spot = Spot { node, moment };
                let Some(checked) = over_waits(net, leg.since, Checked { spot, people }) else {
                    return 0;
                };
                let first = checked.spot.moment;
                if !is_new(marks, turns, node, first, moment + 1) {
                    return 0;
                }
                end = End::Pair {
                    node,
                    moment: first,
                };
                people = checked.people;
            }
            End::Source => {
                return if left == 0 { people } else { 0 };
            }
            End::Door(moment) => {
                return if left == 0 && k < moment { people } else { 0 };
            }
        }
    }
    0
}

/// Sends people to a moment along paths that are hinted at, until a hint is wrong or there is none.
pub fn send_hinted<L: Ledger>(
    net: &mut Net,
    buffers: &mut Buffers,
    k: u16,
    steps: &mut Steps<L>,
) -> u32
    requires net { IsNet net.old }
    requires within { IsWithinLimits net.old }
    requires moment { k ≤ net.old.site.shape.horizon }
    requires buffers { AreBuffers net.old.site.shape.nodes net.old.site.shape.horizon buffers.old }
    ensures buffers { KeepsBuffers buffers.old buffers.new }
    ensures counted { IsCountedOn net.old net.new k result steps.old steps.new }
{
    let mut pushes = 0;
    while buffers.finder.find(net) {
        let most = buffers.finder.most();
        let legs = buffers.finder.lay();
        buffers.marks.clear();
        let people = carried(net, &mut buffers.marks, legs, most, k);
        if people == 0 {
            return pushes;
        }
        net.push_legs(legs, people, steps);
        buffers.finder.sent(net, people);
        pushes += 1;
    }
    pushes
}
