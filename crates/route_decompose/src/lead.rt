//! How some people are led out.
ghost use Rattle.std.specs.Prelude.{◌≡◌, ◌+◌, ◌<◌, ◌≤◌, length};
ghost use Rattle.evac_law.specs.Limits.{horizon_limit};
ghost use Rattle.route_decompose.specs.Routes.{LeadsOut};
ghost use Rattle.route_decompose.specs.Stocks.{AllGo, CanGo, Empties, IsLaid, IsLeadable, IsLedOut, IsOpen, IsStay, IsStayTaken, MayStay, moment_before, node_before, used};

use crate::route::RouteStep;
use crate::store::Store;
use crate::trail::Trail;

// Until when people stay who are in a node at a moment, and how many of them: as long as anybody does.
fn stay(store: &Store, node: u32, moment: u16, most: u32) -> (u16, u32)
    requires leadable { IsLeadable store.now node moment }
    requires some { 1 ≤ most }
    ensures { IsStay store.now node moment most result.0 result.1 }
{
    let mut until = moment;
    let mut people = most;
    let mut held = store.hold(node, moment);
    while held > 0 {
        people = people.min(held);
        until += 1;
        held = store.hold(node, until);
    }
    (until, people)
}

// Takes people off those who stay in a node from a moment until another, the latest first.
fn take_stay(store: &mut Store, node: u32, moment: u16, until: u16, people: u32)
    requires { MayStay store.old node moment until people }
    ensures { IsStayTaken store.old store.new node moment until people }
{
    let mut left = until;
    while moment < left {
        left -= 1;
        store.take_hold(node, left, people);
    }
}

// Lays the steps by which people go from a node at a moment into an exit, and finds how many can go by all of them. Whoever may stay stays.
fn lay(store: &Store, trail: &mut Trail, node: u32, moment: u16, most: u32) -> u32
    requires leadable { IsLeadable store.now node moment }
    requires some { 1 ≤ most }
    requires room { store.now.model.horizon ≤ trail.old.room + moment }
    ensures laid { IsLaid store.now node moment most result trail.new.steps }
    ensures room { trail.new.room ≡ trail.old.room }
{
    trail.clear();
    let mut here = node;
    let mut now = moment;
    let mut people = most;
    while !store.is_exit(here) {
        let (until, least) = stay(store, here, now, people);
        let Some(arc) = store.leaving(here, until) else {
            unreachable!()
        };
        people = least.min(store.left(arc, until));
        trail.add(RouteStep { moment: until, arc });
        here = store.head(arc);
        now = until + store.travel(arc);
    }
    people
}

// The node in which people are before the step with a number, and the moment at which they come there.
fn stop_before(
    store: &Store,
    steps: &[RouteStep],
    node: u32,
    moment: u16,
    index: usize,
) -> (u32, u16)
    requires leads { LeadsOut store.now.model node moment steps.now }
    requires index_in { index < length steps.now }
    requires in_time { moment_before store.now.model moment steps.now index ≤ horizon_limit }
    ensures node { result.0 ≡ node_before store.now.model node steps.now index }
    ensures moment { result.1 ≡ moment_before store.now.model moment steps.now index }
{
    if index == 0 {
        return (node, moment);
    }
    let step = steps[index - 1];
    (store.head(step.arc), step.moment + store.travel(step.arc))
}

// Takes people off the arcs of some steps and off the stays before them, the latest first.
fn take_off(store: &mut Store, steps: &[RouteStep], node: u32, moment: u16, people: u32)
    requires left { IsOpen store.old }
    requires some { 1 ≤ people }
    requires way { CanGo store.old node moment people steps.now }
    ensures led { IsLedOut store.old store.new node moment people steps.now }
    ensures fewer { used store.new ≤ used store.old }
    ensures emptied { AllGo store.old node moment people steps.now → used store.new + 1 ≤ used store.old }
{
    let mut index = steps.len();
    while index > 0 {
        index -= 1;
        let step = steps[index];
        let (here, from) = stop_before(store, steps, node, moment, index);
        store.take_left(step.arc, step.moment, people);
        take_stay(store, here, from, step.moment, people);
    }
}

/// Leads people from a node at a moment into an exit, and takes them off whatever they go over. Whoever may stay stays.
pub fn lead_out(store: &mut Store, trail: &mut Trail, node: u32, moment: u16, most: u32) -> u32
    requires leadable { IsLeadable store.old node moment }
    requires some { 1 ≤ most }
    requires room { store.old.model.horizon ≤ trail.old.room + moment }
    ensures some { 1 ≤ result }
    ensures most { result ≤ most }
    ensures led { IsLedOut store.old store.new node moment result trail.new.steps }
    ensures room { trail.new.room ≡ trail.old.room }
    ensures emptied { Empties store.old store.new result most }
{
    let people = lay(store, trail, node, moment, most);
    take_off(store, trail.steps(), node, moment, people);
    people
}
