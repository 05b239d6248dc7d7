//! A search through all pairs that reach an arrival at a moment, in the order in which they are met.
ghost use Rattle.std.specs.Prelude.{◌≡◌, ℕ, ◌+◌, ◌*◌, ◌<◌, ◌≤◌, IsTrue, MatchOption, length, slice_index, false, true};
ghost use Rattle.time_expansion.specs.Expansion.{arcs_from, arcs_to};
ghost use Rattle.residual_net.specs.declared.place.Place.TheVariants.{Arc, Hold};
ghost use Rattle.residual_net.specs.declared.end.End.TheVariants.{Pair};
ghost use Rattle.residual_net.specs.Network.{IsNet};
ghost use Rattle.residual_net.specs.Site.{IsOpenPair, IsPlace, start_of, stop_of, tail_of};
ghost use Rattle.terminal_augment.specs.Chains.{IsAmong, IsFound, spots};
ghost use Rattle.terminal_augment.specs.Floods.{IsSeededBelow, AreExpanded, IsDone, IsExpanded, IsFlooded, IsFlooding, IsGrown, IsWayDone};
ghost use Rattle.terminal_augment.specs.Settled.{IsSettledBelow};
ghost use Rattle.terminal_augment.specs.Spots.{has};
ghost use Rattle.terminal_augment.specs.Ways.{IsArcAt, end_at, in_count, out_count, way_before, way_in};

use crate::queue::Queue;
use crate::spot::{ArcAt, Met, Spot};
use crate::steps::{back, forth};
use evac_law::Labels;
use residual_net::{End, Net, PathStep, Place};

// Meets the pair at which a step starts, if the step may be taken. Whether it is.
fn meet(net: &Net, labels: &mut Labels, queue: &mut Queue<Met>, met: Met, k: u16) -> bool
    requires place { IsPlace net.now.site met.step.place }
    requires start { start_of net.now.site met.step ≡ Pair met.spot.node met.spot.moment }
    requires inside { IsOpenPair net.now.site met.spot.node met.spot.moment }
    requires stop { IsAmong k (spots queue.old.list) (stop_of net.now.site met.step) }
    requires flooding { IsFlooding net.now labels.old k queue.old }
    ensures flooding { IsFlooding net.now labels.new k queue.new }
    ensures grown { IsGrown k labels.old labels.new queue.old queue.new }
    ensures done { IsDone net.now labels.new k met.step }
    ensures met { IsTrue result → IsTrue (has (spots queue.new.list) met.spot.node met.spot.moment) }
{
    let spot = met.spot;
    if labels.get(spot.node, spot.moment) <= k {
        return false;
    }
    if net.room(met.step) == 0 {
        return false;
    }
    labels.set(spot.node, spot.moment, k);
    queue.push(met);
    true
}

// Meets the pair at which an arc begins by which people come to its end at a moment.
fn meet_in(net: &Net, labels: &mut Labels, queue: &mut Queue<Met>, at: ArcAt, k: u16)
    requires arc { IsArcAt net.now.site at.arc at.moment }
    requires stop { MatchOption (way_in net.now.site at.arc at.moment) (Unit {0}) (λ y. IsAmong k (spots queue.old.list) (stop_of net.now.site y)) }
    requires flooding { IsFlooding net.now labels.old k queue.old }
    ensures flooding { IsFlooding net.now labels.new k queue.new }
    ensures grown { IsGrown k labels.old labels.new queue.old queue.new }
    ensures done { IsWayDone net.now labels.new k (way_in net.now.site at.arc at.moment) }
{
    let arc = at.arc;
    let travel = net.travel(arc);
    if travel > at.moment {
        return;
    }
    let moment = at.moment - travel;
    let node = net.shape().ends()[arc as usize].from;
    let spot = Spot { node, moment };
    let step = forth(Place::Arc { arc, moment });
    meet(net, labels, queue, Met { spot, step }, k);
}

// Meets the pairs at which the arcs begin by which people come to a node at a moment.
fn expand_in(net: &Net, labels: &mut Labels, queue: &mut Queue<Met>, spot: Spot, k: u16)
    requires node { spot.node < net.now.site.shape.nodes }
    requires moment { spot.moment ≤ net.now.site.shape.horizon }
    requires stop { IsAmong k (spots queue.old.list) (end_at net.now.site spot.node spot.moment) }
    requires flooding { IsFlooding net.now labels.old k queue.old }
    ensures flooding { IsFlooding net.now labels.new k queue.new }
    ensures grown { IsGrown k labels.old labels.new queue.old queue.new }
    ensures done { (i : ℕ) → i < in_count net.now.site spot.node → IsWayDone net.now labels.new k (way_in net.now.site (slice_index (arcs_to net.now.site.shape spot.node) i) spot.moment) }
{
    let entering = net.shape().entering(spot.node);
    let moment = spot.moment;
    for i in 0..entering.len() {
        let arc = entering[i];
        meet_in(net, labels, queue, ArcAt { arc, moment }, k);
    }
}

// Meets the pairs at which the waits before a pair begin, one after another, as far as they may be taken. Pairs that lie together are
// met together so.
fn meet_before(net: &Net, labels: &mut Labels, queue: &mut Queue<Met>, spot: Spot, k: u16)
    requires inside { IsOpenPair net.now.site spot.node spot.moment }
    requires met { IsTrue (has (spots queue.old.list) spot.node spot.moment) }
    requires flooding { IsFlooding net.now labels.old k queue.old }
    ensures flooding { IsFlooding net.now labels.new k queue.new }
    ensures grown { IsGrown k labels.old labels.new queue.old queue.new }
    ensures done { IsWayDone net.now labels.new k (way_before spot.node spot.moment) }
{
    let node = spot.node;
    let mut moment = spot.moment;
    while moment > 0 {
        moment -= 1;
        let spot = Spot { node, moment };
        let step = forth(Place::Hold { node, moment });
        if !meet(net, labels, queue, Met { spot, step }, k) {
            return;
        }
    }
}

// Meets the pair to which a wait after a pair leads.
fn meet_after(net: &Net, labels: &mut Labels, queue: &mut Queue<Met>, spot: Spot, k: u16)
    requires inside { IsOpenPair net.now.site spot.node spot.moment }
    requires met { IsTrue (has (spots queue.old.list) spot.node spot.moment) }
    requires flooding { IsFlooding net.now labels.old k queue.old }
    ensures flooding { IsFlooding net.now labels.new k queue.new }
    ensures grown { IsGrown k labels.old labels.new queue.old queue.new }
    ensures done { IsDone net.now labels.new k (record { place = Hold spot.node spot.moment; back = true }) }
{
    let node = spot.node;
    let moment = spot.moment;
    if net.held(node, moment) == 0 {
        return;
    }
    let step = back(Place::Hold { node, moment });
    let moment = moment + 1;
    let spot = Spot { node, moment };
    meet(net, labels, queue, Met { spot, step }, k);
}

// Meets the pair to which an arc leads by which people leave a pair. A step by which somebody may be sent to that pair, if there is
// one.
fn meet_out(
    net: &Net,
    labels: &mut Labels,
    queue: &mut Queue<Met>,
    at: ArcAt,
    k: u16,
) -> Option<PathStep>
    requires arc { IsArcAt net.now.site at.arc at.moment }
    requires stop { IsAmong k (spots queue.old.list) (tail_of net.now.site (Arc at.arc at.moment)) }
    requires flooding { IsFlooding net.now labels.old k queue.old }
    ensures flooding { IsFlooding net.now labels.new k queue.new }
    ensures grown { IsGrown k labels.old labels.new queue.old queue.new }
    ensures found { MatchOption result (IsDone net.now labels.new k (record { place = Arc at.arc at.moment; back = true })) (λ y. IsFound net.now k queue.new.list y) }
{
    let ArcAt { arc, moment } = at;
    if net.moved(arc, moment) == 0 {
        return None;
    }
    let step = back(Place::Arc { arc, moment });
    match net.start(step) {
        End::Pair { node, moment } => {
            let spot = Spot { node, moment };
            meet(net, labels, queue, Met { spot, step }, k);
            None
        }
        End::Door(arrival) => (k < arrival).then_some(step),
        End::Source => Some(step),
    }
}

// Meets the pairs to which the arcs lead by which people leave a pair. A step by which somebody may be sent to that pair, if there is
// one.
fn expand_out(
    net: &Net,
    labels: &mut Labels,
    queue: &mut Queue<Met>,
    spot: Spot,
    k: u16,
) -> Option<PathStep>
    requires inside { IsOpenPair net.now.site spot.node spot.moment }
    requires met { IsTrue (has (spots queue.old.list) spot.node spot.moment) }
    requires flooding { IsFlooding net.now labels.old k queue.old }
    ensures flooding { IsFlooding net.now labels.new k queue.new }
    ensures grown { IsGrown k labels.old labels.new queue.old queue.new }
    ensures found { MatchOption result
        ((i : ℕ) → i < out_count net.now.site spot.node → IsDone net.now labels.new k (record { place = Arc (slice_index (arcs_from net.now.site.shape spot.node) i) spot.moment; back = true }))
        (λ y. IsFound net.now k queue.new.list y) }
{
    let leaving = net.shape().leaving(spot.node);
    let moment = spot.moment;
    for i in 0..leaving.len() {
        let arc = leaving[i];
        if let Some(found) = meet_out(net, labels, queue, ArcAt { arc, moment }, k) {
            return Some(found);
        }
    }
    None
}

// Meets all pairs from which steps lead to a pair. A step by which somebody may be sent to it, if there is one.
fn expand(
    net: &Net,
    labels: &mut Labels,
    queue: &mut Queue<Met>,
    spot: Spot,
    k: u16,
) -> Option<PathStep>
    requires inside { IsOpenPair net.now.site spot.node spot.moment }
    requires met { IsTrue (has (spots queue.old.list) spot.node spot.moment) }
    requires flooding { IsFlooding net.now labels.old k queue.old }
    ensures flooding { IsFlooding net.now labels.new k queue.new }
    ensures grown { IsGrown k labels.old labels.new queue.old queue.new }
    ensures found { MatchOption result (IsExpanded net.now labels.new k spot.node spot.moment) (λ y. IsFound net.now k queue.new.list y) }
{
    let node = spot.node;
    let moment = spot.moment;
    if net.unsent(node, moment) > 0 {
        return Some(forth(Place::Supply { node, moment }));
    }
    expand_in(net, labels, queue, spot, k);
    meet_before(net, labels, queue, spot, k);
    meet_after(net, labels, queue, spot, k);
    expand_out(net, labels, queue, spot, k)
}

// Meets the pairs at which the arcs into a node begin by which people arrive there at a moment, where it is an exit.
fn seed(net: &Net, labels: &mut Labels, queue: &mut Queue<Met>, node: u32, k: u16)
    requires node { node < net.now.site.shape.nodes }
    requires flooding { IsFlooding net.now labels.old k queue.old }
    ensures flooding { IsFlooding net.now labels.new k queue.new }
    ensures grown { IsGrown k labels.old labels.new queue.old queue.new }
    ensures seeded { IsSeededBelow net.now labels.old k node → IsSeededBelow net.now labels.new k (node + 1) }
{
    if net.is_exit(node) {
        expand_in(net, labels, queue, Spot { node, moment: k }, k);
    }
}

// Meets the pairs at which the arcs begin by which people arrive at a moment.
fn seed_all(net: &Net, labels: &mut Labels, queue: &mut Queue<Met>, k: u16)
    requires flooding { IsFlooding net.now labels.old k queue.old }
    ensures flooding { IsFlooding net.now labels.new k queue.new }
    ensures grown { IsGrown k labels.old labels.new queue.old queue.new }
    ensures seeded { IsSeededBelow net.now labels.new k net.now.site.shape.nodes }
{
    for node in 0..net.nodes() {
        seed(net, labels, queue, node, k);
    }
}

// Meets all pairs from which steps lead to those that were met, until it comes to somebody who can be sent. The step by which it does.
fn expand_all(net: &Net, labels: &mut Labels, queue: &mut Queue<Met>, k: u16) -> Option<PathStep>
    requires flooding { IsFlooding net.now labels.old k queue.old }
    ensures flooding { IsFlooding net.now labels.new k queue.new }
    ensures grown { IsGrown k labels.old labels.new queue.old queue.new }
    ensures found { MatchOption result (AreExpanded net.now labels.new k (length queue.new.list) queue.new.list) (λ y. IsFound net.now k queue.new.list y) }
{
    let mut front = 0;
    while front < queue.len() {
        let spot = queue.get(front).spot;
        if let Some(found) = expand(net, labels, queue, spot, k) {
            return Some(found);
        }
        front += 1;
    }
    None
}

/// Meets all pairs that reach an arrival at a moment, each by a step, and gives them the moment as their label. Where it comes to
/// somebody who can be sent there, it answers with the step by which it does, and no pair keeps that label.
pub fn flood(net: &Net, labels: &mut Labels, queue: &mut Queue<Met>, k: u16) -> Option<PathStep>
    requires net { IsNet net.now }
    requires settled { IsSettledBelow net.now labels.old k }
    requires room { net.now.site.shape.nodes * (net.now.site.shape.horizon + 1) ≤ queue.old.room }
    ensures flooded { IsFlooded net.now labels.old labels.new k queue.new.list result }
    ensures room { queue.new.room ≡ queue.old.room }
    ensures few { length queue.new.list ≤ queue.new.room }
{
    let _ = labels.nodes();
    queue.clear();
    seed_all(net, labels, queue, k);
    match expand_all(net, labels, queue, k) {
        None => None,
        Some(found) => {
            labels.unset_from(k);
            Some(found)
        }
    }
}
