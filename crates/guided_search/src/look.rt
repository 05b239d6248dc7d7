//! Looks at the ways into a pair, by distance labels.
ghost use Rattle.std.specs.Prelude.{◌≡◌, ◌<◌, ◌≤◌, IfSome, IsFalse};
ghost use Rattle.residual_ways.specs.Steps.{IsStepWithin};
ghost use Rattle.residual_ways.specs.Ways.{IsWayWithin};
ghost use Rattle.guided_search.specs.Looks.{IsLookWithin};

use crate::distances::Distances;
use crate::runs::Run;
use crate::tuning::FAR;
use crate::weights::{label_after, label_after_run};
use residual_ways::{Incoming, Step, Way, room_in};

/// What a look at the ways into a pair finds.
#[derive(Clone, Copy)]
pub enum Look {
    /// An admissible way, and its step.
    Admissible { index: usize, step: Step },
    /// An admissible run of waits that is taken back from a later moment on.
    Run { index: usize, way: Way, since: u32 },
    /// None; the least distance label that the ways allow the pair, and the index of a way that gives it.
    Least { label: u32, index: usize },
}

// How many people a way backwards takes off.
fn flow_into(incoming: &Incoming<'_>, way: Way) -> u32
    requires { IsWayWithin incoming.now.sizes way }
{
    incoming.cells[(way.first_cell + incoming.moment) as usize].flow
}

// How many more people may go over a way forwards from a moment on.
fn room_since(incoming: &Incoming<'_>, way: Way, begun: u32) -> u32
    requires way { IsWayWithin incoming.now.sizes way }
    requires begun { begun < incoming.now.sizes.moments }
{
    room_in(incoming.cells[(way.first_cell + begun) as usize])
}

// The step of a way, if it is admissible: it has room, and over it the distance label rises to that of the pair.
fn admissible(incoming: &Incoming<'_>, distances: &Distances, way: Way, label: u32) -> Option<Step>
    requires sizes { distances.now.sizes ≡ incoming.now.sizes }
    requires way { IsWayWithin incoming.now.sizes way }
    ensures { IfSome result (λ step. IsStepWithin incoming.now.sizes step × (IsFalse step.back → step.moment ≤ incoming.now.moment)) }
{
    let begun = way.begun(incoming.sizes, incoming.moment)?;
    let before = distances.get(way.first_pair + begun);
    if way.back {
        if before + 1 != label || flow_into(incoming, way) == 0 {
            return None;
        }
    } else if label_after(way, before) != label || room_since(incoming, way, begun) == 0 {
        return None;
    }
    Some(way.step_between(begun, incoming.moment))
}

// The distance label that a way allows a pair, if it has room and the label is below another.
fn allowed_below(
    incoming: &Incoming<'_>,
    distances: &Distances,
    way: Way,
    label: u32,
) -> Option<u32>
    requires sizes { distances.now.sizes ≡ incoming.now.sizes }
    requires way { IsWayWithin incoming.now.sizes way }
    ensures { IfSome result (λ allowed. allowed < label) }
{
    let begun = way.begun(incoming.sizes, incoming.moment)?;
    let before = distances.get(way.first_pair + begun);
    if way.back {
        (before + 1 < label && flow_into(incoming, way) > 0).then_some(before + 1)
    } else {
        let after = label_after(way, before);
        (after < label && room_since(incoming, way, begun) > 0).then_some(after)
    }
}

// The moment from which on an admissible run of waits is taken back by a way. Where the first of the waits has nobody, or leads from a dead pair,
// there is no run.
fn run_since(incoming: &Incoming<'_>, distances: &Distances, way: Way, label: u32) -> Option<u32>
    requires sizes { distances.now.sizes ≡ incoming.now.sizes }
    requires way { IsWayWithin incoming.now.sizes way }
    requires label { label ≤ 65535 }
    ensures moment { IfSome result (λ since. incoming.now.moment ≤ since) }
    ensures within { IfSome result (λ since. since < incoming.now.sizes.moments) }
{
    let first = incoming.moment + 1;
    if first >= incoming.sizes.moments
        || flow_into(incoming, way) == 0
        || distances.get(way.first_pair + first) == FAR
    {
        return None;
    }
    let reached = Run::into(incoming, distances, way).look(label.saturating_sub(1) as u16);
    ((reached.label as u32) < label).then_some(incoming.moment + reached.count as u32)
}

/// Looks for an admissible way from an index on. Where there is none, the least label is sought among all ways.
pub fn look_from(incoming: &Incoming<'_>, distances: &Distances, from: usize, label: u32) -> Look
    requires sizes { distances.now.sizes ≡ incoming.now.sizes }
    requires label { label ≤ 65535 }
    ensures { IsLookWithin incoming.now.sizes incoming.now.moment result }
{
    for index in from..incoming.ways.len() {
        let way = incoming.ways[index];
        if label > distances.limit as u32 && way.back && way.is_wait(incoming.sizes) {
            if let Some(since) = run_since(incoming, distances, way, label) {
                return Look::Run { index, way, since };
            }
        } else if let Some(step) = admissible(incoming, distances, way, label) {
            return Look::Admissible { index, step };
        }
    }
    let enough = label.saturating_add(1);
    let (least, index) = least_label(incoming, distances, enough);
    if enough < least && least < FAR {
        let label = run_label(incoming, distances, enough);
        if label < least {
            let index = incoming.ways.len().saturating_sub(1);
            return Look::Least { label, index };
        }
    }
    Look::Least {
        label: least,
        index,
    }
}

/// The least distance label that the ways allow, or the first one that is low enough, and the index of a way that gives it.
pub fn least_label(incoming: &Incoming<'_>, distances: &Distances, enough: u32) -> (u32, usize)
    requires { distances.now.sizes ≡ incoming.now.sizes }
    ensures { result.0 ≤ 65535 }
{
    let mut least = FAR;
    let mut least_at = 0;
    for (index, way) in incoming.ways.iter().enumerate() {
        if let Some(allowed) = allowed_below(incoming, distances, *way, least) {
            least = allowed;
            least_at = index;
            if least <= enough {
                return (least, index);
            }
        }
    }
    (least, least_at)
}

/// The least distance label that a run of waits allows, or the first one that is low enough. The way over waits backwards is the last of all.
pub fn run_label(incoming: &Incoming<'_>, distances: &Distances, enough: u32) -> u32
    requires { distances.now.sizes ≡ incoming.now.sizes }
    ensures { result ≤ 65536 }
{
    match incoming.ways.last() {
        Some(way) if way.back => {
            let most = enough
                .saturating_sub(1)
                .max(distances.limit as u32)
                .min(FAR) as u16;
            let reached = Run::into(incoming, distances, *way).look(most);
            label_after_run(distances.limit, reached.label as u32)
        }
        _ => FAR,
    }
}
