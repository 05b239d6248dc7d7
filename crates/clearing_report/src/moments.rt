//! When somebody is in a node last.
ghost use Rattle.std.specs.Prelude.{◌≡◌, ℕ, ◌<◌, ◌≤◌, ◌&&◌, ◌||◌, ◌==◌, if◌then◌else◌, None, length, map, nat_lt, slice_index_or};
ghost use Rattle.evac_law.specs.Building.{IsValid, is_exit_at};
ghost use Rattle.evac_law.specs.Limits.{horizon_limit};
ghost use Rattle.evac_law.specs.Plans.{IsFeasible, moved};
ghost use Rattle.evac_law.specs.Stands.{Fits};
ghost use Rattle.evac_law.specs.Sums.{places};
ghost use Rattle.clearing_report.specs.Clearing.{last_inside, last_that, later, latest};

use evac_law::{Model, Standing};

/// The later of two moments, where there are any.
pub fn later(first: Option<u16>, second: Option<u16>) -> Option<u16>
    ensures { result ≡ later first second }
{
    match (first, second) {
        (None, moment) => moment,
        (Some(moment), None) => Some(moment),
        (Some(first), Some(second)) => Some(first.max(second)),
    }
}

// The last moment at which people enter an arc.
#[tactic(auto, using(crate::proofs::MomentLemmas::last_steps), unfolding(evac_law::specs::Limits::horizon_limit))]
fn last_moved<F: Standing>(standing: &F, arc: u32, horizon: u16) -> Option<u16>
    requires arc_in { arc < (F.stand standing.now).arcs }
    requires horizon { (F.stand standing.now).horizon ≡ horizon }
    requires short { horizon ≤ horizon_limit }
    ensures { result ≡ last_that (λ t. nat_lt 0 (moved (F.stand standing.now).plan arc t)) horizon }
{
    let mut last = None;
    for moment in 0..horizon + 1 {
        if standing.moved(arc, moment) > 0 {
            last = Some(moment);
        }
    }
    last
}

// The last moment at which people stay in a node.
#[tactic(auto, using(crate::proofs::MomentLemmas::last_steps), unfolding(evac_law::specs::Limits::horizon_limit))]
fn last_held<F: Standing>(standing: &F, node: u32, horizon: u16) -> Option<u16>
    requires node_in { node < (F.stand standing.now).nodes }
    requires horizon { (F.stand standing.now).horizon ≡ horizon }
    requires short { horizon ≤ horizon_limit }
    ensures { result ≡ last_that (λ t. nat_lt 0 ((F.stand standing.now).contents node t)) horizon }
{
    let mut last = None;
    for moment in 0..horizon + 1 {
        if standing.held(node, moment) > 0 {
            last = Some(moment);
        }
    }
    last
}

// When people last stay in a node that is no exit.
#[tactic(auto, unfolding(evac_law::specs::Limits::horizon_limit))]
fn held_moment<F: Standing>(model: &Model, standing: &F, node: u32) -> Option<u16>
    requires valid { IsValid model.now }
    requires fits { Fits model.now (F.stand standing.now) }
    requires node_in { node < length model.now.nodes }
    ensures { result ≡ (if is_exit_at model.now node then None else last_that (λ t. nat_lt 0 ((F.stand standing.now).contents node t)) model.now.horizon) }
{
    if model.node(node).name.kind.is_exit() {
        None
    } else {
        last_held(standing, node, model.horizon)
    }
}

// Writes when people last stay in each node that is no exit.
#[tactic(auto, unfolding(evac_law::specs::Limits::horizon_limit))]
fn write_held<F: Standing>(moments: &mut [Option<u16>], model: &Model, standing: &F)
    requires valid { IsValid model.now }
    requires fits { Fits model.now (F.stand standing.now) }
    requires size { length moments.old ≡ length model.now.nodes }
    ensures { (n : ℕ) → n < length model.now.nodes → slice_index_or moments.new n None
        ≡ (if is_exit_at model.now n then None else last_that (λ t. nat_lt 0 ((F.stand standing.now).contents n t)) model.now.horizon) }
{
    for node in 0..model.node_count() {
        moments[node as usize] = held_moment(model, standing, node);
    }
}

/// Writes when somebody is last in each node that is no exit.
#[tactic(auto, unfolding(evac_law::specs::Limits::horizon_limit))]
pub fn write_moments<F: Standing>(moments: &mut [Option<u16>], model: &Model, standing: &F)
    requires valid { IsValid model.now }
    requires fits { Fits model.now (F.stand standing.now) }
    requires feasible { IsFeasible model.now (F.stand standing.now).plan model.now.horizon }
    requires size { length moments.old ≡ length model.now.nodes }
    ensures { moments.new ≡ map (last_inside model.now (F.stand standing.now).plan) (places model.now.nodes) }
{
    write_held(moments, model, standing);
    for arc in 0..model.arc_count() {
        let node = model.arc(arc).from as usize;
        moments[node] = later(moments[node], last_moved(standing, arc, model.horizon));
    }
}

// The moment of a node; none past the last one.
fn moment_at(moments: &[Option<u16>], node: u32) -> Option<u16>
    ensures { result ≡ slice_index_or moments.now node None }
{
    match moments.get(node as usize) {
        Some(moment) => *moment,
        None => None,
    }
}

/// The latest moment of some nodes.
pub fn latest(moments: &[Option<u16>], nodes: &[u32]) -> Option<u16>
    ensures { result ≡ latest (λ n. slice_index_or moments.now n None) nodes.now }
{
    let mut last = None;
    for node in nodes {
        last = later(last, moment_at(moments, *node));
    }
    last
}
