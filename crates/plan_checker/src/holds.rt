//! Whether a plan keeps the capacities.
ghost use Rattle.std.specs.Prelude.{ℕ, ◌+◌, ◌<◌, ◌≤◌, ◌^◌, IfOk, IsFalse, IfSome, MatchOption, length};
ghost use Rattle.evac_law.specs.Building.{is_exit_at};
ghost use Rattle.plan_checker.specs.Counts.{AreCountable, AreTallies, IsCountedWell, came_by, left_by};
ghost use Rattle.plan_checker.specs.Parts.{Earlier, HoldsKept, IsFirstHold};

use crate::tally::{count_coming, count_leaving};
use evac_law::{Model, Move};
use std::alloc::{AllocError, Global};
use tables::Table;

// The first moment before `until` at which a node holds fewer than none, or more than its capacity.
#[tactic(auto, using(evac_law::proofs::SumLemmas::sum_steps))]
fn first_broken_moment(
    model: &Model,
    came: &Table<u64>,
    left: &Table<u64>,
    node: u32,
    until: u16,
) -> Option<u16>
    requires tallies { AreTallies model.now came.now left.now until }
    requires node_in { node < length model.now.nodes }
    requires few { (t : ℕ) → t < until → (came_by model.now came.now node t < 2 ^ 63) × (left_by left.now node t < 2 ^ 63) }
    ensures well { MatchOption result ((t : ℕ) → t < until → IsCountedWell model.now came.now left.now node t)
        (λ k. (t : ℕ) → t < k → IsCountedWell model.now came.now left.now node t) }
    ensures broken { MatchOption result (0 ≤ until) (λ k. (k < until) × (¬ (IsCountedWell model.now came.now left.now node k))) }
{
    let capacity = u64::from(model.node(node).capacity);
    let mut arrived = 0u64;
    let mut gone = 0u64;
    for moment in 0..until {
        arrived += u64::from(model.entry(node, moment)) + came.get(node, moment);
        gone += left.get(node, moment);
        if arrived < gone || arrived > gone + capacity {
            return Some(moment);
        }
    }
    None
}

// The first moment and node, that is no exit, at which by the counts the node holds fewer than none or more than its capacity.
#[tactic(auto, unfolding(evac_law::specs::Limits::horizon_limit))]
fn first_broken_count(model: &Model, came: &Table<u64>, left: &Table<u64>) -> Option<(u16, u32)>
    requires tallies { AreTallies model.now came.now left.now (came.now.last + 1) }
    requires few { (n t : ℕ) → n < length model.now.nodes → t ≤ came.now.last → (came_by model.now came.now n t < 2 ^ 63) × (left_by left.now n t < 2 ^ 63) }
    ensures well { MatchOption result
        ((n t : ℕ) → n < length model.now.nodes → IsFalse (is_exit_at model.now n) → t ≤ came.now.last → IsCountedWell model.now came.now left.now n t)
        (λ r. (n t : ℕ) → n < length model.now.nodes → IsFalse (is_exit_at model.now n) → Earlier t n r.0 r.1 → IsCountedWell model.now came.now left.now n t) }
    ensures broken { IfSome result (λ r. (r.0 ≤ came.now.last) × (r.1 < length model.now.nodes) × IsFalse (is_exit_at model.now r.1)
        × (¬ (IsCountedWell model.now came.now left.now r.1 r.0))) }
{
    let mut first = None;
    let mut until = came.last() + 1;
    for node in 0..model.node_count() {
        if model.node(node).name.kind.is_exit() {
            continue;
        }
        if let Some(moment) = first_broken_moment(model, came, left, node, until) {
            first = Some((moment, node));
            until = moment;
        }
    }
    first
}

/// The first moment and node, that is no exit, up to a last moment at which the node holds fewer than none or more than its capacity.
pub fn first_broken_hold(
    alloc: Global,
    model: &Model,
    moves: &[Move],
    last: u16,
) -> Result<Option<(u16, u32)>, AllocError>
    requires moves { AreCountable model.now moves.now }
    requires last_in { last ≤ model.now.horizon }
    ensures { IfOk result (λ o. MatchOption o (HoldsKept model.now moves.now last) (λ r. IsFirstHold model.now moves.now last r.0 r.1)) }
{
    let mut came = Table::new(alloc, 0, model.node_count(), last)?;
    count_coming(&mut came, model, moves);
    let mut left = Table::new(alloc, 0, model.node_count(), last)?;
    count_leaving(&mut left, model, moves);
    Ok(first_broken_count(model, &came, &left))
}
