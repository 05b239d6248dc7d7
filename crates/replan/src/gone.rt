//! Who is out by each moment, by the moves that are made.
ghost use Rattle.std.specs.Prelude.{◌≡◌, ℕ, ◌+◌, ◌<◌, ◌≤◌, ◌^◌, IfOk, if◌then◌else◌, length, slice_index};
ghost use Rattle.std.specs.List.{sum_by};
ghost use Rattle.evac_law.specs.Building.{is_exit_at, people};
ghost use Rattle.evac_law.specs.Limits.{people_limit};
ghost use Rattle.evac_law.specs.Plans.{coming};
ghost use Rattle.evac_law.specs.Stands.{Stands};
ghost use Rattle.evac_law.specs.Sums.{places};
ghost use Rattle.replan.specs.Committed.{gone_by, moves_before};
ghost use Rattle.replan.specs.Standing.{coming_out};

use crate::comers::coming;
use evac_law::Standing;
use plan_layout::Layout;
use std::alloc::{AllocError, Global};

// The people who come to a node at a moment along arcs that they entered before another, where it is an exit.
fn coming_out<F: Standing>(layout: &Layout, standing: &F, from: u16, node: u32, moment: u16) -> u64
    requires stands { Stands layout.now (F.stand standing.now) }
    requires node_in { node < length layout.now.nodes }
    requires moment_in { moment ≤ layout.now.horizon }
    ensures out { result ≡ coming_out layout.now (moves_before from (F.stand standing.now).plan) moment node }
    ensures small { result < 2 ^ 43 }
{
    if layout.is_exit(node) {
        coming(layout, standing, from, node, moment)
    } else {
        0
    }
}

// The people who come to the exits at a moment along arcs that they entered before another.
#[tactic(auto, using(evac_law::proofs::SumLemmas::sum_steps), unfolding(evac_law::specs::Limits::node_limit))]
fn arrivals<F: Standing>(layout: &Layout, standing: &F, from: u16, moment: u16) -> u64
    requires stands { Stands layout.now (F.stand standing.now) }
    requires moment_in { moment ≤ layout.now.horizon }
    ensures arrivals { result ≡ sum_by (coming_out layout.now (moves_before from (F.stand standing.now).plan) moment) (places layout.now.nodes) }
    ensures small { result < 2 ^ 52 }
{
    let mut people = 0;
    for node in 0..layout.model().node_count() {
        people += coming_out(layout, standing, from, node, moment);
    }
    people
}

/// Who is out by each moment, once the moves before another are made besides.
#[tactic(auto, unfolding(evac_law::specs::Limits::horizon_limit))]
pub(crate) fn gone_after<F: Standing>(
    alloc: Global,
    gone: &[u32],
    layout: &Layout,
    standing: &F,
    from: u16,
) -> Result<Vec<u32>, AllocError>
    requires stands { Stands layout.now (F.stand standing.now) }
    requires size { length gone.now ≡ layout.now.horizon + 1 }
    requires few { (k : ℕ) → k ≤ layout.now.horizon → slice_index gone.now k + people layout.now ≤ people_limit }
    ensures size { IfOk result (λ r. length r.items ≡ length gone.now) }
    ensures more { IfOk result (λ r. (k : ℕ) → k ≤ layout.now.horizon
        → slice_index r.items k ≡ slice_index gone.now k + gone_by layout.now (F.stand standing.now).plan from k) }
{
    let mut after = Vec::new(alloc);
    let mut people = 0;
    for moment in 0..layout.model().horizon + 1 {
        people += arrivals(layout, standing, from, moment);
        let out = u64::from(gone[moment as usize]) + people;
        after.push(out as u32)?;
    }
    Ok(after)
}
