//! People times arrival moment.
ghost use Rattle.std.specs.Prelude.{◌≡◌, ◌+◌, ◌*◌, ◌^◌, ◌<◌, ◌≤◌, ◌&&◌, if◌then◌else◌, nat_le, length};
ghost use Rattle.std.specs.List.{sum_by};
ghost use Rattle.evac_law.specs.Building.{IsValid, arrival, head, is_exit_at};
ghost use Rattle.evac_law.specs.Limits.{horizon_limit};
ghost use Rattle.evac_law.specs.Plans.{IsFeasible, moved, person_periods};
ghost use Rattle.evac_law.specs.Stands.{Fits};
ghost use Rattle.evac_law.specs.Sums.{moments_to};

use evac_law::{Model, Standing};

// The person-periods of an arc into an exit, of those who enter it at a moment.
#[tactic(auto, unfolding(evac_law::specs::Limits::horizon_limit, evac_law::specs::Limits::travel_limit))]
fn part_of<F: Standing>(model: &Model, standing: &F, arc: u32, moment: u16) -> u64
    requires valid { IsValid model.now }
    requires fits { Fits model.now (F.stand standing.now) }
    requires arc_in { arc < length model.now.arcs }
    requires moment_in { moment ≤ model.now.horizon }
    ensures part { result ≡ (if is_exit_at model.now (head model.now arc) && nat_le (arrival model.now arc moment) model.now.horizon
        then moved (F.stand standing.now).plan arc moment * arrival model.now arc moment else 0) }
    ensures small { result ≤ horizon_limit * 2 ^ 32 }
{
    let row = model.arc(arc);
    let arrival = moment + row.travel;
    if model.node(row.to).name.kind.is_exit() && arrival <= model.horizon {
        u64::from(standing.moved(arc, moment)) * u64::from(arrival)
    } else {
        0
    }
}

// The person-periods of an arc into an exit.
#[tactic(auto, using(evac_law::proofs::SumLemmas::sum_steps), unfolding(evac_law::specs::Limits::horizon_limit))]
fn periods_of<F: Standing>(model: &Model, standing: &F, arc: u32) -> u64
    requires valid { IsValid model.now }
    requires fits { Fits model.now (F.stand standing.now) }
    requires arc_in { arc < length model.now.arcs }
    ensures sum { result ≡ sum_by (λ t. if is_exit_at model.now (head model.now arc) && nat_le (arrival model.now arc t) model.now.horizon
        then moved (F.stand standing.now).plan arc t * arrival model.now arc t else 0) (moments_to model.now.horizon) }
    ensures small { result ≤ (horizon_limit + 1) * (horizon_limit * 2 ^ 32) }
{
    let mut all = 0u64;
    for moment in 0..model.horizon + 1 {
        all += part_of(model, standing, arc, moment);
    }
    all
}

/// The person-periods of a plan.
#[tactic(auto, using(evac_law::proofs::SumLemmas::sum_steps), unfolding(evac_law::specs::Limits::arc_limit, evac_law::specs::Limits::horizon_limit))]
pub fn person_periods<F: Standing>(model: &Model, standing: &F) -> u64
    requires valid { IsValid model.now }
    requires fits { Fits model.now (F.stand standing.now) }
    requires feasible { IsFeasible model.now (F.stand standing.now).plan model.now.horizon }
    ensures { result ≡ person_periods model.now (F.stand standing.now).plan }
{
    let mut all = 0u64;
    for arc in 0..model.arc_count() {
        all += periods_of(model, standing, arc);
    }
    all
}
