//! The people who are out, period by period.
ghost use Rattle.std.specs.Prelude.{◌≡◌, ◌≢◌, ℕ, ◌+◌, ◌<◌, ◌≤◌, ◌^◌, ◌↔◌, IfOk, IfSome, IsTrue, MatchOption, length, slice_index};
ghost use Rattle.std.specs.List.{All, sum_by};
ghost use Rattle.evac_law.specs.Building.{IsValid, arrival};
ghost use Rattle.evac_law.specs.Plans.{out_by};
ghost use Rattle.evac_law.specs.Stands.{IsOrdered};
ghost use Rattle.evac_law.specs.Sums.{below, moments_to};
ghost use Rattle.plan_checker.specs.Counts.{AreCountable, arriving_at};
ghost use Rattle.plan_checker.specs.Parts.{IsAllOut};

use evac_law::{Model, Move};
use std::alloc::{AllocError, Global};

// Adds the people who arrive at exits to the numbers of the moments.
#[tactic(auto, unfolding(evac_law::specs::Limits::horizon_limit, evac_law::specs::Limits::travel_limit))]
fn count_arriving(numbers: &mut [u64], model: &Model, moves: &[Move])
    requires moves { AreCountable model.now moves.now }
    requires blank { (t : ℕ) → t < length numbers.old → slice_index numbers.old t ≡ 0 }
    ensures { (t : ℕ) → t < length numbers.old → slice_index numbers.new t ≡ arriving_at model.now moves.now t }
{
    for step in moves {
        let arc = model.arc(step.arc);
        let arrival = usize::from(step.moment + arc.travel);
        if model.node(arc.to).name.kind.is_exit() && arrival < numbers.len() {
            numbers[arrival] += u64::from(step.people);
        }
    }
}

// Puts the sum of all numbers up to it in the place of each.
#[tactic(auto, using(evac_law::proofs::SumLemmas::sum_steps))]
fn sum_up(numbers: &mut [u64])
    requires { (t : ℕ) → t < length numbers.old → sum_by (slice_index numbers.old) (moments_to t) < 2 ^ 64 }
    ensures { (t : ℕ) → t < length numbers.old → slice_index numbers.new t ≡ sum_by (slice_index numbers.old) (moments_to t) }
{
    let mut total = 0u64;
    for number in numbers.iter_mut() {
        total += *number;
        *number = total;
    }
}

// Puts the people out by each moment into a list of zeros.
fn write_curve(numbers: &mut [u64], model: &Model, moves: &[Move])
    requires moves { AreCountable model.now moves.now }
    requires blank { (t : ℕ) → t < length numbers.old → slice_index numbers.old t ≡ 0 }
    ensures { (k : ℕ) → k < length numbers.old → slice_index numbers.new k ≡ out_by model.now moves.now k }
{
    count_arriving(numbers, model, moves);
    sum_up(numbers);
}

/// The people out by each period up to a last one.
pub fn curve_of(
    alloc: Global,
    model: &Model,
    moves: &[Move],
    last: u16,
) -> Result<Vec<u64>, AllocError>
    requires { AreCountable model.now moves.now }
    ensures periods { IfOk result (λ v. length v.items ≡ last + 1) }
    ensures outs { IfOk result (λ v. (k : ℕ) → k ≤ last → slice_index v.items k ≡ out_by model.now moves.now k) }
{
    let mut numbers = vec![in alloc; 0u64; usize::from(last) + 1]?;
    write_curve(numbers.as_mut_slice(), model, moves);
    Ok(numbers)
}

// Whether each move arrives by a moment.
#[tactic(auto, unfolding(evac_law::specs::Limits::horizon_limit, evac_law::specs::Limits::travel_limit))]
fn all_arrive(model: &Model, moves: &[Move], last: u16) -> bool
    requires valid { IsValid model.now }
    requires ordered { IsOrdered (length model.now.arcs) model.now.horizon moves.now }
    ensures { IsTrue result ↔ All (λ v. arrival model.now v.arc v.moment ≤ last) moves.now }
{
    for step in moves {
        if step.moment + model.arc(step.arc).travel > last {
            return false;
        }
    }
    true
}

/// Whether all are out by a period, by the people out by each period up to it, and not one period before.
pub fn is_all_out(model: &Model, moves: &[Move], last: u16, curve: &[u64]) -> bool
    requires valid { IsValid model.now }
    requires ordered { IsOrdered (length model.now.arcs) model.now.horizon moves.now }
    requires periods { length curve.now ≡ last + 1 }
    requires outs { (k : ℕ) → k ≤ last → slice_index curve.now k ≡ out_by model.now moves.now k }
    ensures { IsTrue result ↔ IsAllOut model.now moves.now last }
{
    let people = u64::from(model.people());
    let end = usize::from(last);
    all_arrive(model, moves, last) && curve[end] >= people && (end == 0 || curve[end - 1] < people)
}

/// The first period whose stated number isn't that of the curve.
pub fn first_wrong_out(curve: &[u64], outs: &[u32]) -> Option<u16>
    requires periods { length outs.now ≡ length curve.now }
    requires few { length curve.now ≤ 2 ^ 16 }
    ensures right { MatchOption result ((k : ℕ) → k < length curve.now → slice_index outs.now k ≡ slice_index curve.now k)
        (λ k. (j : ℕ) → j < k → slice_index outs.now j ≡ slice_index curve.now j) }
    ensures wrong { IfSome result (λ k. (k < length curve.now) × (slice_index outs.now k ≢ slice_index curve.now k)) }
{
    for (period, out) in outs.iter().enumerate() {
        if u64::from(*out) != curve[period] {
            return Some(period as u16);
        }
    }
    None
}
