//! Whether the cuts are worth the curve.
ghost use Rattle.std.specs.Prelude.{◌≡◌, ◌≢◌, ℕ, ◌+◌, ◌<◌, ◌≤◌, IfOk, IfSome, MatchOption, length, slice_index};
ghost use Rattle.evac_law.specs.Building.{IsValid};
ghost use Rattle.evac_law.specs.Certificates.{IsTableOf, label_cut};
ghost use Rattle.evac_law.specs.Cuts.{cut_value};

use cut_witness::CutValues;
use evac_law::{Labels, Model};
use std::alloc::{AllocError, Global};

// The first period below the end at which a number of the curve isn't that of the cuts.
fn first_difference(values: &CutValues, curve: &[u64], end: u16) -> Option<u16>
    requires values_in { end ≤ length values.now }
    requires curve_in { end ≤ length curve.now }
    ensures right { MatchOption result ((k : ℕ) → k < end → slice_index curve.now k ≡ slice_index values.now k)
        (λ k. (j : ℕ) → j < k → slice_index curve.now j ≡ slice_index values.now j) }
    ensures wrong { IfSome result (λ k. (k < end) × (slice_index curve.now k ≢ slice_index values.now k)) }
{
    for period in 0..end {
        if curve[usize::from(period)] != values.get(period) {
            return Some(period);
        }
    }
    None
}

/// The first period below the end at which the cut of the labels isn't worth the number of the curve.
pub fn first_wrong_cut(
    alloc: Global,
    model: &Model,
    labels: &Labels,
    curve: &[u64],
    end: u16,
) -> Result<Option<u16>, AllocError>
    requires valid { IsValid model.now }
    requires table { IsTableOf model.now labels.now }
    requires end_in { end ≤ model.now.horizon }
    requires curve_in { end ≤ length curve.now }
    ensures right { IfOk result (λ o. MatchOption o
        ((k : ℕ) → k < end → slice_index curve.now k ≡ cut_value model.now (label_cut model.now labels.now k) k)
        (λ k. (j : ℕ) → j < k → slice_index curve.now j ≡ cut_value model.now (label_cut model.now labels.now j) j)) }
    ensures wrong { IfOk result (λ o. IfSome o (λ k. (k < end) × (slice_index curve.now k ≢ cut_value model.now (label_cut model.now labels.now k) k))) }
{
    let mut values = CutValues::new(alloc, model.horizon)?;
    values.fill(model, labels);
    Ok(first_difference(&values, curve, end))
}
