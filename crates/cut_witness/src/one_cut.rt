//! The value of one cut.
ghost use Rattle.std.specs.Prelude.{◌≡◌, ◌≤◌, List};
ghost use Rattle.evac_law.specs.Building.{IsValid};
ghost use Rattle.evac_law.specs.Certificates.{IsTableOf, label_cut};
ghost use Rattle.evac_law.specs.Cuts.{cut_value, number_of};
ghost use Rattle.evac_law.specs.Plans.{IsFeasible, out_by};
ghost use Rattle.evac_law.specs.declared.plan.Move.{Move};

use crate::begin::crossing;
use evac_law::{CutItem, Labels, Model};

// How many people an item lets through.
fn number_of(item: CutItem) -> u32
    ensures { result ≡ number_of item }
{
    match item {
        CutItem::Entry { people, .. } => people,
        CutItem::Hold { capacity, .. } => capacity,
        CutItem::Arc { rate, .. } => rate,
    }
}

/// The value of the cut that labels make for period `k`: the sum of its items, and a bound on what any plan has out by then.
#[tactic(auto, using(crate::proofs::ValueLemmas::few_items))]
pub fn cut_value(model: &Model, labels: &Labels, k: u16) -> u64
    requires valid { IsValid model.now }
    requires table { IsTableOf model.now labels.now }
    requires k_in { k ≤ model.now.horizon }
    ensures value { result ≡ cut_value model.now (label_cut model.now labels.now k) k }
    ensures bound { (q : List Move) → IsFeasible model.now q k → out_by model.now q k ≤ result }
{
    let mut items = crossing(model, labels, k);
    let mut value = 0;
    while let Some(item) = items.next() {
        value += u64::from(number_of(item));
    }
    value
}
