//! What a cut of labels is worth.
ghost use Rattle.std.specs.Prelude.{◌≡◌, ◌+◌, ◌*◌, ◌<◌, ◌≤◌, ◌^◌, ◌++◌, IfOk, OnOk, length};
ghost use Rattle.std.specs.List.{flat_map, sum_by};
ghost use Rattle.evac_law.specs.Certificates.{IsTableOf, label_cut};
ghost use Rattle.evac_law.specs.Cuts.{arc_part, cut_items, entry_part, hold_part, leaves_cut, number_of};
ghost use Rattle.plain_plan.specs.Sizes.{IsSmall};
ghost use Rattle.evac_law.specs.Sums.{below, moments_to, places};

use crate::parts::{arrival, entry, head, node_at, rate, tail};
use evac_law::{CutItem, Labels, Model};
use std::alloc::{AllocError, Global};

// Whether a node at a moment is in the cut of moment k; no place past the last node is.
#[tactic(auto, using(crate::proofs::Past::past_all))]
fn in_cut(model: &Model, labels: &Labels, k: u16, node: u32, moment: u64) -> bool
    requires table { IsTableOf model.now labels.now }
    requires k_in { k ≤ model.now.horizon }
    ensures { result ≡ label_cut model.now labels.now k node moment }
{
    node < labels.nodes()
        && moment <= u64::from(k)
        && !node_at(model, node).name.kind.is_exit()
        && k < labels.get(node, moment as u16)
}

// The entries of a node outside the cut.
#[tactic(auto, using(evac_law::proofs::PartLemmas::parts_more))]
fn push_entries(
    items: &mut Vec<CutItem>,
    model: &Model,
    labels: &Labels,
    k: u16,
    node: u32,
) -> Result<(), AllocError>
    requires sizes { IsSmall model.now }
    requires table { IsTableOf model.now labels.now }
    requires k_in { k ≤ model.now.horizon }
    requires node_in { node < length model.now.nodes }
    ensures { let x = label_cut model.now labels.now k in
        OnOk result (items.new.items ≡ items.old.items ++ flat_map (entry_part model.now x node) (moments_to k)) }
{
    for moment in 0..k + 1 {
        let people = entry(model, node, u64::from(moment));
        if !in_cut(model, labels, k, node, u64::from(moment)) && people > 0 {
            items.push(CutItem::Entry { node, people })?;
        }
    }
    Ok(())
}

// The holds of a node that lead out of the cut.
#[tactic(auto, using(evac_law::proofs::PartLemmas::parts_more))]
fn push_holds(
    items: &mut Vec<CutItem>,
    model: &Model,
    labels: &Labels,
    k: u16,
    node: u32,
) -> Result<(), AllocError>
    requires sizes { IsSmall model.now }
    requires table { IsTableOf model.now labels.now }
    requires k_in { k ≤ model.now.horizon }
    requires node_in { node < length model.now.nodes }
    ensures { let x = label_cut model.now labels.now k in
        OnOk result (items.new.items ≡ items.old.items ++ flat_map (hold_part model.now x node) (below k)) }
{
    for moment in 0..k {
        let now = in_cut(model, labels, k, node, u64::from(moment));
        let next = in_cut(model, labels, k, node, u64::from(moment) + 1);
        if now && !next {
            let capacity = node_at(model, node).capacity;
            items.push(CutItem::Hold {
                node,
                moment,
                capacity,
            })?;
        }
    }
    Ok(())
}

// Whether people who enter an arc at a moment leave the cut by moment k.
fn leaves_cut(model: &Model, labels: &Labels, k: u16, moment: u16, arc: u32) -> bool
    requires sizes { IsSmall model.now }
    requires table { IsTableOf model.now labels.now }
    requires k_in { k ≤ model.now.horizon }
    requires arc_in { arc < length model.now.arcs }
    ensures { result ≡ leaves_cut model.now (label_cut model.now labels.now k) k moment arc }
{
    let to = head(model, arc);
    let arrival = arrival(model, arc, moment);
    in_cut(model, labels, k, tail(model, arc), u64::from(moment))
        && arrival <= u64::from(k)
        && (node_at(model, to).name.kind.is_exit() || !in_cut(model, labels, k, to, arrival))
}

// The arcs that lead out of the cut when they are entered at a moment.
#[tactic(auto, using(evac_law::proofs::PartLemmas::parts_more))]
fn push_arcs(
    items: &mut Vec<CutItem>,
    model: &Model,
    labels: &Labels,
    k: u16,
    moment: u16,
) -> Result<(), AllocError>
    requires sizes { IsSmall model.now }
    requires table { IsTableOf model.now labels.now }
    requires k_in { k ≤ model.now.horizon }
    ensures { let x = label_cut model.now labels.now k in
        OnOk result (items.new.items ≡ items.old.items ++ flat_map (arc_part model.now x k moment) (places model.now.arcs)) }
{
    for arc in 0..model.arcs.len() as u32 {
        if leaves_cut(model, labels, k, moment, arc) {
            let rate = rate(model, arc, u64::from(moment));
            items.push(CutItem::Arc { arc, moment, rate })?;
        }
    }
    Ok(())
}

/// The items of the cut that labels make at moment k, in their order.
#[tactic(auto, using(evac_law::proofs::PartLemmas::parts_more), unfolding(evac_law::specs::Cuts::cut_items))]
pub fn cut_items(
    alloc: Global,
    model: &Model,
    labels: &Labels,
    k: u16,
) -> Result<Vec<CutItem>, AllocError>
    requires sizes { IsSmall model.now }
    requires table { IsTableOf model.now labels.now }
    requires k_in { k ≤ model.now.horizon }
    ensures { IfOk result (λ v. v.items ≡ cut_items model.now (label_cut model.now labels.now k) k) }
{
    let mut items = Vec::new(alloc);
    'entries: for node in 0..model.nodes.len() as u32 {
        push_entries(&mut items, model, labels, k, node)?;
    }
    'holds: for node in 0..model.nodes.len() as u32 {
        push_holds(&mut items, model, labels, k, node)?;
    }
    'arcs: for moment in 0..k + 1 {
        push_arcs(&mut items, model, labels, k, moment)?;
    }
    Ok(items)
}

/// The sum of the numbers of a cut's items.
pub fn sum_of_items(items: &[CutItem]) -> u64
    requires { length items.now < 2 ^ 31 }
    ensures { result ≡ sum_by number_of items.now }
{
    let mut total = 0u64;
    for item in items {
        total += match *item {
            CutItem::Entry { people, .. } => u64::from(people),
            CutItem::Hold { capacity, .. } => u64::from(capacity),
            CutItem::Arc { rate, .. } => u64::from(rate),
        };
    }
    total
}
