//! The periods in whose cuts an entry, a hold or an arc is an item.
ghost use Rattle.std.specs.Prelude.{◌≡◌, ℕ, ◌+◌, ◌<◌, ◌≤◌, ◌&&◌, not, nat_le, nat_lt, length};
ghost use Rattle.evac_law.specs.Building.{IsValid};
ghost use Rattle.evac_law.specs.Certificates.{IsTableOf, label_cut};
ghost use Rattle.evac_law.specs.Cuts.{leaves_cut};
ghost use Rattle.cut_witness.specs.Changes.{in_span};

use evac_law::{Labels, Model};

/// The periods from a first one up to before another; none where that isn't later.
#[derive(Clone, Copy)]
pub struct Span {
    pub from: u16,
    pub to: u16,
}

impl Span {
    // No period.
    const NONE: Span = Span { from: 0, to: 0 };
}

/// The periods for which a node is outside the cut at a moment.
#[tactic(auto, using(crate::proofs::Spans::entry_spans), unfolding(evac_law::specs::Limits::horizon_limit))]
pub fn entry_span(model: &Model, labels: &Labels, node: u32, moment: u16) -> Span
    requires valid { IsValid model.now }
    requires table { IsTableOf model.now labels.now }
    requires node_in { node < length model.now.nodes }
    requires moment_in { moment ≤ model.now.horizon }
    ensures { (k : ℕ) → k ≤ model.now.horizon → in_span result k ≡ (nat_le moment k && not (label_cut model.now labels.now k node moment)) }
{
    let to = model.horizon + 1;
    if model.node(node).name.kind.is_exit() {
        Span { from: moment, to }
    } else {
        let from = moment.max(labels.get(node, moment));
        Span { from, to }
    }
}

/// The periods for which a node leaves the cut after a moment.
#[tactic(auto, using(crate::proofs::Spans::hold_spans), unfolding(evac_law::specs::Limits::horizon_limit))]
pub fn hold_span(model: &Model, labels: &Labels, node: u32, moment: u16) -> Span
    requires valid { IsValid model.now }
    requires table { IsTableOf model.now labels.now }
    requires node_in { node < length model.now.nodes }
    requires moment_in { moment < model.now.horizon }
    ensures { (k : ℕ) → k ≤ model.now.horizon
        → in_span result k ≡ (nat_lt moment k && (label_cut model.now labels.now k node moment && not (label_cut model.now labels.now k node (moment + 1)))) }
{
    if model.node(node).name.kind.is_exit() {
        Span::NONE
    } else {
        let next = moment + 1;
        let from = next.max(labels.get(node, next));
        let to = labels.get(node, moment);
        Span { from, to }
    }
}

/// The periods for which people who enter an arc at a moment leave the cut.
#[tactic(auto, using(crate::proofs::Spans::arc_spans), unfolding(evac_law::specs::Limits::horizon_limit, evac_law::specs::Limits::travel_limit))]
pub fn arc_span(model: &Model, labels: &Labels, arc: u32, moment: u16) -> Span
    requires valid { IsValid model.now }
    requires table { IsTableOf model.now labels.now }
    requires arc_in { arc < length model.now.arcs }
    requires moment_in { moment ≤ model.now.horizon }
    ensures { (k : ℕ) → k ≤ model.now.horizon → in_span result k ≡ leaves_cut model.now (label_cut model.now labels.now k) k moment arc }
{
    let row = model.arc(arc);
    let arrival = moment + row.travel;
    if arrival > model.horizon {
        return Span::NONE;
    }
    let to = labels.get(row.from, moment);
    if model.node(row.to).name.kind.is_exit() {
        Span { from: arrival, to }
    } else {
        let from = arrival.max(labels.get(row.to, arrival));
        Span { from, to }
    }
}
