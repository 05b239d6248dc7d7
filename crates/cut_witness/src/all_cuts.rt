//! The values of the cuts of all periods.
ghost use Rattle.std.specs.Prelude.{◌≡◌, ℕ, ◌+◌, ◌*◌, ◌^◌, ◌<◌, ◌≤◌, IfOk, length, slice_index};
ghost use Rattle.std.specs.List.{sum_by};
ghost use Rattle.evac_law.specs.Building.{IsValid};
ghost use Rattle.evac_law.specs.Certificates.{IsTableOf, label_cut};
ghost use Rattle.evac_law.specs.Cuts.{cut_value};
ghost use Rattle.evac_law.specs.Limits.{arc_limit, node_limit};
ghost use Rattle.evac_law.specs.Sums.{places};
ghost use Rattle.cut_witness.specs.Changes.{IsRaised, turnover};
ghost use Rattle.cut_witness.specs.Shares.{IsSummable, arc_shares, entry_shares, hold_shares};

use crate::differences::Differences;
use crate::span::{arc_span, entry_span, hold_span};
use evac_law::{Labels, Model};
use std::alloc::{AllocError, Global};

/// A number for each period: from `fill` on the value of the period's cut. Contracts see it as the list of the numbers.
#[derive(Drop)]
pub struct CutValues {
    differences: Differences,
    values: Vec<u64>,
}

impl std::marker::Model for CutValues {
    ghost use Rattle.std.specs.Prelude.{◌≡◌, ℕ, List, length};

    ghost Value = { List ℕ };

    ghost view = { λ c. c.values.items };

    ghost invariant = { λ c. length c.differences.rises ≡ length c.values.items };
}

// Adds the entries of a node to the periods in whose cuts they are.
#[tactic(auto, using(evac_law::proofs::SumLemmas::sum_steps), unfolding(evac_law::specs::Limits::horizon_limit))]
fn add_entries_of(differences: &mut Differences, model: &Model, labels: &Labels, node: u32)
    requires summable { IsSummable model.now labels.now differences.old }
    requires node_in { node < length model.now.nodes }
    requires room { turnover differences.old < 2 ^ 62 }
    ensures { IsRaised (λ k. entry_shares model.now labels.now k node) (2 ^ 49) differences.old differences.new }
{
    for moment in 0..model.horizon + 1 {
        let span = entry_span(model, labels, node, moment);
        differences.add(span, model.entry(node, moment));
    }
}

// Adds the capacity of a node to the periods whose cuts it leaves, for each moment after which it does.
#[tactic(auto, using(evac_law::proofs::SumLemmas::sum_steps))]
fn add_holds_of(differences: &mut Differences, model: &Model, labels: &Labels, node: u32)
    requires summable { IsSummable model.now labels.now differences.old }
    requires node_in { node < length model.now.nodes }
    requires room { turnover differences.old < 2 ^ 62 }
    ensures { IsRaised (λ k. hold_shares model.now labels.now k node) (2 ^ 49) differences.old differences.new }
{
    let capacity = model.node(node).capacity;
    for moment in 0..model.horizon {
        let span = hold_span(model, labels, node, moment);
        differences.add(span, capacity);
    }
}

// Adds the rates of an arc to the periods whose cuts it leaves, for each moment at which it does.
#[tactic(auto, using(evac_law::proofs::SumLemmas::sum_steps), unfolding(evac_law::specs::Limits::horizon_limit))]
fn add_arcs_of(differences: &mut Differences, model: &Model, labels: &Labels, arc: u32)
    requires summable { IsSummable model.now labels.now differences.old }
    requires arc_in { arc < length model.now.arcs }
    requires room { turnover differences.old < 2 ^ 62 }
    ensures { IsRaised (λ k. arc_shares model.now labels.now k arc) (2 ^ 49) differences.old differences.new }
{
    for moment in 0..model.horizon + 1 {
        let span = arc_span(model, labels, arc, moment);
        differences.add(span, model.rate(arc, moment));
    }
}

// Adds all nodes' entries.
#[tactic(auto, using(evac_law::proofs::SumLemmas::sum_steps), unfolding(evac_law::specs::Limits::node_limit))]
fn add_entries(differences: &mut Differences, model: &Model, labels: &Labels)
    requires summable { IsSummable model.now labels.now differences.old }
    requires room { turnover differences.old < 2 ^ 61 }
    ensures { IsRaised (λ k. sum_by (entry_shares model.now labels.now k) (places model.now.nodes)) (node_limit * 2 ^ 49) differences.old differences.new }
{
    for node in 0..model.node_count() {
        add_entries_of(differences, model, labels, node);
    }
}

// Adds all nodes' capacities.
#[tactic(auto, using(evac_law::proofs::SumLemmas::sum_steps), unfolding(evac_law::specs::Limits::node_limit))]
fn add_holds(differences: &mut Differences, model: &Model, labels: &Labels)
    requires summable { IsSummable model.now labels.now differences.old }
    requires room { turnover differences.old < 2 ^ 61 }
    ensures { IsRaised (λ k. sum_by (hold_shares model.now labels.now k) (places model.now.nodes)) (node_limit * 2 ^ 49) differences.old differences.new }
{
    for node in 0..model.node_count() {
        add_holds_of(differences, model, labels, node);
    }
}

// Adds all arcs' rates.
#[tactic(auto, using(evac_law::proofs::SumLemmas::sum_steps), unfolding(evac_law::specs::Limits::arc_limit))]
fn add_arcs(differences: &mut Differences, model: &Model, labels: &Labels)
    requires summable { IsSummable model.now labels.now differences.old }
    requires room { turnover differences.old < 2 ^ 61 }
    ensures { IsRaised (λ k. sum_by (arc_shares model.now labels.now k) (places model.now.arcs)) (arc_limit * 2 ^ 49) differences.old differences.new }
{
    for arc in 0..model.arc_count() {
        add_arcs_of(differences, model, labels, arc);
    }
}

// Adds the items of all cuts.
#[tactic(auto, unfolding(evac_law::specs::Limits::arc_limit, evac_law::specs::Limits::node_limit))]
fn add_items(differences: &mut Differences, model: &Model, labels: &Labels)
    requires summable { IsSummable model.now labels.now differences.old }
    requires room { turnover differences.old < 2 ^ 60 }
    ensures { IsRaised (λ k. cut_value model.now (label_cut model.now labels.now k) k) (2 ^ 62) differences.old differences.new }
{
    add_entries(differences, model, labels);
    add_holds(differences, model, labels);
    add_arcs(differences, model, labels);
}

impl CutValues {
    /// A number for each period up to the horizon.
    pub fn new(alloc: Global, horizon: u16) -> Result<CutValues, AllocError>
        ensures { IfOk result (λ c. length c ≡ horizon + 1) }
    {
        let differences = Differences::new(alloc, horizon)?;
        let values = vec![in alloc; 0u64; usize::from(horizon) + 1]?;
        Ok(CutValues {
            differences,
            values,
        })
    }

    /// Takes the values of the cuts that labels make, in one pass over the nodes and arcs at each moment.
    pub fn fill(&mut self, model: &Model, labels: &Labels)
        requires valid { IsValid model.now }
        requires table { IsTableOf model.now labels.now }
        requires periods { length self.old ≡ model.now.horizon + 1 }
        ensures periods { length self.new ≡ length self.old }
        ensures values { (k : ℕ) → k ≤ model.now.horizon → slice_index self.new k ≡ cut_value model.now (label_cut model.now labels.now k) k }
    {
        self.differences.clear();
        add_items(&mut self.differences, model, labels);
        self.differences.write_to(self.values.as_mut_slice());
    }

    /// The number of a period.
    pub fn get(&self, k: u16) -> u64
        requires { k < length self.now }
        ensures { result ≡ slice_index self.now k }
    {
        self.values[usize::from(k)]
    }
}
