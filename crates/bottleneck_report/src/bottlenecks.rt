//! The report on labels.
ghost use Rattle.std.specs.Prelude.{◌≡◌, ◌+◌, ◌<◌, ◌≤◌, IfOk, length, map, slice_index};
ghost use Rattle.evac_law.specs.Building.{IsValid};
ghost use Rattle.evac_law.specs.Certificates.{IsTableOf};
ghost use Rattle.evac_law.specs.Sums.{places};
ghost use Rattle.bottleneck_report.specs.Crossings.{HasCounts, IsReportable, arc_periods, counts_of, hold_periods};

use crate::cover::{add, clear, count};
use cut_witness::{arc_span, hold_span};
use evac_law::Labels;
use std::alloc::{AllocError, Global};
use std::marker::Model;

/// How often each arc and each node is an item of a cut. All memory that it needs is taken when it is made.
#[derive(Drop)]
pub struct Bottlenecks {
    arcs: Vec<u32>,
    holds: Vec<u32>,
    ends: Vec<u16>,
}

impl Model for Bottlenecks {
    ghost use Rattle.std.specs.Prelude.{length};
    ghost use Rattle.bottleneck_report.specs.Crossings.{PeriodCounts};

    ghost Value = { PeriodCounts };

    ghost view = { λ b. record { arcs = b.arcs.items; holds = b.holds.items; room = length b.ends.items } };
}

// In how many periods an arc is an item.
#[tactic(auto, unfolding(evac_law::specs::Limits::horizon_limit))]
fn count_arc(
    ends: &mut [u16],
    model: &evac_law::Model,
    labels: &Labels,
    arc: u32,
    cleared: u16,
) -> u32
    requires reportable { IsReportable model.now labels.now cleared ends.old }
    requires arc_in { arc < length model.now.arcs }
    ensures count { result ≡ arc_periods model.now labels.now cleared arc }
    ensures size { length ends.new ≡ length ends.old }
{
    clear(ends);
    for moment in 0..model.horizon + 1 {
        add(ends, arc_span(model, labels, arc, moment));
    }
    count(ends, cleared)
}

// In how many periods the hold of a node is an item.
fn count_hold(
    ends: &mut [u16],
    model: &evac_law::Model,
    labels: &Labels,
    node: u32,
    cleared: u16,
) -> u32
    requires reportable { IsReportable model.now labels.now cleared ends.old }
    requires node_in { node < length model.now.nodes }
    ensures count { result ≡ hold_periods model.now labels.now cleared node }
    ensures size { length ends.new ≡ length ends.old }
{
    clear(ends);
    for moment in 0..model.horizon {
        add(ends, hold_span(model, labels, node, moment));
    }
    count(ends, cleared)
}

// Writes the numbers of the arcs.
fn write_arcs(
    numbers: &mut [u32],
    ends: &mut [u16],
    model: &evac_law::Model,
    labels: &Labels,
    cleared: u16,
)
    requires reportable { IsReportable model.now labels.now cleared ends.old }
    requires arcs { length numbers.old ≡ length model.now.arcs }
    ensures numbers { numbers.new ≡ map (arc_periods model.now labels.now cleared) (places model.now.arcs) }
    ensures size { length ends.new ≡ length ends.old }
{
    for arc in 0..model.arc_count() {
        numbers[arc as usize] = count_arc(ends, model, labels, arc, cleared);
    }
}

// Writes the numbers of the nodes.
fn write_holds(
    numbers: &mut [u32],
    ends: &mut [u16],
    model: &evac_law::Model,
    labels: &Labels,
    cleared: u16,
)
    requires reportable { IsReportable model.now labels.now cleared ends.old }
    requires nodes { length numbers.old ≡ length model.now.nodes }
    ensures numbers { numbers.new ≡ map (hold_periods model.now labels.now cleared) (places model.now.nodes) }
    ensures size { length ends.new ≡ length ends.old }
{
    for node in 0..model.node_count() {
        numbers[node as usize] = count_hold(ends, model, labels, node, cleared);
    }
}

impl Bottlenecks {
    /// A report with room for the arcs, nodes and periods of a model.
    pub fn new(alloc: Global, model: &evac_law::Model) -> Result<Bottlenecks, AllocError>
        requires { IsValid model.now }
        ensures { IfOk result (HasCounts model.now) }
    {
        let arcs = vec![in alloc; 0u32; model.arcs.len()]?;
        let holds = vec![in alloc; 0u32; model.nodes.len()]?;
        let ends = vec![in alloc; 0u16; usize::from(model.horizon) + 1]?;
        Ok(Bottlenecks { arcs, holds, ends })
    }

    /// Counts over the periods before everybody is out, in one pass over the labels for arcs and one for nodes.
    pub fn fill(&mut self, model: &evac_law::Model, labels: &Labels, cleared: u16)
        requires valid { IsValid model.now }
        requires room { HasCounts model.now self.old }
        requires table { IsTableOf model.now labels.now }
        requires in_time { cleared ≤ model.now.horizon }
        ensures counts { self.new ≡ counts_of model.now labels.now cleared }
        ensures room { HasCounts model.now self.new }
    {
        write_arcs(
            self.arcs.as_mut_slice(),
            self.ends.as_mut_slice(),
            model,
            labels,
            cleared,
        );
        write_holds(
            self.holds.as_mut_slice(),
            self.ends.as_mut_slice(),
            model,
            labels,
            cleared,
        );
    }

    /// The number of an arc.
    pub fn arc_periods(&self, arc: u32) -> u32
        requires { arc < length self.now.arcs }
        ensures { result ≡ slice_index self.now.arcs arc }
    {
        self.arcs[arc as usize]
    }

    /// The number of a node.
    pub fn hold_periods(&self, node: u32) -> u32
        requires { node < length self.now.holds }
        ensures { result ≡ slice_index self.now.holds node }
    {
        self.holds[node as usize]
    }
}
