//! A label for each node and moment.
ghost use Rattle.std.specs.Prelude.{◌≡◌, ◌+◌, ◌*◌, ◌<◌, ◌≤◌, IfOk, map, replicate};
ghost use Rattle.evac_law.specs.LabelTable.{IsTable, below_or_unset, label_at, unset, unset_from, with_label};

use std::alloc::{AllocError, Global};
use std::marker::Model;

/// A label for each node and each moment up to the horizon.
#[derive(Drop)]
pub struct Labels {
    nodes: u32,
    horizon: u16,
    labels: Vec<u16>,
}

impl Model for Labels {
    ghost use Rattle.evac_law.specs.LabelTable.{IsTable, LabelTable};

    ghost Value = { LabelTable };

    ghost view = { λ l. record { nodes = l.nodes; horizon = l.horizon; list = l.labels.items } };

    ghost invariant = { λ l. IsTable l.nodes l.horizon l.labels.items };
}

// A label that is below a moment, or else none.
fn below_or_unset(from: u16, label: u16) -> u16
    ensures { result ≡ below_or_unset from label }
{
    if label < from { label } else { Labels::UNSET }
}

// Unsets each label that isn't below a moment.
fn unset_late(labels: &mut [u16], from: u16)
    ensures { labels.new ≡ map (below_or_unset from) labels.old }
{
    for label in labels.iter_mut() {
        *label = below_or_unset(from, *label);
    }
}

impl Labels {
    /// The label of a node at a moment that has none.
    pub const UNSET: u16 = 65_535;

    /// Labels that are all unset.
    pub fn new(alloc: Global, nodes: u32, horizon: u16) -> Result<Labels, AllocError>
        ensures { IfOk result (λ l. l ≡ record { nodes = nodes; horizon = horizon; list = replicate (nodes * (horizon + 1)) unset }) }
    {
        let cells = nodes as usize * (horizon as usize + 1);
        let labels = vec![in alloc; Self::UNSET; cells]?;
        Ok(Labels {
            nodes,
            horizon,
            labels,
        })
    }

    /// The number of the nodes.
    pub fn nodes(&self) -> u32
        ensures number { result ≡ self.now.nodes }
        ensures table { IsTable self.now.nodes self.now.horizon self.now.list }
    {
        self.nodes
    }

    /// The last moment.
    pub fn horizon(&self) -> u16
        ensures { result ≡ self.now.horizon }
    {
        self.horizon
    }

    /// The label of a node at a moment.
    pub fn get(&self, node: u32, moment: u16) -> u16
        requires node_in { node < self.now.nodes }
        requires moment_in { moment ≤ self.now.horizon }
        ensures { result ≡ label_at self.now node moment }
    {
        self.labels[node as usize * (self.horizon as usize + 1) + moment as usize]
    }

    /// Sets the label of a node at a moment.
    pub fn set(&mut self, node: u32, moment: u16, label: u16)
        requires node_in { node < self.old.nodes }
        requires moment_in { moment ≤ self.old.horizon }
        ensures { self.new ≡ with_label self.old node moment label }
    {
        let place = node as usize * (self.horizon as usize + 1) + moment as usize;
        self.labels[place] = label;
    }

    /// Unsets each label that isn't below a moment.
    pub fn unset_from(&mut self, from: u16)
        ensures unset { self.new ≡ unset_from self.old from }
        ensures table { IsTable self.new.nodes self.new.horizon self.new.list }
    {
        unset_late(self.labels.as_mut_slice(), from);
    }

    /// Takes the labels of another table of the same sizes.
    pub fn copy_from(&mut self, other: &Labels)
        requires nodes { self.old.nodes ≡ other.now.nodes }
        requires horizon { self.old.horizon ≡ other.now.horizon }
        ensures { self.new ≡ other.now }
    {
        self.labels.as_mut_slice().copy_from_slice(&other.labels);
    }
}
