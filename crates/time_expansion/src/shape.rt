//! The cells of a network over time, and the arcs at each node.
ghost use Rattle.std.specs.Prelude.{◌≡◌, ◌+◌, ◌*◌, ◌<◌, ◌≤◌, IfOk, length};
ghost use Rattle.time_expansion.specs.Expansion.{IsExpansion, arc_cell, arcs_from, arcs_to, cells, hold_cell};

use crate::ends::Ends;
use crate::index::{Index, index_of};
use std::alloc::{AllocError, Global};
use std::marker::Model;

/// The cells of a network over time.
#[derive(Drop)]
pub struct Shape {
    nodes: u32,
    ends: Vec<Ends>,
    horizon: u16,
    leaving: Index,
    entering: Index,
}

impl Model for Shape {
    ghost use Rattle.time_expansion.specs.Expansion.{Expansion};
    ghost use Rattle.time_expansion.specs.Index.{IsShape};

    ghost Value = { Expansion };

    ghost view = { λ s. record { nodes = s.nodes; ends = s.ends.items; horizon = s.horizon } };

    ghost invariant = { λ s. IsShape (record { nodes = s.nodes; ends = s.ends.items; horizon = s.horizon }) s.leaving.starts.items s.leaving.items.items s.entering.starts.items s.entering.items.items };
}

impl Shape {
    /// The cells of a network. Takes time in proportion to its nodes and arcs.
    pub fn new(alloc: Global, nodes: u32, ends: &[Ends], horizon: u16) -> Result<Shape, AllocError>
        requires { IsExpansion (record { nodes = nodes; ends = ends.now; horizon = horizon }) }
        ensures { IfOk result (λ s. s ≡ record { nodes = nodes; ends = ends.now; horizon = horizon }) }
    {
        let copy = Vec::from_slice(alloc, ends)?;
        let leaving = index_of(alloc, nodes, ends, true)?;
        let entering = index_of(alloc, nodes, ends, false)?;
        Ok(Shape {
            nodes,
            ends: copy,
            horizon,
            leaving,
            entering,
        })
    }

    /// The number of the nodes.
    pub fn nodes(&self) -> u32
        ensures { result ≡ self.now.nodes }
    {
        self.nodes
    }

    /// The ends of the arcs, in file order.
    pub fn ends(&self) -> &[Ends]
        ensures { result.now ≡ self.now.ends }
    {
        &self.ends
    }

    /// The last moment.
    pub fn horizon(&self) -> u16
        ensures { result ≡ self.now.horizon }
    {
        self.horizon
    }

    /// The number of the cells.
    #[tactic(auto, unfolding(crate::specs::Expansion::cells, crate::specs::Limits::node_limit, crate::specs::Limits::arc_limit, crate::specs::Limits::horizon_limit, crate::specs::Limits::cell_limit))]
    pub fn cells(&self) -> u32
        ensures number { result ≡ cells self.now }
        ensures shape { IsExpansion self.now }
    {
        (self.nodes + self.ends.len() as u32) * (self.horizon as u32 + 1)
    }

    // The cell of a row at a moment. The rows are the arcs, and after them the nodes.
    #[tactic(auto, using(crate::proofs::Cells::row_cell_below, crate::proofs::Cells::sizes))]
    fn row_cell(&self, row: u32, moment: u16) -> u32
        requires row_in { row < self.now.nodes + length self.now.ends }
        requires moment_in { moment ≤ self.now.horizon }
        ensures cell { result ≡ row * (self.now.horizon + 1) + moment }
        ensures within { result < cells self.now }
        ensures shape { IsExpansion self.now }
    {
        row * (self.horizon as u32 + 1) + moment as u32
    }

    /// The cell of an arc at a moment.
    #[tactic(auto, unfolding(crate::specs::Expansion::arc_cell))]
    pub fn arc_cell(&self, arc: u32, moment: u16) -> u32
        requires arc_in { arc < length self.now.ends }
        requires moment_in { moment ≤ self.now.horizon }
        ensures cell { result ≡ arc_cell self.now arc moment }
        ensures within { result < cells self.now }
    {
        self.row_cell(arc, moment)
    }

    /// The cell of a node at a moment, for whoever waits there.
    #[tactic(auto, unfolding(crate::specs::Expansion::hold_cell))]
    pub fn hold_cell(&self, node: u32, moment: u16) -> u32
        requires node_in { node < self.now.nodes }
        requires moment_in { moment ≤ self.now.horizon }
        ensures cell { result ≡ hold_cell self.now node moment }
        ensures within { result < cells self.now }
    {
        let arcs = self.ends.as_slice().len() as u32;
        let row = arcs + node;
        self.row_cell(row, moment)
    }

    /// The arcs that leave a node, in file order.
    pub fn leaving(&self, node: u32) -> &[u32]
        requires { node < self.now.nodes }
        ensures { result.now ≡ arcs_from self.now node }
    {
        self.leaving.list(node)
    }

    /// The arcs that enter a node, in file order.
    pub fn entering(&self, node: u32) -> &[u32]
        requires { node < self.now.nodes }
        ensures { result.now ≡ arcs_to self.now node }
    {
        self.entering.list(node)
    }
}
