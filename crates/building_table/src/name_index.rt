//! The names of nodes and the ends of arcs, with their places.
ghost use Rattle.std.specs.Prelude.{◌≡◌, ◌<◌, ◌≤◌, ◌==◌, ◌&&◌, [], length, map, position, OnErr, OnOk};
ghost use Rattle.evac_law.specs.Limits.{arc_limit, node_limit};
ghost use Rattle.building_table.specs.Names.{EndsDiffer, NamesDiffer, arc_ends, ends_with, names_with, node_names};
ghost use Rattle.model_text.specs.Taken.{same_name};

use evac_law::{ArcRow, NodeName, NodeRow};
use indexmap::IndexSet;
use std::alloc::{AllocError, Global};
use std::marker::Model;

/// The names of nodes, and the ends of arcs by the places of their nodes, in the order in which they came.
#[derive(Drop)]
pub(crate) struct NameIndex {
    nodes: IndexSet<NodeName>,
    ends: IndexSet<(u32, u32)>,
}

impl Model for NameIndex {
    ghost use Rattle.std.specs.Prelude.{◌≤◌, length};
    ghost use Rattle.building_table.specs.Names.{NameLists};
    ghost use Rattle.evac_law.specs.Limits.{arc_limit, node_limit};

    ghost Value = { NameLists };

    ghost view = { λ x. record { nodes = x.nodes.keys; ends = x.ends.keys } };

    ghost invariant = { λ x. (length x.nodes.keys ≤ node_limit) × (length x.ends.keys ≤ arc_limit) };
}

impl NameIndex {
    /// An index of nothing.
    pub(crate) fn new(alloc: Global) -> NameIndex
        ensures { result ≡ record { nodes = []; ends = [] } }
    {
        NameIndex {
            nodes: IndexSet::new(alloc),
            ends: IndexSet::new(alloc),
        }
    }

    /// Puts a node's name after the others, where it is new.
    pub(crate) fn insert_node(&mut self, name: NodeName) -> Result<(), AllocError>
        requires { length self.old.nodes < node_limit }
        ensures made { OnOk result (self.new ≡ record self.old { nodes = names_with self.old.nodes name }) }
        ensures same { OnErr result (self.new ≡ self.old) }
    {
        self.nodes.insert(name)?;
        Ok(())
    }

    /// Puts an arc's ends after the others, where they are new.
    pub(crate) fn insert_ends(&mut self, from: u32, to: u32) -> Result<(), AllocError>
        requires { length self.old.ends < arc_limit }
        ensures made { OnOk result (self.new ≡ record self.old { ends = ends_with self.old.ends (from, to) }) }
        ensures same { OnErr result (self.new ≡ self.old) }
    {
        self.ends.insert((from, to))?;
        Ok(())
    }

    // Puts in the names of some nodes, where there are none yet.
    #[tactic(auto, using(crate::proofs::IndexLemmas::few_names, crate::proofs::IndexLemmas::add_name))]
    fn insert_nodes(&mut self, rows: &[NodeRow]) -> Result<(), AllocError>
        requires empty { self.old.nodes ≡ [] }
        requires few { length rows.now ≤ node_limit }
        ensures nodes { OnOk result (NamesDiffer rows.now → self.new.nodes ≡ map (λ n. n.name) rows.now) }
        ensures ends { OnOk result (self.new.ends ≡ self.old.ends) }
    {
        for row in rows {
            self.insert_node(row.name)?;
        }
        Ok(())
    }

    // Puts in the ends of some arcs, where there are none yet.
    #[tactic(auto, using(crate::proofs::IndexLemmas::few_ends, crate::proofs::IndexLemmas::add_ends))]
    fn insert_arcs(&mut self, rows: &[ArcRow]) -> Result<(), AllocError>
        requires empty { self.old.ends ≡ [] }
        requires few { length rows.now ≤ arc_limit }
        ensures nodes { OnOk result (self.new.nodes ≡ self.old.nodes) }
        ensures ends { OnOk result (EndsDiffer rows.now → self.new.ends ≡ map (λ a. (a.from, a.to)) rows.now) }
    {
        for row in rows {
            self.insert_ends(row.from, row.to)?;
        }
        Ok(())
    }

    /// Puts in the names of a model's nodes and the ends of its arcs, where there are none yet.
    pub(crate) fn insert_model(&mut self, model: &evac_law::Model) -> Result<(), AllocError>
        requires no_nodes { self.old.nodes ≡ [] }
        requires no_ends { self.old.ends ≡ [] }
        requires few_nodes { length model.now.nodes ≤ node_limit }
        requires few_arcs { length model.now.arcs ≤ arc_limit }
        ensures nodes { OnOk result (NamesDiffer model.now.nodes → self.new.nodes ≡ node_names model.now) }
        ensures ends { OnOk result (EndsDiffer model.now.arcs → self.new.ends ≡ arc_ends model.now) }
    {
        self.insert_nodes(model.nodes.as_slice())?;
        self.insert_arcs(model.arcs.as_slice())
    }

    /// The place of a node's name.
    #[tactic(auto, unfolding(evac_law::specs::Limits::node_limit))]
    pub(crate) fn find_node(&self, name: NodeName) -> Option<u32>
        ensures { result ≡ position (λ n. same_name n name) self.now.nodes }
    {
        match self.nodes.get_index_of(&name) {
            Some(place) => Some(place as u32),
            None => None,
        }
    }

    /// The place of an arc's ends.
    #[tactic(auto, unfolding(evac_law::specs::Limits::arc_limit))]
    pub(crate) fn find_ends(&self, from: u32, to: u32) -> Option<u32>
        ensures { result ≡ position (λ e. e.0 == from && e.1 == to) self.now.ends }
    {
        match self.ends.get_index_of(&(from, to)) {
            Some(place) => Some(place as u32),
            None => None,
        }
    }
}
