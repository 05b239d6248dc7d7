//! The names of a building.
ghost use Rattle.std.specs.Prelude.{◌≡◌, ◌<◌, ◌≤◌, length, map, slice_get, IfOk, Some};
ghost use Rattle.std.specs.Option.{option_map};
ghost use Rattle.evac_law.specs.Limits.{arc_limit, node_limit};
ghost use Rattle.building_table.specs.Names.{EndsDiffer, NameTable, NamesDiffer, arc_ends, arc_place, node_names, node_place};

use crate::name_index::NameIndex;
use evac_law::NodeName;
use std::alloc::{AllocError, Global};
use std::marker::Model;

/// The names of a building's nodes, the ends of its arcs, its floors and its title.
pub struct Names {
    index: NameIndex,
    floors: Vec<u16>,
    texts: Vec<Vec<u8>>,
    title: Option<Vec<u8>>,
}

// Written out, since a derived drop is laid out part by part in each function that lets one go.
impl Drop for Names {
    fn drop(self) {
        let Names {
            index: _,
            floors: _,
            texts: _,
            title: _,
        } = self;
    }
}

impl Model for Names {
    ghost use Rattle.std.specs.Prelude.{◌≡◌, length, map};
    ghost use Rattle.std.specs.Option.{option_map};
    ghost use Rattle.building_table.specs.Names.{NameTable};

    ghost Value = { NameTable };

    ghost view = { λ n. record {
      nodes = n.index.nodes;
      ends = n.index.ends;
      floors = n.floors.items;
      texts = map (λ t. t.items) n.texts.items;
      title = option_map (λ t. t.items) n.title;
    } };

    ghost invariant = { λ n. length n.floors.items ≡ length n.texts.items };
}

impl Names {
    /// The names of a model's nodes and the ends of its arcs, with the floors and the title.
    pub fn new(
        alloc: Global,
        model: &evac_law::Model,
        floors: Vec<u16>,
        texts: Vec<Vec<u8>>,
        title: Option<Vec<u8>>,
    ) -> Result<Names, AllocError>
        requires floors { length floors.items ≡ length texts.items }
        requires few_nodes { length model.now.nodes ≤ node_limit }
        requires few_arcs { length model.now.arcs ≤ arc_limit }
        ensures nodes { IfOk result (λ n. NamesDiffer model.now.nodes → n.nodes ≡ node_names model.now) }
        ensures ends { IfOk result (λ n. EndsDiffer model.now.arcs → n.ends ≡ arc_ends model.now) }
        ensures floors { IfOk result (λ n. (n.floors ≡ floors.items) × (n.texts ≡ map (λ t. t.items) texts.items)) }
        ensures title { IfOk result (λ n. n.title ≡ option_map (λ t. t.items) title) }
    {
        let mut index = NameIndex::new(alloc);
        index.insert_model(model)?;
        Ok(Names::from_index(index, floors, texts, title))
    }

    /// The names of an index, with the floors and the title.
    pub(crate) fn from_index(
        index: NameIndex,
        floors: Vec<u16>,
        texts: Vec<Vec<u8>>,
        title: Option<Vec<u8>>,
    ) -> Names
        requires { length floors.items ≡ length texts.items }
        ensures { result ≡ record {
          nodes = index.nodes;
          ends = index.ends;
          floors = floors.items;
          texts = map (λ t. t.items) texts.items;
          title = option_map (λ t. t.items) title;
        } }
    {
        Names {
            index,
            floors,
            texts,
            title,
        }
    }

    /// The place of a node.
    pub fn find_node(&self, name: NodeName) -> Option<u32>
        ensures { result ≡ node_place self.now name }
    {
        self.index.find_node(name)
    }

    /// The place of the arc between two nodes.
    pub fn find_arc(&self, from: u32, to: u32) -> Option<u32>
        ensures { result ≡ arc_place self.now from to }
    {
        self.index.find_ends(from, to)
    }

    /// The numbers of the floors, in file order.
    pub fn floors(&self) -> &[u16]
        ensures floors { result.now ≡ self.now.floors }
        ensures texts { length result.now ≡ length self.now.texts }
    {
        &self.floors
    }

    /// The text of the floor at a place.
    pub fn floor_text(&self, place: usize) -> &[u8]
        requires { place < length self.now.floors }
        ensures { slice_get self.now.texts place ≡ Some result.now }
    {
        &self.texts[place]
    }

    /// The text of the title, where one was given.
    pub fn title(&self) -> Option<&[u8]>
        ensures { option_map (λ t. t.now) result ≡ self.now.title }
    {
        match &self.title {
            Some(text) => Some(text.as_slice()),
            None => None,
        }
    }
}
