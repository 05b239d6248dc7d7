//! The nodes of each floor of a building, in file order.
#![tactic(auto)]

ghost use Rattle.std.specs.Prelude.{◌≡◌, ◌<◌, ◌≤◌, ◌==◌, IfOk, length, map, position};
ghost use Rattle.evac_law.specs.Limits.{node_limit};
ghost use Rattle.floor_index.specs.Floors.{ListedAreNodes, is_on, listed, nodes_on, table_of};

use evac_law::Model;
use std::alloc::{AllocError, Global};

/// The nodes of some floors.
#[derive(Drop)]
pub struct FloorIndex {
    floors: Vec<u16>,
    lists: Vec<Vec<u32>>,
}

impl std::marker::Model for FloorIndex {
    ghost use Rattle.std.specs.Prelude.{◌≡◌, length, map};
    ghost use Rattle.floor_index.specs.Floors.{FloorTable};

    ghost Value = { FloorTable };

    ghost view = { λ i. record { floors = i.floors.items; lists = map (λ l. l.items) i.lists.items } };

    ghost invariant = { λ i. length i.floors.items ≡ length i.lists.items };
}

// Whether a node's name has a floor.
fn is_on(model: &Model, floor: u16, node: u32) -> bool
    requires { node < length model.now.nodes }
    ensures { result ≡ is_on model.now floor node }
{
    model.node(node).name.floor == floor
}

// The nodes of a floor.
#[tactic(auto, using(crate::proofs::FloorLemmas::filter_more), unfolding(crate::specs::Floors::nodes_on, evac_law::specs::Limits::node_limit))]
fn nodes_on(alloc: Global, model: &Model, floor: u16) -> Result<Vec<u32>, AllocError>
    requires { length model.now.nodes ≤ node_limit }
    ensures { IfOk result (λ nodes. nodes.items ≡ nodes_on model.now floor) }
{
    let mut nodes = Vec::new(alloc);
    for node in 0..model.nodes.len() as u32 {
        if is_on(model, floor, node) {
            nodes.push(node)?;
        }
    }
    Ok(nodes)
}

// The place of a floor.
fn place_of(floors: &[u16], floor: u16) -> Option<usize>
    ensures { result ≡ position (λ f. f == floor) floors.now }
{
    floors.iter().position(|f| *f == floor)
}

fn lists_of(alloc: Global, model: &Model, floors: &[u16]) -> Result<Vec<Vec<u32>>, AllocError>
    requires { length model.now.nodes ≤ node_limit }
    ensures { IfOk result (λ lists. map (λ l. l.items) lists.items ≡ map (nodes_on model.now) floors.now) }
{
    let mut lists = Vec::new(alloc);
    for floor in floors {
        lists.push(nodes_on(alloc, model, *floor)?)?;
    }
    Ok(lists)
}

impl FloorIndex {
    /// The index of these floors of a model.
    pub fn new(alloc: Global, model: &Model, floors: &[u16]) -> Result<FloorIndex, AllocError>
        requires { length model.now.nodes ≤ node_limit }
        ensures { IfOk result (λ index. index ≡ table_of model.now floors.now) }
    {
        let lists = lists_of(alloc, model, floors)?;
        let floors = Vec::from_slice(alloc, floors)?;
        Ok(FloorIndex { floors, lists })
    }

    /// The nodes whose name has the floor, in file order; none where the floor isn't listed.
    pub fn nodes_of(&self, floor: u16) -> &[u32]
        ensures { result.now ≡ listed self.now floor }
    {
        match place_of(&self.floors, floor) {
            Some(place) => &self.lists[place],
            None => &[],
        }
    }
}

/// The list of a listed floor is exactly its nodes.
pub fn listed_are_nodes()
    ensures { ListedAreNodes }
{}
