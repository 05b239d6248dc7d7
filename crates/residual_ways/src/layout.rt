//! The ways of a building in the order of their lists.
//!
//! Each node has a list of the ways into it, which has the number of the node. After these lists each node has one of its exit ways:
//! those from it over an arc into an exit. In a list ways forwards come first, and each direction goes by the rows, in file order.
ghost use Rattle.std.specs.Prelude.{◌≡◌, ◌<◌, ◌≤◌, IfOk, length};
ghost use Rattle.std.specs.List.{All};
ghost use Rattle.residual_ways.specs.Ways.{IsWayWithin};

use crate::sizes::Sizes;
use crate::way::{Rank, Way};
use evac_law::{ArcRow, Model as Building};
use std::alloc::{AllocError, Global};

/// The ways of a building, in order.
pub fn all_ways(alloc: Global, model: &Building, sizes: Sizes) -> Result<Vec<Way>, AllocError>
    requires nodes { sizes.nodes ≤ length model.now.nodes }
    requires arcs { sizes.arcs ≤ length model.now.arcs }
    ensures { IfOk result (λ ways. All (IsWayWithin sizes) ways.items) }
{
    let mut ways = Vec::new(alloc);
    add_arcs(&mut ways, model, sizes)?;
    add_waits(&mut ways, model, sizes)?;
    ways.sort_unstable();
    Ok(ways)
}

// Adds a way.
fn add(ways: &mut Vec<Way>, sizes: Sizes, way: Way) -> Result<(), AllocError>
    requires way { IsWayWithin sizes way }
    requires ways { All (IsWayWithin sizes) ways.old.items }
    ensures { All (IsWayWithin sizes) ways.new.items }
{
    ways.push(way)?;
    Ok(())
}

// Adds the ways over arcs.
fn add_arcs(ways: &mut Vec<Way>, model: &Building, sizes: Sizes) -> Result<(), AllocError>
    requires nodes { sizes.nodes ≤ length model.now.nodes }
    requires arcs { sizes.arcs ≤ length model.now.arcs }
    requires ways { All (IsWayWithin sizes) ways.old.items }
    ensures { All (IsWayWithin sizes) ways.new.items }
{
    for row in 0..sizes.arcs {
        let arc = &model.arcs.as_slice()[row as usize];
        add_arc(ways, model, sizes, arc, row)?;
    }
    Ok(())
}

// Adds the ways over an arc: forwards, and that at the node where it begins.
fn add_arc(
    ways: &mut Vec<Way>,
    model: &Building,
    sizes: Sizes,
    arc: &ArcRow,
    row: u32,
) -> Result<(), AllocError>
    requires nodes { sizes.nodes ≤ length model.now.nodes }
    requires row { row < sizes.arcs }
    requires ways { All (IsWayWithin sizes) ways.old.items }
    ensures { All (IsWayWithin sizes) ways.new.items }
{
    if arc.from >= sizes.nodes || arc.to >= sizes.nodes {
        return Ok(());
    }
    let way = Way::forwards(sizes, arc.to, arc.from, row, arc.travel);
    add(ways, sizes, way)?;
    add(ways, sizes, outgoing(model, sizes, arc, row))
}

// The way over an arc at the node where it begins: an exit way where it leads into an exit, otherwise the way backwards.
fn outgoing(model: &Building, sizes: Sizes, arc: &ArcRow, row: u32) -> Way
    requires nodes { sizes.nodes ≤ length model.now.nodes }
    requires from { arc.now.from < sizes.nodes }
    requires to { arc.now.to < sizes.nodes }
    requires row { row < sizes.arcs }
    ensures { IsWayWithin sizes result }
{
    if is_exit(model, arc.to) {
        let list = sizes.exit_list(arc.from);
        return Way::forwards(sizes, list, arc.from, row, arc.travel);
    }
    Way::backwards(sizes, arc.from, arc.to, row, arc.travel)
}

// Adds the waits in each node, forwards and backwards. Where people come in the wait forwards goes first.
fn add_waits(ways: &mut Vec<Way>, model: &Building, sizes: Sizes) -> Result<(), AllocError>
    requires nodes { sizes.nodes ≤ length model.now.nodes }
    requires ways { All (IsWayWithin sizes) ways.old.items }
    ensures { All (IsWayWithin sizes) ways.new.items }
{
    for node in 0..sizes.nodes {
        let row = sizes.wait_row(node);
        let wait = Way::forwards(sizes, node, node, row, 1);
        let rank = if is_entered(model, node) {
            Rank::First
        } else {
            Rank::ByRow
        };
        add(ways, sizes, Way { rank, ..wait })?;
        add(ways, sizes, Way::backwards(sizes, node, node, row, 1))?;
    }
    Ok(())
}

// Whether people come into a node, at the first moment or later.
fn is_entered(model: &Building, node: u32) -> bool
    requires { node < length model.now.nodes }
{
    let entrants = model.entrants.as_slice();
    let first = entrants.partition_point(|entrant| entrant.node < node);
    model.nodes.as_slice()[node as usize].start > 0
        || first < entrants.len() && entrants[first].node == node
}

// Whether a node is an exit.
fn is_exit(model: &Building, node: u32) -> bool
    requires { node < length model.now.nodes }
{
    model.nodes.as_slice()[node as usize].name.kind.is_exit()
}
