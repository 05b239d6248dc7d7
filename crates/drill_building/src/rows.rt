//! The nodes and arcs of a drill's building.
ghost use Rattle.std.specs.Prelude.{◌≡◌, ◌≤◌, ◌++◌, IfOk, OnOk};
ghost use Rattle.drill_building.specs.Drill.{drill_arcs, drill_nodes, ground_nodes, node_name, room_start, stair_place, storey_arcs, storey_nodes};

use crate::limits::STOREY_LIMIT;
use evac_law::{ArcRow, Kind, NodeName, NodeRow};
use std::alloc::{AllocError, Global};

// The name of a node.
fn name(kind: Kind, number: u16, floor: u16) -> NodeName
    ensures { result ≡ node_name kind number floor }
{
    NodeName {
        kind,
        number,
        floor,
    }
}

// The lobby and the two exits.
fn ground_nodes() -> [NodeRow; 3]
    ensures { result ≡ ground_nodes }
{
    [
        NodeRow::new(name(Kind::Lobby, 1, 0), 40, 0),
        NodeRow::new(name(Kind::Exit, 1, 0), 0, 0),
        NodeRow::new(name(Kind::Exit, 2, 0), 0, 0),
    ]
}

// The people of a room.
fn room_start(storey: u16, room: u16) -> u32
    requires storey { storey ≤ STOREY_LIMIT }
    requires room { room ≤ 2 }
    ensures { result ≡ room_start storey room }
{
    10 + (7 * u32::from(storey) + 3 * u32::from(room)) % 11
}

// A storey's two rooms, its hall and its stairwell.
fn storey_nodes(storey: u16) -> [NodeRow; 4]
    requires { storey ≤ STOREY_LIMIT }
    ensures { result ≡ storey_nodes storey }
{
    [
        NodeRow::new(name(Kind::Work, 1, storey), 40, room_start(storey, 1)),
        NodeRow::new(name(Kind::Work, 2, storey), 40, room_start(storey, 2)),
        NodeRow::new(name(Kind::Hall, 1, storey), 30, 0),
        NodeRow::new(name(Kind::Stair, 1, storey), 12, 0),
    ]
}

/// The nodes of a building with a number of storeys.
pub(crate) fn drill_nodes(alloc: Global, storeys: u16) -> Result<Vec<NodeRow>, AllocError>
    requires { storeys ≤ STOREY_LIMIT }
    ensures { IfOk result (λ nodes. nodes.items ≡ drill_nodes storeys) }
{
    let mut nodes = Vec::from_slice(alloc, &ground_nodes())?;
    for storey in 1..storeys + 1 {
        nodes.extend_from_slice(&storey_nodes(storey))?;
    }
    Ok(nodes)
}

// The place of a storey's stairwell, and of the lobby for the ground.
fn stair_place(storey: u16) -> u32
    requires { storey ≤ STOREY_LIMIT }
    ensures { result ≡ stair_place storey }
{
    if storey == 0 {
        0
    } else {
        4 * u32::from(storey) + 2
    }
}

// From a storey's rooms to its hall, from there to its stairwell, and down.
fn storey_arcs(storey: u16) -> [ArcRow; 4]
    requires positive { 1 ≤ storey }
    requires few { storey ≤ STOREY_LIMIT }
    ensures { result ≡ storey_arcs storey }
{
    let first_room = 4 * u32::from(storey) - 1;
    let hall = first_room + 2;
    let stair = stair_place(storey);
    [
        ArcRow::new(first_room, hall, 1, 6),
        ArcRow::new(first_room + 1, hall, 1, 6),
        ArcRow::new(hall, stair, 1, 4),
        ArcRow::new(stair, stair_place(storey - 1), 2, 4),
    ]
}

// Puts a storey's arcs after others.
fn push_storey(arcs: &mut Vec<ArcRow>, storey: u16) -> Result<(), AllocError>
    requires positive { 1 ≤ storey }
    requires few { storey ≤ STOREY_LIMIT }
    ensures { OnOk result (arcs.new.items ≡ arcs.old.items ++ storey_arcs storey) }
{
    let [room, other, hall, stair] = storey_arcs(storey);
    arcs.push(room)?;
    arcs.push(other)?;
    arcs.push(hall)?;
    arcs.push(stair)?;
    Ok(())
}

/// The arcs of a building with a number of storeys.
pub(crate) fn drill_arcs(alloc: Global, storeys: u16) -> Result<Vec<ArcRow>, AllocError>
    requires { storeys ≤ STOREY_LIMIT }
    ensures { IfOk result (λ arcs. arcs.items ≡ drill_arcs storeys) }
{
    let mut arcs = Vec::new(alloc);
    arcs.push(ArcRow::new(0, 1, 1, 3))?;
    arcs.push(ArcRow::new(0, 2, 2, 2))?;
    for storey in 1..storeys + 1 {
        push_storey(&mut arcs, storey)?;
    }
    Ok(arcs)
}
