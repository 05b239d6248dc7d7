//! The building of a drill.
ghost use Rattle.std.specs.Prelude.{◌≡◌, ◌≤◌, ◌+◌, IfOk, codes, map};
ghost use Rattle.evac_law.specs.Building.{IsValid};
ghost use Rattle.evac_law.specs.Sums.{below};
ghost use Rattle.building_table.specs.Built.{IsBuilding};
ghost use Rattle.building_table.specs.Names.{NamesFit};
ghost use Rattle.drill_building.specs.Drill.{drill_building};

use crate::limits::STOREY_LIMIT;
use crate::rows::{drill_arcs, drill_nodes};
use building_table::{Building, Names};
use evac_law::{Model, Rows};
use std::alloc::{AllocError, Global};

// The numbers of some floors from 0 on.
fn floor_numbers(alloc: Global, count: u16) -> Result<Vec<u16>, AllocError>
    ensures { IfOk result (λ floors. floors.items ≡ below count) }
{
    let mut floors = Vec::new(alloc);
    for floor in 0..count {
        floors.push(floor)?;
    }
    Ok(floors)
}

// The texts of so many floors.
fn floor_texts(alloc: Global, count: u16) -> Result<Vec<Vec<u8>>, AllocError>
    ensures { IfOk result (λ texts. map (λ t. t.items) texts.items ≡ map (λ f. codes "storey") (below count)) }
{
    let mut texts = Vec::new(alloc);
    for _ in 0..count {
        texts.push(Vec::from_slice(alloc, b"storey")?)?;
    }
    Ok(texts)
}

/// The building of a drill with so many storeys, from 1 on.
pub fn drill_model(alloc: Global, number: u32) -> Result<Building, AllocError>
    requires { number ≤ STOREY_LIMIT }
    ensures building { IfOk result (λ b. IsBuilding b (drill_building number)) }
    ensures valid { IfOk result (λ b. IsValid b.model) }
    ensures names { IfOk result (λ b. NamesFit b.names b.model) }
{
    let storeys = number as u16;
    let nodes = drill_nodes(alloc, storeys)?;
    let arcs = drill_arcs(alloc, storeys)?;
    let floors = floor_numbers(alloc, storeys + 1)?;
    let texts = floor_texts(alloc, storeys + 1)?;
    let model = Model {
        seconds: 5,
        horizon: 600,
        nodes: Rows::new(nodes),
        arcs: Rows::new(arcs),
        entrants: Rows::new(Vec::new(alloc)),
    };
    let names = Names::new(alloc, &model, floors, texts, None)?;
    Ok(Building { model, names })
}
