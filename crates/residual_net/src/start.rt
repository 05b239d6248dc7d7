//! How a net of a model begins: with no flow, and with the model's limits.
ghost use Rattle.std.specs.Prelude.{◌≡◌, ℕ, ◌++◌, ◌<◌, IfOk, MatchOption, map, replicate};
ghost use Rattle.evac_law.specs.Building.{IsValid};
ghost use Rattle.evac_law.specs.Names.{is_exit};
ghost use Rattle.residual_net.specs.Site.{IsPlace};
ghost use Rattle.residual_net.specs.OfModel.{model_limit, site_of};
ghost use Rattle.residual_net.specs.Start.{IsOpening, StartsAs, place_of, row_cells, rows_cells, start_cells};

use crate::grid::Grid;
use crate::place::{Cell, Place};
use evac_law::Model;
use std::alloc::{AllocError, Global};
use time_expansion::{Ends, Shape};

/// The kinds of places.
#[derive(Clone, Copy)]
pub enum Kind {
    Arc,
    Hold,
    Supply,
}

// The ends of the arcs.
fn ends_of(alloc: Global, model: &Model) -> Result<Vec<Ends>, AllocError>
    ensures { IfOk result (λ r. r.items ≡ map (λ a. record { from = a.from; to = a.to }) model.now.arcs) }
{
    let mut ends = Vec::new(alloc);
    for arc in model.arcs.as_slice() {
        ends.push(Ends {
            from: arc.from,
            to: arc.to,
        })?;
    }
    Ok(ends)
}

// Which nodes are exits.
fn exits_of(alloc: Global, model: &Model) -> Result<Vec<bool>, AllocError>
    ensures { IfOk result (λ r. r.items ≡ map (λ n. is_exit n.name.kind) model.now.nodes) }
{
    let mut exits = Vec::new(alloc);
    for node in model.nodes.as_slice() {
        exits.push(node.name.kind.is_exit())?;
    }
    Ok(exits)
}

// The traversal times of the arcs.
fn travels_of(alloc: Global, model: &Model) -> Result<Vec<u16>, AllocError>
    ensures { IfOk result (λ r. r.items ≡ map (λ a. a.travel) model.now.arcs) }
{
    let mut travels = Vec::new(alloc);
    for arc in model.arcs.as_slice() {
        travels.push(arc.travel)?;
    }
    Ok(travels)
}

/// The limit that a model gives a place.
pub fn limit_of(model: &Model, place: Place) -> u32
    requires valid { IsValid model.now }
    requires place { IsPlace (site_of model.now) place }
    ensures { result ≡ model_limit model.now place }
{
    match place {
        Place::Arc { arc, moment } => {
            if moment + model.arc(arc).travel > model.horizon {
                0
            } else {
                model.rate(arc, moment)
            }
        }
        Place::Hold { node, moment } => {
            if moment == model.horizon {
                0
            } else {
                model.node(node).capacity
            }
        }
        Place::Supply { node, moment } => model.entry(node, moment),
    }
}

/// The place of a kind with a number at a moment.
pub fn place_of(kind: Kind, number: u32, moment: u16) -> Place
    ensures { result ≡ place_of kind number moment }
{
    match kind {
        Kind::Arc => Place::Arc {
            arc: number,
            moment,
        },
        Kind::Hold => Place::Hold {
            node: number,
            moment,
        },
        Kind::Supply => Place::Supply {
            node: number,
            moment,
        },
    }
}

// The limit at the first moments of some places, and how many these are. At the later ones it is 0.
#[derive(Clone, Copy)]
struct Opening {
    moments: u16,
    limit: u32,
}

// The opening of the places of a kind with a number, where they have one: no window closes the arc, or nobody enters the building later.
#[tactic(auto, unfolding(evac_law::specs::Limits::horizon_limit))]
fn opening_of(model: &Model, kind: Kind, number: u32) -> Option<Opening>
    requires valid { IsValid model.now }
    requires number { IsPlace (site_of model.now) (place_of kind number 0) }
    ensures { MatchOption result (Unit {0}) (IsOpening model.now kind number) }
{
    match kind {
        Kind::Arc => {
            let row = model.arc(number);
            if !row.windows.is_empty() {
                return None;
            }
            let moments = (model.horizon + 1).saturating_sub(row.travel);
            let limit = model.rate(number, 0);
            Some(Opening { moments, limit })
        }
        Kind::Hold => {
            let moments = model.horizon;
            let limit = model.node(number).capacity;
            Some(Opening { moments, limit })
        }
        Kind::Supply => {
            if !model.entrants.is_empty() {
                return None;
            }
            let limit = model.entry(number, 0);
            Some(Opening { moments: 1, limit })
        }
    }
}

// Adds some cells with no flow and a limit.
fn add_cells(cells: &mut Vec<Cell>, count: u16, limit: u32) -> Result<(), AllocError>
    ensures { IfOk result (λ _. cells.new.items ≡ cells.old.items ++ replicate count (record { flow = 0; limit = limit })) }
{
    let len = cells.len() + count as usize;
    cells.resize(len, Cell { flow: 0, limit })
}

// Adds the cells of the places of a kind with a number, moment by moment.
fn add_moments(
    cells: &mut Vec<Cell>,
    model: &Model,
    kind: Kind,
    number: u32,
) -> Result<(), AllocError>
    requires valid { IsValid model.now }
    requires number { IsPlace (site_of model.now) (place_of kind number 0) }
    ensures { IfOk result (λ _. cells.new.items ≡ cells.old.items ++ row_cells model.now kind number) }
{
    for moment in 0..model.horizon + 1 {
        let limit = limit_of(model, place_of(kind, number, moment));
        cells.push(Cell { flow: 0, limit })?;
    }
    Ok(())
}

// Adds the cells of the places of a kind with a number, with no flow and the model's limits.
#[tactic(auto, unfolding(evac_law::specs::Limits::horizon_limit))]
fn add_row(cells: &mut Vec<Cell>, model: &Model, kind: Kind, number: u32) -> Result<(), AllocError>
    requires valid { IsValid model.now }
    requires number { IsPlace (site_of model.now) (place_of kind number 0) }
    ensures { IfOk result (λ _. cells.new.items ≡ cells.old.items ++ row_cells model.now kind number) }
{
    match opening_of(model, kind, number) {
        None => add_moments(cells, model, kind, number),
        Some(opening) => {
            add_cells(cells, opening.moments, opening.limit)?;
            add_cells(cells, model.horizon + 1 - opening.moments, 0)
        }
    }
}

// Adds the cells of the places of a kind.
fn add_rows(cells: &mut Vec<Cell>, model: &Model, kind: Kind, count: u32) -> Result<(), AllocError>
    requires valid { IsValid model.now }
    requires numbers { (n : ℕ) → n < count → IsPlace (site_of model.now) (place_of kind n 0) }
    ensures { IfOk result (λ _. cells.new.items ≡ cells.old.items ++ rows_cells model.now kind count) }
{
    for number in 0..count {
        add_row(cells, model, kind, number)?;
    }
    Ok(())
}

// The network of a model.
fn shape_of(alloc: Global, model: &Model) -> Result<Shape, AllocError>
    requires { IsValid model.now }
    ensures { IfOk result (λ s. s ≡ (site_of model.now).shape) }
{
    let ends = ends_of(alloc, model)?;
    let shape = Shape::new(alloc, model.node_count(), ends.as_slice(), model.horizon)?;
    Ok(shape)
}

// The cells of all places, with no flow and the model's limits.
fn cells_of(alloc: Global, model: &Model) -> Result<Vec<Cell>, AllocError>
    requires { IsValid model.now }
    ensures { IfOk result (λ cells. cells.items ≡ start_cells model.now) }
{
    let nodes = model.node_count();
    let arcs = model.arc_count();
    let rows = arcs as usize + 2 * nodes as usize;
    let mut cells = Vec::with_capacity(alloc, rows * (model.horizon as usize + 1))?;
    add_rows(&mut cells, model, Kind::Arc, arcs)?;
    add_rows(&mut cells, model, Kind::Hold, nodes)?;
    add_rows(&mut cells, model, Kind::Supply, nodes)?;
    Ok(cells)
}

/// The cells of a net with no flow and the limits of a model.
pub fn grid_of(alloc: Global, model: &Model) -> Result<Grid, AllocError>
    requires { IsValid model.now }
    ensures { IfOk result (StartsAs model.now) }
{
    let exits = exits_of(alloc, model)?;
    let travels = travels_of(alloc, model)?;
    let cells = cells_of(alloc, model)?;
    let shape = shape_of(alloc, model)?;
    let grid = Grid::new(alloc, shape, exits, travels, cells)?;
    Ok(grid)
}
