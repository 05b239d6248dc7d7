//! Cells by their numbers.
ghost use Rattle.std.specs.Prelude.{◌≡◌, ◌-◌, ◌<◌, ◌≤◌, ◌↔◌, false, IsTrue, drop, length, slice_index_or, take};
ghost use Rattle.std.specs.List.{All};
ghost use Rattle.residual_net.specs.Network.{no_cell};
ghost use Rattle.residual_net.specs.Site.{Site, cell_of};
ghost use Rattle.residual_net.specs.declared.place.Place.TheVariants.{Supply};
ghost use Rattle.residual_ways.specs.Layout.{AreSizesOf};
ghost use Rattle.residual_ways.specs.Rooms.{AreAllSent, flow_with, room_of, room_over, with_sent};
ghost use Rattle.residual_ways.specs.Steps.{IsPair};

use crate::sizes::Sizes;
use crate::step::Step;
use residual_net::Cell;

/// How many more people may enter a cell.
pub fn room_in(cell: Cell) -> u32
    ensures { result ≡ room_over cell false }
{
    cell.limit.saturating_sub(cell.flow)
}

// How many more people may go over a cell, forwards or backwards.
fn room_over(cell: Cell, back: bool) -> u32
    ensures { result ≡ room_over cell back }
{
    if back { cell.flow } else { room_in(cell) }
}

/// How many more people may go over a step.
pub fn room(cells: &[Cell], step: Step) -> u32
    requires { step.cell < length cells.now }
    ensures { result ≡ room_of cells.now step }
{
    room_over(cells[step.cell as usize], step.back)
}

/// Whether somebody may go over a step.
pub fn is_open(cells: &[Cell], step: Step) -> bool
    requires { step.cell < length cells.now }
    ensures { IsTrue result ↔ (0 < room_of cells.now step) }
{
    room(cells, step) > 0
}

// The flow over a cell once so many more people go over it.
fn flow_with(cell: Cell, back: bool, people: u32) -> u32
    ensures { people ≤ room_over cell back → result ≡ flow_with cell back people }
{
    if back {
        cell.flow.saturating_sub(people)
    } else {
        cell.flow.saturating_add(people)
    }
}

/// Sends people over a step.
pub fn send(cells: &mut [Cell], step: Step, people: u32)
    requires { step.cell < length cells.old }
    ensures { people ≤ room_of cells.old step → cells.new ≡ with_sent cells.old step people }
{
    let here = &mut cells[step.cell as usize];
    here.flow = flow_with(*here, step.back, people);
}

/// How many people who come into a node at a moment aren't sent yet.
pub fn unsent(cells: &[Cell], sizes: Sizes, node: u32, moment: u32) -> u32
    requires cells { length cells.now ≡ sizes.cells }
    requires pair { IsPair sizes node moment }
    ensures { (site : Site) → AreSizesOf site sizes → result ≡ room_over (slice_index_or cells.now (cell_of site (Supply node moment)) no_cell) false }
{
    let supply = sizes.supply(sizes.pair(node, moment));
    room_in(cells[supply as usize])
}

/// The cells of the people who come into a node.
pub fn supplies_of(cells: &[Cell], sizes: Sizes, node: u32) -> &[Cell]
    requires cells { length cells.now ≡ sizes.cells }
    requires node { node < sizes.nodes }
    ensures length { length result.now ≡ sizes.moments }
    ensures supplies { (site : Site) → AreSizesOf site sizes → result.now ≡ take sizes.moments (drop (cell_of site (Supply node 0)) cells.now) }
{
    let first = sizes.supply(sizes.first_pair(node)) as usize;
    &cells[first..first + sizes.moments as usize]
}

// The cells of the people who come in.
fn supplies(cells: &[Cell], sizes: Sizes) -> &[Cell]
    requires { length cells.now ≡ sizes.cells }
    ensures { result.now ≡ drop (sizes.cells - sizes.pairs) cells.now }
{
    &cells[sizes.supply(0) as usize..]
}

/// How many people are sent. The people of a building fit into a `u32`, so the sum doesn't wrap.
pub fn count_sent(cells: &[Cell], sizes: Sizes) -> u32
    requires { length cells.now ≡ sizes.cells }
{
    supplies(cells, sizes)
        .iter()
        .fold(0u32, |people, cell| people.wrapping_add(cell.flow))
}

// Whether all who come in over some cells are sent. Nothing is skipped after a first that isn't full, so that a processor compares several
// at once.
fn are_sent(cells: &[Cell]) -> bool
    ensures { IsTrue result ↔ All (λ cell. cell.limit ≤ cell.flow) cells.now }
{
    let mut sent = true;
    for cell in cells {
        sent &= cell.flow >= cell.limit;
    }
    sent
}

/// Whether people come in and all of them are sent. It is looked at node by node, up to the first that still has people.
pub fn is_all_sent(cells: &[Cell], sizes: Sizes) -> bool
    requires { length cells.now ≡ sizes.cells }
    ensures { IsTrue result ↔ AreAllSent (drop (sizes.cells - sizes.pairs) cells.now) }
{
    let supplies = supplies(cells, sizes);
    for row in supplies.chunks(sizes.moments as usize) {
        if !are_sent(row) {
            return false;
        }
    }
    supplies.iter().any(|cell| cell.limit > 0)
}
