//! A flow path through a place: back to its supply, and on to its arrival.
ghost use Rattle.std.specs.Prelude.{◌≡◌, ℕ, ◌+◌, ◌<◌, ◌≤◌};
ghost use Rattle.std.specs.List.{Any};
ghost use Rattle.residual_net.specs.Site.{IsOpenPair, IsPlace, at, head_of, tail_of};
ghost use Rattle.residual_net.specs.declared.end.End.TheVariants.{Door, Pair, Source};
ghost use Rattle.residual_net.specs.Network.{IsGrid, IsNet, flow_at, flow_into, flow_out};
ghost use Rattle.residual_net.specs.Change.{IsArcInto, IsLeastAlong, IsTakeable, IsTaken, IsWalk};

use crate::end::End;
use crate::grid::Grid;
use crate::path::Path;
use crate::place::{PathStep, Place};

// An arc with flow that leads into a node at a moment.
fn arc_into(grid: &Grid, node: u32, moment: u16) -> Option<Place>
    requires pair { IsOpenPair grid.now.site node moment }
    ensures { IsArcInto grid.now node moment result }
{
    let arcs = grid.shape().entering(node);
    for arc in arcs {
        let travel = grid.travel(*arc);
        if travel <= moment {
            let place = Place::Arc {
                arc: *arc,
                moment: moment - travel,
            };
            if grid.get(place).flow > 0 {
                return Some(place);
            }
        }
    }
    None
}

// A hold or a supply with flow that leads into a node at a moment, where no arc with flow does.
fn rest_into(grid: &Grid, node: u32, moment: u16) -> Place
    requires pair { IsOpenPair grid.now.site node moment }
    requires no_arc { IsArcInto grid.now node moment None }
    requires some { 0 < flow_into grid.now (at (Pair node moment)) }
    ensures place { IsPlace grid.now.site result }
    ensures leads { head_of grid.now.site result ≡ Pair node moment }
    ensures some { 0 < flow_at grid.now result }
{
    if moment > 0 {
        let place = Place::Hold {
            node,
            moment: moment - 1,
        };
        if grid.get(place).flow > 0 {
            return place;
        }
    }
    Place::Supply { node, moment }
}

// A place with flow that leads into a node at a moment.
fn place_into(grid: &Grid, node: u32, moment: u16) -> Place
    requires pair { IsOpenPair grid.now.site node moment }
    requires some { 0 < flow_into grid.now (at (Pair node moment)) }
    ensures place { IsPlace grid.now.site result }
    ensures leads { head_of grid.now.site result ≡ Pair node moment }
    ensures some { 0 < flow_at grid.now result }
{
    match arc_into(grid, node, moment) {
        Some(place) => place,
        None => rest_into(grid, node, moment),
    }
}

// A place with flow that leads out of a node at a moment: the hold where it has flow, so that those who leave last are taken off.
fn place_out(grid: &Grid, node: u32, moment: u16) -> Place
    requires pair { IsOpenPair grid.now.site node moment }
    requires some { 0 < flow_out grid.now (at (Pair node moment)) }
    ensures place { IsPlace grid.now.site result }
    ensures leads { tail_of grid.now.site result ≡ Pair node moment }
    ensures some { 0 < flow_at grid.now result }
{
    let hold = Place::Hold { node, moment };
    if grid.get(hold).flow > 0 {
        return hold;
    }
    let arcs = grid.shape().leaving(node);
    for arc in arcs {
        let place = Place::Arc { arc: *arc, moment };
        if grid.get(place).flow > 0 {
            return place;
        }
    }
    hold
}

// Fills a path with the steps from a supply to a place, along flow. The least of a number and the flows along it is the answer.
fn walk_back(grid: &Grid, place: Place, most: u32, path: &mut Path) -> u32
    requires net { IsNet grid.now }
    requires place { IsPlace grid.now.site place }
    requires flow { 0 < flow_at grid.now place }
    requires some { 0 < most }
    requires room { grid.now.site.shape.horizon + 2 ≤ path.old.room }
    ensures walk { IsWalk grid.now place path.new.steps Source (head_of grid.now.site place) }
    ensures people { IsLeastAlong grid.now path.new.steps most result }
    ensures room { path.new.room ≡ path.old.room }
{
    path.clear();
    path.add(PathStep { place, back: false });
    let mut people = most.min(grid.get(place).flow);
    let mut here = place;
    while let End::Pair { node, moment } = grid.tail(here) {
        here = place_into(grid, node, moment);
        people = people.min(grid.get(here).flow);
        path.add(PathStep {
            place: here,
            back: false,
        });
    }
    path.turn();
    people
}

// Adds to a path the steps from a place to an arrival, along flow. The least of a number and the flows along these is the answer.
fn walk_on(grid: &Grid, place: Place, most: u32, path: &mut Path) -> u32
    requires net { IsNet grid.now }
    requires place { IsPlace grid.now.site place }
    requires flow { 0 < flow_at grid.now place }
    requires walk { IsWalk grid.now place path.old.steps Source (head_of grid.now.site place) }
    requires people { IsLeastAlong grid.now path.old.steps most most }
    requires room { grid.now.site.shape.horizon + 2 ≤ path.old.room }
    ensures walk { (k : ℕ) × IsWalk grid.now place path.new.steps Source (Door k) }
    ensures people { IsLeastAlong grid.now path.new.steps most result }
    ensures room { path.new.room ≡ path.old.room }
{
    let mut people = most;
    let mut here = place;
    while let End::Pair { node, moment } = grid.head(here) {
        here = place_out(grid, node, moment);
        people = people.min(grid.get(here).flow);
        path.add(PathStep {
            place: here,
            back: false,
        });
    }
    people
}

/// Fills a path with a flow path through a place, and finds the least of a number and the flows along it.
pub fn find_path(grid: &Grid, place: Place, most: u32, path: &mut Path) -> u32
    requires net { IsNet grid.now }
    requires place { IsPlace grid.now.site place }
    requires flow { 0 < flow_at grid.now place }
    requires some { 0 < most }
    requires room { grid.now.site.shape.horizon + 2 ≤ path.old.room }
    ensures takeable { IsTakeable grid.now path.new.steps result }
    ensures most { result ≤ most }
    ensures through { Any (λ x. x.place ≡ place) path.new.steps }
    ensures room { path.new.room ≡ path.old.room }
{
    let people = walk_back(grid, place, most, path);
    walk_on(grid, place, people, path)
}

/// Takes people off each place of a path.
pub fn take_all(grid: &mut Grid, path: &[PathStep], people: u32)
    requires grid { IsGrid grid.old }
    requires path { IsTakeable grid.old path.now people }
    ensures taken { IsTaken grid.old grid.new path.now people }
    ensures grid { IsGrid grid.new }
{
    for step in path {
        let back = PathStep {
            place: step.place,
            back: true,
        };
        grid.shift(back, people);
    }
}
