//! The cells of a net, with no rule on its flow.
ghost use Rattle.std.specs.Prelude.{◌≡◌, ◌∷◌, [], ◌≤◌, ◌<◌, ◌+◌, ◌-◌, ◌↔◌, IfOk, IsTrue, length, map, true, vec_capacity};
ghost use Rattle.std.specs.List.{All};
ghost use Rattle.residual_net.specs.Site.{IsSite, IsPlace, all_cells, arrival_at, cell_of, exit_at, head_of, start_of, stop_of, tail_of};
ghost use Rattle.residual_net.specs.Network.{IsGrid, flow_at, limit_at, residual_room, saved_of, step_over, with_cell, with_saved};
ghost use Rattle.residual_net.specs.Legs.{IsShiftable, steps_of_leg, waits_at, waits_to, with_more};
ghost use Rattle.residual_net.specs.Route.{IsPushed};
ghost use Rattle.residual_net.specs.Change.{IsLimitSet};
ghost use Rattle.residual_net.specs.Start.{emptied};
ghost use Rattle.residual_net.specs.declared.place.Place.TheVariants.{Arc, Hold};

use crate::end::End;
use crate::place::{Cell, PathStep, Place, Transit};
use crate::saved::{save_cells, write_saved};
use std::alloc::{AllocError, Global};
use std::marker::Model;
use time_expansion::Shape;

/// The network of a net, a cell for each of its places, and the cells that were saved.
///
/// Until cells are saved or a limit changes, what is saved is the limits with no flow, and the memory for it isn't touched.
#[derive(Drop)]
pub struct Grid {
    shape: Shape,
    exits: Vec<bool>,
    travels: Vec<u16>,
    cells: Vec<Cell>,
    saved: Vec<Cell>,
    is_saved: bool,
}

impl Model for Grid {
    ghost use Rattle.std.specs.Prelude.{◌≤◌, length, vec_capacity};
    ghost use Rattle.residual_net.specs.Network.{IsGrid, Network};
    ghost use Rattle.residual_net.specs.Start.{saved_cells};

    ghost Value = { Network };

    ghost view = { λ g. record { site = record { shape = g.shape; exits = g.exits.items; travels = g.travels.items }; cells = g.cells.items; saved = saved_cells g.is_saved g.cells.items g.saved.items } };

    ghost invariant = { λ g. IsGrid (record { site = record { shape = g.shape; exits = g.exits.items; travels = g.travels.items }; cells = g.cells.items; saved = saved_cells g.is_saved g.cells.items g.saved.items }) × (length g.cells.items ≤ vec_capacity g.saved) };
}

// The flow of a cell with more people over its place.
fn flow_with(cell: Cell, people: u32) -> u32
    requires { people ≤ cell.limit - cell.flow }
    ensures { result ≡ cell.flow + people }
{
    cell.flow + people
}

// Sends more people over each of some cells.
fn raise_all(cells: &mut [Cell], people: u32)
    requires { All (λ c. people ≤ c.limit - c.flow) cells.old }
    ensures { cells.new ≡ map (with_more people) cells.old }
{
    for cell in cells.iter_mut() {
        cell.flow = flow_with(*cell, people);
    }
}

impl Grid {
    /// The cells of a network, of which nothing is saved yet.
    pub fn new(
        alloc: Global,
        shape: Shape,
        exits: Vec<bool>,
        travels: Vec<u16>,
        cells: Vec<Cell>,
    ) -> Result<Grid, AllocError>
        requires site { IsSite (record { shape = shape; exits = exits.items; travels = travels.items }) }
        requires full { length cells.items ≡ all_cells (record { shape = shape; exits = exits.items; travels = travels.items }) }
        ensures { IfOk result (λ g. g ≡ record { site = record { shape = shape; exits = exits.items; travels = travels.items }; cells = cells.items; saved = emptied cells.items }) }
    {
        let saved = Vec::with_capacity(alloc, cells.len())?;
        Ok(Grid {
            shape,
            exits,
            travels,
            cells,
            saved,
            is_saved: false,
        })
    }

    /// The network's cells and arcs.
    pub fn shape(&self) -> &Shape
        ensures shape { result.now ≡ self.now.site.shape }
        ensures grid { IsGrid self.now }
    {
        &self.shape
    }

    /// The cells of all places.
    pub fn cells(&self) -> &[Cell]
        ensures { result.now ≡ self.now.cells }
    {
        &self.cells
    }

    /// Whether a node is an exit.
    pub fn is_exit(&self, node: u32) -> bool
        requires { node < self.now.site.shape.nodes }
        ensures { result ≡ exit_at self.now.site node }
    {
        self.exits[node as usize]
    }

    /// The traversal time of an arc.
    pub fn travel(&self, arc: u32) -> u16
        requires { arc < length self.now.site.shape.ends }
        ensures travel { arrival_at self.now.site arc 0 ≡ result }
        ensures grid { IsGrid self.now }
    {
        self.travels[arc as usize]
    }

    /// When people arrive who enter an arc at a moment.
    pub fn arrives(&self, arc: u32, moment: u16) -> u16
        requires { IsPlace self.now.site (Arc arc moment) }
        ensures { result ≡ arrival_at self.now.site arc moment }
    {
        moment + self.travel(arc)
    }

    // The number of the cell of a place.
    #[tactic(auto, using(crate::proofs::Steps::cell_in), unfolding(crate::specs::Site::cell_of))]
    fn cell_number(&self, place: Place) -> usize
        requires { IsPlace self.now.site place }
        ensures cell { result ≡ cell_of self.now.site place }
        ensures within { result < length self.now.cells }
    {
        match place {
            Place::Arc { arc, moment } => self.shape.arc_cell(arc, moment) as usize,
            Place::Hold { node, moment } => self.shape.hold_cell(node, moment) as usize,
            Place::Supply { node, moment } => {
                self.shape.cells() as usize
                    + (node as usize * (self.shape.horizon() as usize + 1) + moment as usize)
            }
        }
    }

    /// The flow and the limit at a place.
    #[tactic(auto, unfolding(crate::specs::Network::flow_at, crate::specs::Network::limit_at))]
    pub fn get(&self, place: Place) -> Cell
        requires { IsPlace self.now.site place }
        ensures flow { result.flow ≡ flow_at self.now place }
        ensures limit { result.limit ≡ limit_at self.now place }
        ensures grid { IsGrid self.now }
    {
        self.cells[self.cell_number(place)]
    }

    // Gives a place another flow.
    fn put(&mut self, place: Place, flow: u32)
        requires { IsPlace self.old.site place }
        ensures put { self.new ≡ with_cell self.old place (record { flow = flow; limit = limit_at self.old place }) }
        ensures grid { IsGrid self.new }
    {
        let at = self.cell_number(place);
        self.cells[at].flow = flow;
    }

    /// Sends people over a step.
    pub fn shift(&mut self, step: PathStep, people: u32)
        requires place { IsPlace self.old.site step.place }
        requires room { people ≤ residual_room self.old step }
        ensures pushed { IsPushed self.old self.new (step ∷ []) people }
        ensures grid { IsGrid self.new }
    {
        let old = self.get(step.place).flow;
        let flow = if step.back {
            old - people
        } else {
            old + people
        };
        self.put(step.place, flow);
    }

    // Lets more people wait in a node, at each moment from one up to another.
    fn shift_waits(&mut self, node: u32, from: u16, to: u16, people: u32)
        requires grid { IsGrid self.old }
        requires shiftable { IsShiftable self.old (waits_at node from (to - from)) people }
        ensures pushed { IsPushed self.old self.new (waits_at node from (to - from)) people }
        ensures grid { IsGrid self.new }
    {
        if to <= from {
            return;
        }
        let first = self.shape.hold_cell(node, 0) as usize;
        let cells = self.cells.as_mut_slice();
        let waits = &mut cells[first + from as usize..first + to as usize];
        raise_all(waits, people);
    }

    // Sends people over a place forwards.
    fn raise(&mut self, place: Place, people: u32)
        requires place { IsPlace self.old.site place }
        requires room { people ≤ residual_room self.old (step_over place) }
        ensures pushed { IsPushed self.old self.new (step_over place ∷ []) people }
        ensures grid { IsGrid self.new }
    {
        let flow = self.get(place).flow + people;
        self.put(place, flow);
    }

    /// Sends people over an arc, and lets them wait before in the node at which it begins, at each moment since one.
    pub fn shift_arc(&mut self, arc: u32, moment: u16, since: u16, people: u32)
        requires grid { IsGrid self.old }
        requires shiftable { IsShiftable self.old (steps_of_leg self.old.site (record { since = since; step = step_over (Arc arc moment) })) people }
        ensures pushed { IsPushed self.old self.new (steps_of_leg self.old.site (record { since = since; step = step_over (Arc arc moment) })) people }
        ensures grid { IsGrid self.new }
    {
        let node = self.shape().ends()[arc as usize].from;
        self.shift_waits(node, since, moment, people);
        self.raise(Place::Arc { arc, moment }, people);
    }

    /// Sends people back over a wait, and lets them wait before in its node, at each moment since one.
    pub fn shift_wait_back(&mut self, node: u32, moment: u16, since: u16, people: u32)
        requires grid { IsGrid self.old }
        requires shiftable { IsShiftable self.old (steps_of_leg self.old.site (record { since = since; step = record { place = Hold node moment; back = true } })) people }
        ensures pushed { IsPushed self.old self.new (steps_of_leg self.old.site (record { since = since; step = record { place = Hold node moment; back = true } })) people }
        ensures grid { IsGrid self.new }
    {
        self.shift_waits(node, since, moment + 1, people);
        let place = Place::Hold { node, moment };
        self.shift(PathStep { place, back: true }, people);
    }

    /// Lets more people wait in the node at which a step starts, at each moment since one up to that of the step.
    pub fn shift_waits_to(&mut self, step: PathStep, since: u16, people: u32)
        requires grid { IsGrid self.old }
        requires place { IsPlace self.old.site step.place }
        requires shiftable { IsShiftable self.old (waits_to (start_of self.old.site step) since) people }
        ensures pushed { IsPushed self.old self.new (waits_to (start_of self.old.site step) since) people }
        ensures grid { IsGrid self.new }
    {
        match self.start(step) {
            End::Pair { node, moment } => self.shift_waits(node, since, moment, people),
            End::Source => {}
            End::Door(_) => {}
        }
    }

    /// Gives a place another limit.
    pub fn set_limit(&mut self, place: Place, limit: u32)
        requires { IsPlace self.old.site place }
        ensures set { IsLimitSet self.old self.new place limit }
        ensures grid { IsGrid self.new }
    {
        let flow = self.get(place).flow;
        let at = self.cell_number(place);
        write_saved(&mut self.saved, self.cells.as_slice(), self.is_saved);
        self.is_saved = true;
        self.cells[at] = Cell { flow, limit };
    }

    /// Saves the cells.
    pub fn save(&mut self)
        ensures { self.new ≡ with_saved self.old }
    {
        save_cells(&mut self.saved, &self.cells);
        self.is_saved = true;
    }

    /// The cells that were saved, if any were.
    pub fn saved(&self) -> &[Cell] {
        self.saved.as_slice()
    }

    /// Gives back the cells that were saved.
    pub fn restore(&mut self)
        ensures { self.new ≡ saved_of self.old }
    {
        write_saved(&mut self.saved, &self.cells, self.is_saved);
        self.is_saved = true;
        self.cells.as_mut_slice().copy_from_slice(&self.saved);
    }

    /// Where a place leads from.
    pub fn tail(&self, place: Place) -> End
        requires { IsPlace self.now.site place }
        ensures { result ≡ tail_of self.now.site place }
    {
        match place {
            Place::Arc { arc, moment } => {
                let node = self.shape().ends()[arc as usize].from;
                End::Pair { node, moment }
            }
            Place::Hold { node, moment } => End::Pair { node, moment },
            Place::Supply { .. } => End::Source,
        }
    }

    /// Where a place leads to.
    pub fn head(&self, place: Place) -> End
        requires { IsPlace self.now.site place }
        ensures { result ≡ head_of self.now.site place }
    {
        // The network's sizes bound the moments.
        let shape = self.shape();
        match place {
            Place::Arc { arc, moment } => {
                let node = shape.ends()[arc as usize].to;
                let moment = self.arrives(arc, moment);
                if self.is_exit(node) {
                    End::Door(moment)
                } else {
                    End::Pair { node, moment }
                }
            }
            Place::Hold { node, moment } => {
                let moment = moment + 1;
                End::Pair { node, moment }
            }
            Place::Supply { node, moment } => End::Pair { node, moment },
        }
    }

    /// Where a step starts.
    pub fn start(&self, step: PathStep) -> End
        requires { IsPlace self.now.site step.place }
        ensures { result ≡ start_of self.now.site step }
    {
        if step.back {
            self.head(step.place)
        } else {
            self.tail(step.place)
        }
    }

    /// Where a step stops.
    pub fn stop(&self, step: PathStep) -> End
        requires { IsPlace self.now.site step.place }
        ensures { result ≡ stop_of self.now.site step }
    {
        if step.back {
            self.tail(step.place)
        } else {
            self.head(step.place)
        }
    }

    /// Whether a place is one of the network's.
    pub fn has(&self, place: Place) -> bool
        ensures { IsTrue result ↔ IsPlace self.now.site place }
    {
        let shape = self.shape();
        match place {
            Place::Arc { arc, moment } => {
                (arc as usize) < shape.ends().len() && moment <= shape.horizon()
            }
            Place::Hold { node, moment } | Place::Supply { node, moment } => {
                node < shape.nodes() && moment <= shape.horizon()
            }
        }
    }

    /// Where a step starts and stops, and how many may go over it.
    pub fn transit(&self, step: PathStep) -> Transit
        requires place { IsPlace self.now.site step.place }
        requires within { flow_at self.now step.place ≤ limit_at self.now step.place }
        ensures start { result.start ≡ start_of self.now.site step }
        ensures stop { result.stop ≡ stop_of self.now.site step }
        ensures room { result.room ≡ residual_room self.now step }
    {
        let tail = self.tail(step.place);
        let head = self.head(step.place);
        let cell = self.get(step.place);
        if step.back {
            Transit {
                start: head,
                stop: tail,
                room: cell.flow,
            }
        } else {
            Transit {
                start: tail,
                stop: head,
                room: cell.limit - cell.flow,
            }
        }
    }
}
