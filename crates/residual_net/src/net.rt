//! A net: its flow keeps conservation.
ghost use Rattle.std.specs.Prelude.{◌≡◌, ℕ, ◌+◌, ◌-◌, ◌<◌, ◌≤◌, ◌↔◌, IfOk, IsFalse, IsTrue, MatchOption, length, slice_index};
ghost use Rattle.evac_law.specs.Building.{IsValid};
ghost use Rattle.residual_net.specs.Limits.{supply_limit};
ghost use Rattle.residual_net.specs.Site.{IsOpenEnd, IsPlace, arrival_at, exit_at, head_of, is_barred, start_of, stop_of, tail_of};
ghost use Rattle.residual_net.specs.Network.{IsAllSent, IsGrid, IsLeading, IsNet, IsStored, IsTransit, IsWithinLimits, arrived_by, excess_at, flow_at, limit_at, residual_room, saved_of, unsent_at, with_saved};
ghost use Rattle.residual_net.specs.Route.{IsPushable, IsPushed};
ghost use Rattle.residual_net.specs.Legs.{IsShiftable, IsUnderwayBetween, steps_of_leg, steps_of_legs};
ghost use Rattle.residual_net.specs.Change.{IsCancelled, IsFewerBy, IsLimitSet, IsLowering, supply_limits_with};
ghost use Rattle.residual_net.specs.OfModel.{IsNetOf, last_move, plan_of};
ghost use Rattle.residual_net.specs.declared.end.End.TheVariants.{Door};
ghost use Rattle.residual_net.specs.declared.place.Place.{Place};
ghost use Rattle.residual_net.specs.declared.place.Place.TheVariants.{Arc, Hold, Supply};

use crate::cancel::{find_path, take_all};
use crate::end::End;
use crate::grid::Grid;
use crate::leads::leads;
use crate::legs::Leg;
use crate::path::Path;
use crate::place::{Cell, PathStep, Place, Transit};
use crate::standing::last_some;
use crate::start::grid_of;
use evac_law::Steps;
use std::alloc::{AllocError, Global};
use std::marker::Model;
use std::sync::ledger::Ledger;
use time_expansion::Shape;

/// A flow over time with its limits, and what was saved of it.
///
/// The arrivals at each moment and the limits of all supplies together are kept beside the cells.
pub struct Net {
    grid: Grid,
    arrivals: Vec<u32>,
    saved_arrivals: Vec<u32>,
    supplies: u32,
    saved_supplies: u32,
}

// Written out, since a derived drop is laid out part by part in each function that lets one go.
impl Drop for Net {
    fn drop(self) {
        let Net {
            grid: _,
            arrivals: _,
            saved_arrivals: _,
            supplies: _,
            saved_supplies: _,
        } = self;
    }
}

impl Model for Net {
    ghost use Rattle.residual_net.specs.Network.{IsKept, Network};

    ghost Value = { Network };

    ghost view = { λ n. n.grid };

    ghost invariant = { λ n. IsKept n.grid n.arrivals.items n.saved_arrivals.items n.supplies n.saved_supplies };
}

// Sends people over each step in turn.
fn shift_all(grid: &mut Grid, path: &[PathStep], people: u32)
    requires path { IsPushable grid.old path.now people }
    requires net { IsNet grid.old }
    requires grid { IsGrid grid.old }
    requires within { IsWithinLimits grid.old }
    ensures pushed { IsPushed grid.old grid.new path.now people }
    ensures within { IsWithinLimits grid.new }
    ensures grid { IsGrid grid.new }
{
    for step in path {
        grid.shift(*step, people);
    }
}

// Sends people over a leg. Most legs end with a move, or with a wait that is taken back: these have calls of their own, which is quicker.
fn shift_leg(grid: &mut Grid, leg: Leg, people: u32)
    requires grid { IsGrid grid.old }
    requires shiftable { IsShiftable grid.old (steps_of_leg grid.old.site leg) people }
    ensures pushed { IsPushed grid.old grid.new (steps_of_leg grid.old.site leg) people }
    ensures grid { IsGrid grid.new }
{
    if leg.step.back {
        if let Place::Hold { node, moment } = leg.step.place {
            grid.shift_wait_back(node, moment, leg.since, people);
            return;
        }
    } else {
        if let Place::Arc { arc, moment } = leg.step.place {
            grid.shift_arc(arc, moment, leg.since, people);
            return;
        }
    }
    grid.shift_waits_to(leg.step, leg.since, people);
    grid.shift(leg.step, people);
}

// Sends people over each leg in turn.
fn shift_legs(grid: &mut Grid, legs: &[Leg], people: u32)
    requires grid { IsGrid grid.old }
    requires shiftable { IsShiftable grid.old (steps_of_legs grid.old.site legs.now) people }
    ensures pushed { IsPushed grid.old grid.new (steps_of_legs grid.old.site legs.now) people }
    ensures grid { IsGrid grid.new }
{
    for leg in legs {
        shift_leg(grid, *leg, people);
    }
}

// Counts people no more at an end, where it is an arrival.
fn lower(arrivals: &mut [u32], end: End, people: u32)
    requires { (j : ℕ) → end ≡ Door j → (j < length arrivals.old) × (people ≤ slice_index arrivals.old j) }
    ensures { IsFewerBy arrivals.new arrivals.old end people }
{
    if let End::Door(moment) = end {
        arrivals[moment as usize] -= people;
    }
}

// Counts people at an end, where it is an arrival.
#[tactic(auto, unfolding(crate::specs::Limits::supply_limit))]
fn raise(arrivals: &mut [u32], end: End, people: u32)
    requires { (j : ℕ) → end ≡ Door j → (j < length arrivals.old) × (slice_index arrivals.old j + people ≤ supply_limit) }
    ensures { IsFewerBy arrivals.old arrivals.new end people }
{
    if let End::Door(moment) = end {
        arrivals[moment as usize] += people;
    }
}

// Counts the people of a push where the path arrives, and no more where it begins.
fn move_arrivals(arrivals: &mut [u32], grid: &Grid, first: PathStep, last: PathStep, people: u32)
    requires some { 1 ≤ people }
    requires underway { IsUnderwayBetween grid.now arrivals.old first last people }
    ensures { IsStored grid.now arrivals.new }
{
    let from = grid.start(first);
    let to = grid.head(last.place);
    lower(arrivals, from, people);
    raise(arrivals, to, people);
}

// Counts the people who were taken off a path no more where it arrives.
fn lower_arrivals(arrivals: &mut [u32], grid: &Grid, path: &[PathStep], people: u32)
    requires { IsLowering grid.now arrivals.old path.now people }
    ensures { IsStored grid.now arrivals.new }
{
    let last = path[path.len() - 1];
    let from = grid.head(last.place);
    lower(arrivals, from, people);
}

impl Net {
    /// A net of a model, with no flow and with the limits of the model. All memory that a net needs is taken here.
    pub fn new(alloc: Global, model: &evac_law::Model) -> Result<Net, AllocError>
        requires { IsValid model.now }
        ensures of { IfOk result (IsNetOf model.now) }
        ensures empty { IfOk result (λ w. (p : Place) → IsPlace w.site p → flow_at w p ≡ 0) }
        ensures saved { IfOk result (λ w. saved_of w ≡ w) }
    {
        let moments = model.horizon as usize + 1;
        let arrivals = vec![in alloc; 0u32; moments]?;
        let saved_arrivals = vec![in alloc; 0u32; moments]?;
        let grid = grid_of(alloc, model)?;
        let supplies = model.people();
        Ok(Net {
            grid,
            arrivals,
            saved_arrivals,
            supplies,
            saved_supplies: supplies,
        })
    }

    /// The cells of the network, and the arcs at each node.
    pub fn shape(&self) -> &Shape
        ensures shape { result.now ≡ self.now.site.shape }
        ensures net { IsNet self.now }
    {
        self.grid.shape()
    }

    /// The cells of all places.
    pub fn cells(&self) -> &[Cell]
        ensures { result.now ≡ self.now.cells }
    {
        self.grid.cells()
    }

    /// The number of the nodes.
    pub fn nodes(&self) -> u32
        ensures { result ≡ self.now.site.shape.nodes }
    {
        self.shape().nodes()
    }

    /// The last moment.
    pub fn horizon(&self) -> u16
        ensures { result ≡ self.now.site.shape.horizon }
    {
        self.shape().horizon()
    }

    /// Whether a node is an exit.
    pub fn is_exit(&self, node: u32) -> bool
        requires { node < self.now.site.shape.nodes }
        ensures { result ≡ exit_at self.now.site node }
    {
        self.grid.is_exit(node)
    }

    /// The traversal time of an arc: when those arrive who enter it at moment 0.
    pub fn travel(&self, arc: u32) -> u16
        requires { arc < length self.now.site.shape.ends }
        ensures { arrival_at self.now.site arc 0 ≡ result }
    {
        self.grid.travel(arc)
    }

    /// Where a place leads from.
    pub fn tail(&self, place: Place) -> End
        requires { IsPlace self.now.site place }
        ensures end { result ≡ tail_of self.now.site place }
        ensures open { IsFalse (is_barred self.now.site place) → IsOpenEnd self.now.site result }
    {
        self.grid.tail(place)
    }

    /// Where a place leads to.
    pub fn head(&self, place: Place) -> End
        requires { IsPlace self.now.site place }
        ensures end { result ≡ head_of self.now.site place }
        ensures open { IsFalse (is_barred self.now.site place) → IsOpenEnd self.now.site result }
    {
        self.grid.head(place)
    }

    /// Where a step starts.
    pub fn start(&self, step: PathStep) -> End
        requires { IsPlace self.now.site step.place }
        ensures end { result ≡ start_of self.now.site step }
        ensures open { 0 < residual_room self.now step → IsOpenEnd self.now.site result }
    {
        self.grid.start(step)
    }

    /// Where a step stops.
    pub fn stop(&self, step: PathStep) -> End
        requires { IsPlace self.now.site step.place }
        ensures { result ≡ stop_of self.now.site step }
    {
        self.grid.stop(step)
    }

    /// Where a step starts and stops and the people who may go over it, if its place is one of the net's.
    pub fn transit(&self, step: PathStep) -> Option<Transit>
        requires within { IsWithinLimits self.now }
        ensures transit { IsTransit self.now step result }
        ensures open { MatchOption result (Unit {0}) (λ p. 0 < p.room → IsOpenEnd self.now.site p.start) }
    {
        if self.grid.has(step.place) {
            Some(self.grid.transit(step))
        } else {
            None
        }
    }

    /// Where a step forwards over a place starts that stops at an end, and the people who may go over it.
    ///
    /// None where the place isn't one of the net's, leads elsewhere or has no room.
    pub fn leads(&self, place: Place, end: End) -> Option<Transit>
        requires within { IsWithinLimits self.now }
        requires open { IsOpenEnd self.now.site end }
        ensures leads { IsLeading self.now place end result }
        ensures open { MatchOption result (Unit {0}) (λ p. IsOpenEnd self.now.site p.start) }
    {
        leads(&self.grid, place, end)
    }

    /// The people who may go over a step.
    #[tactic(auto, unfolding(crate::specs::Network::flow_at, crate::specs::Network::limit_at))]
    pub fn room(&self, step: PathStep) -> u32
        requires place { IsPlace self.now.site step.place }
        requires within { IsWithinLimits self.now }
        ensures { result ≡ residual_room self.now step }
    {
        let cell = self.grid.get(step.place);
        if step.back {
            cell.flow
        } else {
            cell.limit - cell.flow
        }
    }

    /// The most people who may go over a place.
    pub fn limit(&self, place: Place) -> u32
        requires { IsPlace self.now.site place }
        ensures { result ≡ limit_at self.now place }
    {
        let cell = self.grid.get(place);
        cell.limit
    }

    /// The people who enter an arc at a moment.
    pub fn moved(&self, arc: u32, moment: u16) -> u32
        requires { IsPlace self.now.site (Arc arc moment) }
        ensures { result ≡ flow_at self.now (Arc arc moment) }
    {
        let cell = self.grid.get(Place::Arc { arc, moment });
        cell.flow
    }

    /// The people in a node at a moment.
    pub fn held(&self, node: u32, moment: u16) -> u32
        requires { IsPlace self.now.site (Hold node moment) }
        ensures { result ≡ flow_at self.now (Hold node moment) }
    {
        let cell = self.grid.get(Place::Hold { node, moment });
        cell.flow
    }

    /// The people of a node and moment who aren't sent yet.
    pub fn unsent(&self, node: u32, moment: u16) -> u32
        requires place { IsPlace self.now.site (Supply node moment) }
        requires within { IsWithinLimits self.now }
        ensures { result ≡ unsent_at self.now node moment }
    {
        let place = Place::Supply { node, moment };
        self.room(PathStep { place, back: false })
    }

    /// Whether everybody is sent. Takes time in proportion to the horizon.
    pub fn is_all_sent(&self) -> bool
        requires { IsWithinLimits self.now }
        ensures { IsTrue result ↔ IsAllSent self.now }
    {
        self.arrived(self.horizon()) == self.supplies
    }

    /// The flow less the limit, or 0 where the flow isn't above the limit.
    pub fn excess(&self, place: Place) -> u32
        requires { IsPlace self.now.site place }
        ensures { result ≡ excess_at self.now place }
    {
        let cell = self.grid.get(place);
        cell.flow.saturating_sub(cell.limit)
    }

    /// The people who arrive by a moment.
    #[tactic(auto, using(evac_law::proofs::SumLemmas::sum_steps))]
    pub fn arrived(&self, k: u16) -> u32
        requires { k ≤ self.now.site.shape.horizon }
        ensures { result ≡ arrived_by self.now k }
    {
        let arrivals = self.arrivals.as_slice();
        let mut total = 0u32;
        for moment in 0..k as usize + 1 {
            total += arrivals[moment];
        }
        total
    }

    /// The last moment at which a move arrives, or 0. Takes time in proportion to the horizon.
    pub fn last_arrival(&self) -> u16
        ensures last { result ≡ last_move self.now.site (plan_of self.now) }
        ensures net { IsNet self.now }
    {
        last_some(self.arrivals.as_slice()) as u16
    }

    /// Sends people along a path. Takes time in proportion to the path.
    pub fn push<L: Ledger>(&mut self, path: &Path, people: u32, steps: &mut Steps<L>)
        requires within { IsWithinLimits self.old }
        requires some { 1 ≤ people }
        requires path { IsPushable self.old path.now.steps people }
        ensures pushed { IsPushed self.old self.new path.now.steps people }
        ensures within { IsWithinLimits self.new }
        ensures net { IsNet self.new }
        ensures ticked { steps.new ≡ steps.old + 1 }
    {
        let list = path.steps();
        shift_all(&mut self.grid, list, people);
        let first = list[0];
        let last = list[list.len() - 1];
        move_arrivals(
            self.arrivals.as_mut_slice(),
            &self.grid,
            first,
            last,
            people,
        );
        steps.tick();
    }

    /// Sends people along a path by its legs, which is quicker than by its steps. Takes time in proportion to the path.
    pub fn push_legs<L: Ledger>(&mut self, legs: &[Leg], people: u32, steps: &mut Steps<L>)
        requires within { IsWithinLimits self.old }
        requires some { 1 ≤ people }
        requires path { IsPushable self.old (steps_of_legs self.old.site legs.now) people }
        ensures pushed { IsPushed self.old self.new (steps_of_legs self.old.site legs.now) people }
        ensures within { IsWithinLimits self.new }
        ensures net { IsNet self.new }
        ensures ticked { steps.new ≡ steps.old + 1 }
    {
        shift_legs(&mut self.grid, legs, people);
        let first = legs[0].step;
        let last = legs[legs.len() - 1].step;
        move_arrivals(
            self.arrivals.as_mut_slice(),
            &self.grid,
            first,
            last,
            people,
        );
        steps.tick();
    }

    // The limits of all supplies together, with another limit at a place.
    fn supplies_with(&self, place: Place, people: u32) -> u32
        requires place { IsPlace self.now.site place }
        requires supplies { supply_limits_with self.now place people ≤ supply_limit }
        ensures { result ≡ supply_limits_with self.now place people }
    {
        match place {
            Place::Supply { .. } => self.supplies - self.limit(place) + people,
            Place::Arc { .. } | Place::Hold { .. } => self.supplies,
        }
    }

    /// Gives a place another limit. The flow stays, and may be above it then.
    pub fn set_limit(&mut self, place: Place, people: u32)
        requires place { IsPlace self.old.site place }
        requires open { IsTrue (is_barred self.old.site place) → people ≡ 0 }
        requires supplies { supply_limits_with self.old place people ≤ supply_limit }
        ensures set { IsLimitSet self.old self.new place people }
        ensures net { IsNet self.new }
    {
        let supplies = self.supplies_with(place, people);
        self.grid.set_limit(place, people);
        self.supplies = supplies;
    }

    /// Takes people off one flow path through a place with too many: at least one, and at most the excess of the place.
    ///
    /// The path that is left in `path` goes from a supply over the place to an arrival. Takes time in proportion to the path and
    /// the arcs at its nodes.
    pub fn cancel<L: Ledger>(&mut self, place: Place, path: &mut Path, steps: &mut Steps<L>) -> u32
        requires place { IsPlace self.old.site place }
        requires over { 0 < excess_at self.old place }
        requires room { self.old.site.shape.horizon + 2 ≤ path.old.room }
        ensures cancelled { IsCancelled self.old self.new place path.new.steps result }
        ensures net { IsNet self.new }
        ensures room { path.new.room ≡ path.old.room }
        ensures ticked { steps.new ≡ steps.old + 1 }
    {
        let excess = self.excess(place);
        let people = find_path(&self.grid, place, excess, path);
        let list = path.steps();
        take_all(&mut self.grid, list, people);
        lower_arrivals(self.arrivals.as_mut_slice(), &self.grid, list, people);
        steps.tick();
        people
    }

    /// Keeps the flow and the limits, until the next `save`.
    pub fn save(&mut self)
        ensures { self.new ≡ with_saved self.old }
    {
        self.grid.save();
        self.saved_arrivals
            .as_mut_slice()
            .copy_from_slice(self.arrivals.as_slice());
        self.saved_supplies = self.supplies;
    }

    /// The cells that were saved last, if any were.
    pub fn saved(&self) -> &[Cell] {
        self.grid.saved()
    }

    /// Gives back the flow and the limits that were saved last, and where nothing was saved those of the new net.
    pub fn restore(&mut self)
        ensures { self.new ≡ saved_of self.old }
    {
        self.grid.restore();
        self.arrivals
            .as_mut_slice()
            .copy_from_slice(self.saved_arrivals.as_slice());
        self.supplies = self.saved_supplies;
    }
}
