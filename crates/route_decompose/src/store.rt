//! What is left of a plan while it is handed out.
ghost use Rattle.std.specs.Prelude.{◌≡◌, ℕ, ◌<◌, ◌≤◌, IfNone, IfOk, IfSome, length};
ghost use Rattle.evac_law.specs.Building.{IsValid, arc_at, head, is_exit_at, tail};
ghost use Rattle.plan_layout.specs.Tables.{people_at};
ghost use Rattle.route_decompose.specs.Places.{IsLess};
ghost use Rattle.route_decompose.specs.Stocks.{IsEmpty, IsLessHeld, IsLessLeft, IsPassed, IsStock, IsStockOf, going};
ghost use Rattle.plan_layout.specs.Layouts.{IsSameSite, shape_of};
ghost use Rattle.time_expansion.specs.Expansion.{arcs_from};

use crate::people::{first_in, take};
use evac_law::Standing;
use plan_layout::{Layout, fill_entries, fill_holds, fill_moves};
use std::alloc::{AllocError, Global};
use std::marker::Model;
use tables::Table;

/// A model and the people left of a plan: by arc and moment, those who stay and those who come from nowhere by node and moment. In the nodes
/// before `first` nobody comes from nowhere any more.
#[derive(Drop)]
pub struct Store {
    pub(crate) layout: Layout,
    pub(crate) left: Table<u32>,
    pub(crate) holds: Table<u32>,
    pub(crate) waiting: Table<u32>,
    pub(crate) first: u32,
}

impl Model for Store {
    ghost use Rattle.route_decompose.specs.Stocks.{IsPassed, IsStock, Stock};

    ghost Value = { Stock };

    ghost view = { λ s. record { model = s.layout; left = s.left; holds = s.holds; waiting = s.waiting } };

    ghost invariant = { λ s. IsStock (record { model = s.layout; left = s.left; holds = s.holds; waiting = s.waiting }) × IsPassed s.waiting s.first };
}

impl Store {
    /// Nobody, in tables of a model's sizes.
    pub fn new(alloc: Global, model: &evac_law::Model) -> Result<Store, AllocError>
        requires { IsValid model.now }
        ensures model { IfOk result (λ s. s.model ≡ model.now) }
        ensures stock { IfOk result IsStock }
        ensures empty { IfOk result IsEmpty }
    {
        let left = Table::new(alloc, 0, model.arc_count(), model.horizon)?;
        let holds = Table::new(alloc, 0, model.node_count(), model.horizon)?;
        let waiting = Table::new(alloc, 0, model.node_count(), model.horizon)?;
        let layout = Layout::new(alloc, model)?;
        Ok(Store {
            layout,
            left,
            holds,
            waiting,
            first: 0,
        })
    }

    /// Takes the rows of another model of the same building.
    pub fn set_model(&mut self, model: &evac_law::Model)
        requires valid { IsValid model.now }
        requires site { IsSameSite model.now self.old.model }
        ensures model { self.new.model ≡ model.now }
        ensures left { self.new.left ≡ self.old.left }
        ensures holds { self.new.holds ≡ self.old.holds }
        ensures waiting { self.new.waiting ≡ self.old.waiting }
    {
        self.layout.set_model(model);
    }

    /// Takes the people of a plan of its model.
    pub fn fill<F: Standing>(&mut self, standing: &F)
        requires nodes { (F.stand standing.now).nodes ≡ length self.old.model.nodes }
        requires arcs { (F.stand standing.now).arcs ≡ length self.old.model.arcs }
        requires horizon { (F.stand standing.now).horizon ≡ self.old.model.horizon }
        ensures model { self.new.model ≡ self.old.model }
        ensures stock { IsStock self.new }
        ensures of { IsStockOf (F.stand standing.now) self.new }
    {
        fill_moves(&mut self.left, standing);
        fill_holds(&mut self.holds, standing);
        fill_entries(&mut self.waiting, self.layout.model());
        self.first = 0;
    }

    // The first node, and there the first moment, at which somebody comes from nowhere who is left.
    fn find(&self) -> Option<(u32, u16)>
        ensures some { IfSome result (λ p. (p.0 < length self.now.model.nodes) × (p.1 ≤ self.now.model.horizon) × (0 < people_at self.now.waiting p.0 p.1)) }
        ensures passed { IfSome result (λ p. IsPassed self.now.waiting p.0) }
        ensures none { IfNone result ((n t : ℕ) → people_at self.now.waiting n t ≡ 0) }
    {
        for node in self.first..self.waiting.rows() {
            if let Some(moment) = first_in(&self.waiting, node) {
                return Some((node, moment));
            }
        }
        None
    }

    /// A node, and a moment at which somebody comes into it from nowhere who is left.
    pub fn starting(&mut self) -> Option<(u32, u16)>
        ensures same { self.new ≡ self.old }
        ensures some { IfSome result (λ p. (p.0 < length self.old.model.nodes) × (p.1 ≤ self.old.model.horizon) × (0 < people_at self.old.waiting p.0 p.1)) }
        ensures none { IfNone result ((n t : ℕ) → people_at self.old.waiting n t ≡ 0) }
    {
        let Some((node, moment)) = self.find() else {
            return None;
        };
        self.first = node;
        Some((node, moment))
    }

    /// The node that an arc enters.
    pub fn head(&self, arc: u32) -> u32
        requires { arc < length self.now.model.arcs }
        ensures { result ≡ head self.now.model arc }
    {
        self.layout.model().arc(arc).to
    }

    /// The traversal time of an arc.
    pub fn travel(&self, arc: u32) -> u16
        requires { arc < length self.now.model.arcs }
        ensures { result ≡ (arc_at self.now.model arc).travel }
    {
        self.layout.model().arc(arc).travel
    }

    /// Whether a node is an exit.
    pub fn is_exit(&self, node: u32) -> bool
        requires { node < length self.now.model.nodes }
        ensures { result ≡ is_exit_at self.now.model node }
    {
        self.layout.is_exit(node)
    }

    /// The people left on an arc at a moment.
    pub fn left(&self, arc: u32, moment: u16) -> u32
        requires arc_in { arc < length self.now.model.arcs }
        requires moment_in { moment ≤ self.now.model.horizon }
        ensures { result ≡ people_at self.now.left arc moment }
    {
        self.left.get(arc, moment)
    }

    /// The people who are left to stay in a node from a moment to the next.
    pub fn hold(&self, node: u32, moment: u16) -> u32
        requires node_in { node < length self.now.model.nodes }
        requires moment_in { moment ≤ self.now.model.horizon }
        ensures { result ≡ people_at self.now.holds node moment }
    {
        self.holds.get(node, moment)
    }

    /// The people left who come into a node at a moment from nowhere.
    pub fn start(&self, node: u32, moment: u16) -> u32
        requires node_in { node < length self.now.model.nodes }
        requires moment_in { moment ≤ self.now.model.horizon }
        ensures { result ≡ people_at self.now.waiting node moment }
    {
        self.waiting.get(node, moment)
    }

    // The arcs that leave a node, in file order.
    fn arcs_at(&self, node: u32) -> &[u32]
        requires { node < length self.now.model.nodes }
        ensures { result.now ≡ arcs_from (shape_of self.now.model) node }
    {
        self.layout.arcs_from(node)
    }

    /// An arc that leaves a node, with people left at a moment.
    pub fn leaving(&self, node: u32, moment: u16) -> Option<u32>
        requires node_in { node < length self.now.model.nodes }
        requires moment_in { moment ≤ self.now.model.horizon }
        ensures some { IfSome result (λ a. (a < length self.now.model.arcs) × (tail self.now.model a ≡ node) × (0 < people_at self.now.left a moment)) }
        ensures none { IfNone result (going self.now node moment ≡ 0) }
    {
        let arcs = self.arcs_at(node);
        for arc in arcs {
            if self.left(*arc, moment) > 0 {
                return Some(*arc);
            }
        }
        None
    }

    /// Takes people off an arc at a moment.
    pub fn take_left(&mut self, arc: u32, moment: u16, people: u32)
        requires arc_in { arc < length self.old.model.arcs }
        requires moment_in { moment ≤ self.old.model.horizon }
        requires enough { people ≤ people_at self.old.left arc moment }
        ensures { IsLessLeft self.old self.new arc moment people }
    {
        take(&mut self.left, arc, moment, people);
    }

    /// Takes people off those who stay in a node from a moment to the next.
    pub fn take_hold(&mut self, node: u32, moment: u16, people: u32)
        requires node_in { node < length self.old.model.nodes }
        requires moment_in { moment ≤ self.old.model.horizon }
        requires enough { people ≤ people_at self.old.holds node moment }
        ensures { IsLessHeld self.old self.new node moment people }
    {
        take(&mut self.holds, node, moment, people);
    }

    /// Takes people off those who come into a node at a moment from nowhere.
    pub fn take_start(&mut self, node: u32, moment: u16, people: u32)
        requires node_in { node < length self.old.model.nodes }
        requires moment_in { moment ≤ self.old.model.horizon }
        requires enough { people ≤ people_at self.old.waiting node moment }
        ensures model { self.new.model ≡ self.old.model }
        ensures left { self.new.left ≡ self.old.left }
        ensures holds { self.new.holds ≡ self.old.holds }
        ensures less { IsLess self.old.waiting self.new.waiting node moment people }
    {
        take(&mut self.waiting, node, moment, people);
    }
}
