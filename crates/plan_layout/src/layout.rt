//! A model that is kept, and the arcs at each of its nodes.
ghost use Rattle.std.specs.Prelude.{◌≡◌, ◌<◌, ◌^◌, IfOk, length, map};
ghost use Rattle.evac_law.specs.Building.{IsValid, is_exit_at};
ghost use Rattle.plan_layout.specs.Layouts.{IsSameSite, ends_of, shape_of};
ghost use Rattle.time_expansion.specs.Expansion.{arcs_from, arcs_to};

use evac_law::{ArcRow, NodeRow, Rows};
use std::alloc::{AllocError, Global};
use std::marker::Model;
use time_expansion::{Ends, Shape};

/// A copy of a model, and the arcs at each of its nodes. All memory that it needs is taken when it is made.
pub struct Layout {
    model: evac_law::Model,
    shape: Shape,
}

// Written out, since a derived drop is laid out part by part in each function that lets one go.
impl Drop for Layout {
    fn drop(self) {
        let Layout { model: _, shape: _ } = self;
    }
}

impl Model for Layout {
    ghost use Rattle.std.specs.Prelude.{◌≡◌};
    ghost use Rattle.evac_law.specs.declared.model.Model.{Model};
    ghost use Rattle.evac_law.specs.Building.{IsValid};
    ghost use Rattle.plan_layout.specs.Layouts.{shape_of};

    ghost Value = { Model };

    ghost view = { λ l. l.model };

    ghost invariant = { λ l. IsValid l.model × (l.shape ≡ shape_of l.model) };
}

// The ends of the arcs.
fn ends_of(alloc: Global, arcs: &[ArcRow]) -> Result<Vec<Ends>, AllocError>
    ensures { IfOk result (λ r. r.items ≡ map ends_of arcs.now) }
{
    let mut ends = Vec::new(alloc);
    for arc in arcs {
        ends.push(Ends {
            from: arc.from,
            to: arc.to,
        })?;
    }
    Ok(ends)
}

// The network of a model.
fn shape_of(alloc: Global, model: &evac_law::Model) -> Result<Shape, AllocError>
    requires { IsValid model.now }
    ensures { IfOk result (λ s. s ≡ shape_of model.now) }
{
    let ends = ends_of(alloc, model.arcs.as_slice())?;
    Shape::new(alloc, model.node_count(), ends.as_slice(), model.horizon)
}

/// The same arcs once more.
pub fn copy_arcs(alloc: Global, arcs: &[ArcRow]) -> Result<Vec<ArcRow>, AllocError>
    ensures { IfOk result (λ r. r.items ≡ arcs.now) }
{
    let mut copies = Vec::new(alloc);
    for arc in arcs {
        copies.push(arc.copy())?;
    }
    Ok(copies)
}

// The same model once more.
fn copy_of(alloc: Global, model: &evac_law::Model) -> Result<evac_law::Model, AllocError>
    ensures { IfOk result (λ m. m ≡ model.now) }
{
    let nodes = Vec::from_slice(alloc, model.nodes.as_slice())?;
    let arcs = copy_arcs(alloc, model.arcs.as_slice())?;
    let entrants = Vec::from_slice(alloc, model.entrants.as_slice())?;
    Ok(evac_law::Model {
        seconds: model.seconds,
        horizon: model.horizon,
        nodes: Rows::new(nodes),
        arcs: Rows::new(arcs),
        entrants: Rows::new(entrants),
    })
}

// Puts rows in the place of as many others.
fn put_nodes(into: &mut Rows<NodeRow>, nodes: &[NodeRow])
    requires { length into.old ≡ length nodes.now }
    ensures { into.new ≡ nodes.now }
{
    for node in 0..nodes.len() {
        into.put(node, nodes[node]);
    }
}

// Puts rows in the place of as many others. It takes no memory.
fn put_arcs(into: &mut Rows<ArcRow>, arcs: &[ArcRow])
    requires { length into.old ≡ length arcs.now }
    ensures { into.new ≡ arcs.now }
{
    for arc in 0..arcs.len() {
        into.put(arc, arcs[arc].copy());
    }
}

impl Layout {
    /// The layout of a model.
    pub fn new(alloc: Global, model: &evac_law::Model) -> Result<Layout, AllocError>
        requires { IsValid model.now }
        ensures { IfOk result (λ l. l ≡ model.now) }
    {
        let shape = shape_of(alloc, model)?;
        let model = copy_of(alloc, model)?;
        Ok(Layout { model, shape })
    }

    /// Takes the rows of another model of the same building.
    pub fn set_model(&mut self, model: &evac_law::Model)
        requires valid { IsValid model.now }
        requires site { IsSameSite model.now self.old }
        ensures { self.new ≡ model.now }
    {
        self.model.seconds = model.seconds;
        put_nodes(&mut self.model.nodes, model.nodes.as_slice());
        put_arcs(&mut self.model.arcs, model.arcs.as_slice());
    }

    /// The model.
    pub fn model(&self) -> &evac_law::Model
        ensures same { result.now ≡ self.now }
        ensures valid { IsValid self.now }
    {
        &self.model
    }

    /// Whether a node is an exit.
    pub fn is_exit(&self, node: u32) -> bool
        requires { node < length self.now.nodes }
        ensures { result ≡ is_exit_at self.now node }
    {
        self.model.node(node).name.kind.is_exit()
    }

    /// The arcs that leave a node, in file order.
    #[tactic(auto, using(crate::proofs::ShapeLemmas::few_from))]
    pub fn arcs_from(&self, node: u32) -> &[u32]
        requires { node < length self.now.nodes }
        ensures arcs { result.now ≡ arcs_from (shape_of self.now) node }
        ensures few { length result.now < 2 ^ 11 }
    {
        self.shape.leaving(node)
    }

    /// The arcs that enter a node, in file order.
    #[tactic(auto, using(crate::proofs::ShapeLemmas::few_to))]
    pub fn arcs_to(&self, node: u32) -> &[u32]
        requires { node < length self.now.nodes }
        ensures arcs { result.now ≡ arcs_to (shape_of self.now) node }
        ensures few { length result.now < 2 ^ 11 }
    {
        self.shape.entering(node)
    }
}
