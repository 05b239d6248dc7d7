//! What is left of a building once a plan is carried out up to a moment.
ghost use Rattle.std.specs.Prelude.{◌≡◌, ◌≤◌, IfOk, map};
ghost use Rattle.replan.specs.Rest.{without_start, rest};
ghost use Rattle.evac_law.specs.Stands.{Stands};

use crate::comers::comers;
use evac_law::{Model, NodeRow, Rows, Standing};
use plan_layout::{Layout, copy_arcs};
use std::alloc::{AllocError, Global};

// The nodes, in which nobody starts.
fn without_start(alloc: Global, nodes: &[NodeRow]) -> Result<Vec<NodeRow>, AllocError>
    ensures { IfOk result (λ r. r.items ≡ map without_start nodes.now) }
{
    let mut rows = Vec::new(alloc);
    for node in nodes {
        rows.push(NodeRow { start: 0, ..*node })?;
    }
    Ok(rows)
}

/// What is left of a model once the moves of a standing plan before a moment are made.
pub(crate) fn rest_of<F: Standing>(
    alloc: Global,
    layout: &Layout,
    standing: &F,
    from: u16,
) -> Result<Model, AllocError>
    requires stands { Stands layout.now (F.stand standing.now) }
    requires first { 1 ≤ from }
    requires in_horizon { from ≤ layout.now.horizon }
    ensures { IfOk result (λ r. r ≡ rest layout.now (F.stand standing.now).plan from) }
{
    let model = layout.model();
    let nodes = without_start(alloc, model.nodes.as_slice())?;
    let arcs = copy_arcs(alloc, model.arcs.as_slice())?;
    let entrants = comers(alloc, layout, standing, from)?;
    Ok(Model {
        seconds: model.seconds,
        horizon: model.horizon,
        nodes: Rows::new(nodes),
        arcs: Rows::new(arcs),
        entrants: Rows::new(entrants),
    })
}
