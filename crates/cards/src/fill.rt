//! How tables take the counts of a plan.
ghost use Rattle.std.specs.Prelude.{◌<◌, length};
ghost use Rattle.evac_law.specs.Plans.{came, left};
ghost use Rattle.plan_layout.specs.Tables.{IsRowFilled};
ghost use Rattle.cards.specs.Kept.{HasNumbers, IsByNode};

use crate::plan::PlanCopy;
use crate::sums::SumTable;

// Puts how many left a node by each moment.
fn fill_left_row(table: &mut SumTable, plan: &PlanCopy, node: u32)
    requires by_node { IsByNode plan.now.model table.old }
    requires node_in { node < length plan.now.model.nodes }
    ensures { IsRowFilled table.old table.new node (left plan.now.model plan.now.moves node) }
{
    let mut all = 0;
    for moment in 0..plan.layout().model().horizon + 1 {
        all += plan.leaving(node, moment);
        table.put(node, moment, all);
    }
}

/// Puts how many left the nodes by each moment.
pub fn fill_left(table: &mut SumTable, plan: &PlanCopy)
    requires { IsByNode plan.now.model table.old }
    ensures by_node { IsByNode plan.now.model table.new }
    ensures numbers { HasNumbers plan.now.model table.new (left plan.now.model plan.now.moves) }
{
    for node in 0..plan.layout().model().node_count() {
        fill_left_row(table, plan, node);
    }
}

// Puts how many came to a node by each moment.
fn fill_came_row(table: &mut SumTable, plan: &PlanCopy, node: u32)
    requires by_node { IsByNode plan.now.model table.old }
    requires node_in { node < length plan.now.model.nodes }
    ensures { IsRowFilled table.old table.new node (came plan.now.model plan.now.moves node) }
{
    let model = plan.layout().model();
    let mut all = 0;
    for moment in 0..model.horizon + 1 {
        all += u64::from(model.entry(node, moment)) + plan.coming(node, moment);
        table.put(node, moment, all);
    }
}

/// Puts how many came to the nodes by each moment.
pub fn fill_came(table: &mut SumTable, plan: &PlanCopy)
    requires { IsByNode plan.now.model table.old }
    ensures by_node { IsByNode plan.now.model table.new }
    ensures numbers { HasNumbers plan.now.model table.new (came plan.now.model plan.now.moves) }
{
    for node in 0..plan.layout().model().node_count() {
        fill_came_row(table, plan, node);
    }
}
