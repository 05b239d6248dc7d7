//! A net brought under the limits of an edited model.
ghost use Rattle.std.specs.Prelude.{◌≡◌};
ghost use Rattle.evac_law.specs.Edits.{IsEditOf};
ghost use Rattle.flow_repair.specs.Repairing.{CanFit, Refits};
ghost use Rattle.flow_repair.specs.Repairs.{IsReshapable, IsReshaped, IsStandingBelow, IsSteppedFor, IsTakenOff};
ghost use Rattle.flow_repair.specs.Touched.{touches};

use crate::reshaped::Reshaped;
use evac_law::{Edit, Labels, Model, Steps};
use residual_net::{Kind, Net, Path};
use std::sync::ledger::Ledger;

/// A net that comes under the limits of an edited model, the labels that proved it best before, a path to take people off, and what came of
/// it so far.
#[derive(Drop)]
pub struct Repair<'a, L: Ledger> {
    pub net: &'a mut Net,
    pub model: &'a Model,
    pub labels: &'a Labels,
    pub path: &'a mut Path,
    pub steps: &'a mut Steps<L>,
    pub done: Reshaped,
}

impl<L: Ledger> Repair<'_, L> {
    // Brings what an edit changes under the edited model.
    fn fit_edit(&mut self, edit: Edit)
        requires fittable { CanFit self.old }
        requires in_range { IsEditOf self.old.model.now edit }
        ensures { Refits (touches self.old.net.now.site edit) self.old self.new }
    {
        match edit {
            Edit::Shut { arc }
            | Edit::Reopen { arc }
            | Edit::Rate { arc, .. }
            | Edit::Window { arc, .. }
            | Edit::Unwindow { arc, .. } => self.fit_row(Kind::Arc, arc),
            Edit::ShutExit { node } | Edit::ReopenExit { node } => self.fit_arcs_into(node),
            Edit::Room { node, .. } => self.fit_row(Kind::Hold, node),
            Edit::Enter { node, .. } | Edit::Leave { node, .. } => self.fit_row(Kind::Supply, node),
            Edit::Shift { from, to, .. } => {
                self.fit_row(Kind::Supply, from);
                self.fit_row(Kind::Supply, to);
            }
        }
    }
}

/// Brings the net of a plan under the limits of an edited model: sets the limits that changed, and takes people off whole flow paths
/// until every place fits.
///
/// `labels` prove the net best up to its last arrival before the edit; below `least_label` they still do.
#[tactic(auto, using(residual_net::proofs::LastArrival::last_fits, crate::proofs::Numbers::horizon_small))]
pub fn reshape<L: Ledger>(
    net: &mut Net,
    model: &Model,
    edit: Edit,
    labels: &Labels,
    path: &mut Path,
    steps: &mut Steps<L>,
) -> Reshaped
    requires { IsReshapable model.now edit net.old labels.now path.old.room }
    ensures net { IsReshaped model.now net.old net.new }
    ensures taken { IsTakenOff model.now net.old net.new result.cancelled }
    ensures labels { IsStandingBelow labels.now net.old net.new result.least_label }
    ensures steps { IsSteppedFor result.cancelled steps.old steps.new }
    ensures room { path.new.room ≡ path.old.room }
{
    let first = net.last_arrival() + 1;
    let mut repair = Repair {
        net,
        model,
        labels,
        path,
        steps,
        done: Reshaped {
            cancelled: 0,
            least_label: first,
        },
    };
    repair.fit_edit(edit);
    repair.done
}
