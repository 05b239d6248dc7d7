//! A place brought under its limit.
ghost use Rattle.std.specs.Prelude.{◌≡◌, ◌<◌};
ghost use Rattle.residual_net.specs.Network.{excess_at, limit_at};
ghost use Rattle.residual_net.specs.OfModel.{model_limit};
ghost use Rattle.residual_net.specs.Site.{IsPlace, same_place};
ghost use Rattle.flow_repair.specs.Repairing.{CanCancel, CanFit, Refits, Relieves, TakesOneOff};

use crate::number::{head_number, least_on};
use crate::repair::Repair;
use crate::reshaped::Reshaped;
use residual_net::{Place, limit_of};
use std::sync::ledger::Ledger;

impl<L: Ledger> Repair<'_, L> {
    // Takes people off one flow path through a place with too many.
    #[tactic(auto, using(residual_net::proofs::Effects::fewer_sent), unfolding(residual_net::specs::Limits::supply_limit))]
    fn cancel_one(&mut self, place: Place)
        requires place { IsPlace self.old.net.now.site place }
        requires over { 0 < excess_at self.old.net.now place }
        requires limit { limit_at self.old.net.now place ≡ model_limit self.old.model.now place }
        requires cancellable { CanCancel self.old }
        ensures { TakesOneOff place self.old self.new }
    {
        let people = self.net.cancel(place, self.path, self.steps);
        let first = self.done.least_label;
        let least_label = least_on(self.net, self.labels, self.path.steps(), first);
        self.done = Reshaped {
            cancelled: self.done.cancelled + people as u64,
            least_label,
        };
    }

    // Takes people off flow paths through a place until it fits.
    fn cancel_all(&mut self, place: Place)
        requires place { IsPlace self.old.net.now.site place }
        requires limit { limit_at self.old.net.now place ≡ model_limit self.old.model.now place }
        requires cancellable { CanCancel self.old }
        ensures { Relieves place self.old self.new }
    {
        while self.net.excess(place) > 0 {
            self.cancel_one(place);
        }
    }

    /// Gives a place the limit of the model, and takes people off flow paths through it until it fits.
    #[tactic(auto, using(crate::proofs::Between::supplies_fit))]
    pub(crate) fn fit_place(&mut self, place: Place)
        requires fittable { CanFit self.old }
        requires place { IsPlace self.old.net.now.site place }
        ensures { Refits (same_place place) self.old self.new }
    {
        let old = self.net.limit(place);
        let limit = limit_of(self.model, place);
        self.net.set_limit(place, limit);
        if limit > old {
            let number = head_number(self.net, self.labels, place);
            self.done.least_label = self.done.least_label.min(number);
        } else {
            self.cancel_all(place);
        }
    }
}
