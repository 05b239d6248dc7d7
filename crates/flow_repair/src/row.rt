//! All moments of an arc or a node, and all arcs into an exit.
ghost use Rattle.std.specs.Prelude.{◌==◌, ◌&&◌};
ghost use Rattle.residual_net.specs.Site.{IsPlace};
ghost use Rattle.residual_net.specs.Start.{is_kind, place_of, row_of};
ghost use Rattle.residual_net.specs.declared.start.Kind.TheVariants as kinds;
ghost use Rattle.time_expansion.specs.Expansion.{to_at};
ghost use Rattle.flow_repair.specs.Repairing.{CanFit, Refits};

use crate::repair::Repair;
use residual_net::{Kind, place_of};
use std::sync::ledger::Ledger;

impl<L: Ledger> Repair<'_, L> {
    /// Brings an arc's or a node's places of a kind under the model at each moment.
    #[tactic(auto, unfolding(evac_law::specs::Limits::horizon_limit))]
    pub(crate) fn fit_row(&mut self, kind: Kind, number: u32)
        requires fittable { CanFit self.old }
        requires number { IsPlace self.old.net.now.site (place_of kind number 0) }
        ensures { Refits (λ p. is_kind kind p && row_of p == number) self.old self.new }
    {
        for moment in 0..self.model.horizon + 1 {
            self.fit_place(place_of(kind, number, moment));
        }
    }

    /// Brings the arcs into a node under the model at each moment.
    #[tactic(auto, unfolding(evac_law::specs::Limits::arc_limit))]
    pub(crate) fn fit_arcs_into(&mut self, node: u32)
        requires fittable { CanFit self.old }
        ensures { Refits (λ p. is_kind kinds.Arc p && to_at self.old.net.now.site.shape (row_of p) == node) self.old self.new }
    {
        for arc in 0..self.model.arc_count() {
            if self.model.arc(arc).to == node {
                self.fit_row(Kind::Arc, arc);
            }
        }
    }
}
