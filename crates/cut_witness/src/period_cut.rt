//! The cut of a period: who is in it, and who leaves it.
ghost use Rattle.std.specs.Prelude.{◌≡◌, ◌<◌, ◌≤◌, ◌^◌, length};
ghost use Rattle.evac_law.specs.Building.{IsValid};
ghost use Rattle.evac_law.specs.Certificates.{IsTableOf, label_cut};
ghost use Rattle.evac_law.specs.Cuts.{leaves_cut};
ghost use Rattle.evac_law.proofs.Props.{IsTableOf-prop, IsValid-prop};

use evac_law::{Labels, Model};

/// The cut that labels make for a period of a building.
#[derive(Clone, Copy)]
pub struct PeriodCut<'a> {
    pub model: &'a Model,
    pub labels: &'a Labels,
    pub k: u16,
    pub ghost valid: { IsValid model.now } by { IsValid-prop model.now },
    pub ghost table: { IsTableOf model.now labels.now } by { IsTableOf-prop model.now labels.now },
    pub ghost in_horizon: { k ≤ model.now.horizon },
    pub ghost short: { k < 2 ^ 16 },
}

impl PeriodCut<'_> {
    /// Whether a node at a moment is in it.
    pub fn has(&self, node: u32, moment: u16) -> bool
        requires node_in { node < length self.now.model.now.nodes }
        requires moment_in { moment ≤ self.now.model.now.horizon }
        ensures { result ≡ label_cut self.now.model.now self.now.labels.now self.now.k node moment }
    {
        moment <= self.k
            && !self.model.node(node).name.kind.is_exit()
            && self.k < self.labels.get(node, moment)
    }

    /// Whether people who enter an arc at a moment leave it by its period.
    #[tactic(auto, unfolding(evac_law::specs::Limits::horizon_limit, evac_law::specs::Limits::travel_limit))]
    pub fn leaves(&self, moment: u16, arc: u32) -> bool
        requires moment_in { moment ≤ self.now.k }
        requires arc_in { arc < length self.now.model.now.arcs }
        ensures { result ≡ leaves_cut self.now.model.now (label_cut self.now.model.now self.now.labels.now self.now.k) self.now.k moment arc }
    {
        let row = self.model.arc(arc);
        let arrival = moment + row.travel;
        self.has(row.from, moment)
            && arrival <= self.k
            && (self.model.node(row.to).name.kind.is_exit() || !self.has(row.to, arrival))
    }
}
