//! The report on a plan.
ghost use Rattle.std.specs.Prelude.{◌≡◌, ◌<◌, IfOk, length};
ghost use Rattle.evac_law.specs.Building.{IsValid};
ghost use Rattle.evac_law.specs.Stands.{Stands};
ghost use Rattle.floor_index.specs.Floors.{listed};
ghost use Rattle.clearing_report.specs.Clearing.{IsReport, latest, clearing_moment};
ghost use Rattle.clearing_report.specs.Walks.{IsUncongested};

use crate::moments::{latest, write_moments};
use crate::periods::person_periods;
use crate::times::{uncongested, walk_bound};
use evac_law::Standing;
use floor_index::FloorIndex;
use std::alloc::{AllocError, Global};
use std::marker::Model;

/// A report on a plan. All memory that it needs is taken when it is made.
#[derive(Drop)]
pub struct Clearing {
    moments: Vec<Option<u16>>,
    time: u32,
    periods: u64,
    times: Vec<Option<u32>>,
}

impl Model for Clearing {
    ghost use Rattle.std.specs.Prelude.{◌≡◌, length};
    ghost use Rattle.clearing_report.specs.Clearing.{ClearingView};

    ghost Value = { ClearingView };

    ghost view = { λ c. record { moments = c.moments.items; time = c.time; periods = c.periods } };

    ghost invariant = { λ c. length c.times.items ≡ length c.moments.items };
}

impl Clearing {
    /// A report with room for the nodes of a model.
    pub fn new(alloc: Global, model: &evac_law::Model) -> Result<Clearing, AllocError>
        requires { IsValid model.now }
        ensures { IfOk result (λ v. length v.moments ≡ length model.now.nodes) }
    {
        let no_moment: Option<u16> = None;
        let no_time: Option<u32> = None;
        let moments = vec![in alloc; no_moment; model.nodes.len()]?;
        let times = vec![in alloc; no_time; model.nodes.len()]?;
        Ok(Clearing {
            moments,
            time: 0,
            periods: 0,
            times,
        })
    }

    /// Reports on a plan that has everybody out.
    pub fn fill<F: Standing>(&mut self, model: &evac_law::Model, standing: &F)
        requires stands { Stands model.now (F.stand standing.now) }
        requires room { length self.old.moments ≡ length model.now.nodes }
        ensures report { IsReport model.now (F.stand standing.now).plan self.new }
        ensures size { length self.new.moments ≡ length self.old.moments }
    {
        write_moments(self.moments.as_mut_slice(), model, standing);
        self.time = uncongested(self.times.as_mut_slice(), model);
        self.periods = person_periods(model, standing);
    }

    /// The last moment at which somebody is in a node.
    pub fn node_clear(&self, node: u32) -> Option<u16>
        requires { node < length self.now.moments }
        ensures { result ≡ clearing_moment self.now node }
    {
        self.moments[node as usize]
    }

    /// The last moment at which somebody is on a floor, outside exits.
    pub fn floor_clear(&self, index: &FloorIndex, floor: u16) -> Option<u16>
        ensures { result ≡ latest (clearing_moment self.now) (listed index.now floor) }
    {
        latest(&self.moments, index.nodes_of(floor))
    }

    /// The longest way to an exit of those who would meet nobody.
    pub fn uncongested(&self) -> u32
        ensures { result ≡ self.now.time }
    {
        self.time
    }

    /// The same for any model; none exactly where somebody has no way.
    pub fn walk_bound(&mut self, model: &evac_law::Model) -> Option<u32>
        requires valid { IsValid model.now }
        requires room { length self.old.moments ≡ length model.now.nodes }
        ensures bound { IsUncongested model.now result }
        ensures same { self.new ≡ self.old }
    {
        walk_bound(self.times.as_mut_slice(), model)
    }

    /// People times arrival moment, over all people.
    pub fn person_periods(&self) -> u64
        ensures { result ≡ self.now.periods }
    {
        self.periods
    }
}
