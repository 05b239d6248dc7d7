//! A model with its plan, and all that a repair works with.
ghost use Rattle.std.specs.Prelude.{◌≡◌, IfOk};
ghost use Rattle.evac_law.specs.Building.{IsValid};
ghost use Rattle.edit_session.specs.Fresh.{IsUnplanned};

use crate::faults::Short;
use crate::scratch::Scratch;
use evac_law::{Labels, Model};
use residual_net::Net;
use std::alloc::{AllocError, Global};

/// A model, the net that stands for its plan, the labels that prove it best, those of the refused cut, and scratch for repairs.
#[derive(Drop)]
pub struct Planned {
    pub model: Model,
    pub net: Net,
    pub labels: Labels,
    pub refused: Labels,
    pub scratch: Scratch,
}

impl Planned {
    /// A model in which nobody moves yet. Takes all memory that repairs need.
    pub fn new(alloc: Global, model: Model) -> Result<Planned, AllocError>
        requires { IsValid model }
        ensures { IfOk result (IsUnplanned model) }
    {
        let labels = Labels::new(alloc, model.node_count(), model.horizon)?;
        let refused = Labels::new(alloc, model.node_count(), model.horizon)?;
        let net = Net::new(alloc, &model)?;
        let scratch = Scratch::new(alloc, &model)?;
        Ok(Planned {
            model,
            net,
            labels,
            refused,
            scratch,
        })
    }

    /// The model and its labels, where at most so many can get out.
    pub fn into_short(self, most: u32) -> Short
        ensures { result ≡ record { model = self.model; labels = self.labels; most = most } }
    {
        Short {
            model: self.model,
            labels: self.labels,
            most,
        }
    }
}
