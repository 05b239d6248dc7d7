//! What repairs work with, in memory that is taken once.
ghost use Rattle.std.specs.Prelude.{◌≡◌, IfOk};
ghost use Rattle.evac_law.specs.Building.{IsValid};
ghost use Rattle.residual_net.specs.OfModel.{site_of};
ghost use Rattle.edit_session.specs.Mended.{IsScratchOf};

use crate::course::Course;
use evac_law::{Labels, Model};
use residual_net::{Net, Path};
use std::alloc::{AllocError, Global};
use terminal_augment::Search;

/// Labels to settle in, a search, and a path to take people off.
#[derive(Drop)]
pub struct Scratch {
    pub labels: Labels,
    pub search: Search,
    pub path: Path,
}

impl Scratch {
    /// Scratch for the nets of a model.
    pub fn new(alloc: Global, model: &Model) -> Result<Scratch, AllocError>
        requires { IsValid model.now }
        ensures { IfOk result (IsScratchOf (site_of model.now)) }
    {
        Ok(Scratch {
            labels: Labels::new(alloc, model.node_count(), model.horizon)?,
            path: Path::new(alloc, model.horizon as usize + 2)?,
            search: Search::new(alloc, model)?,
        })
    }

    /// Where an edit leads back, the net comes to the flow that it saved last: the search recalls it.
    pub fn recall(&mut self, net: &Net, course: Course)
        ensures { self.new ≡ self.old }
    {
        if let Course::Back = course {
            self.search.recall(net);
        }
    }
}
