//! The scratch of a search, in memory that is reserved once.
ghost use Rattle.std.specs.Prelude.{IfOk, length};
ghost use Rattle.evac_law.specs.Building.{IsValid};
ghost use Rattle.terminal_augment.specs.Searches.{AreBuffers};

use crate::marks::Marks;
use crate::queue::Queue;
use crate::spot::Met;
use evac_law::Model;
use guided_search::PathFinder;
use residual_net::Path;
use std::alloc::{AllocError, Global};

/// What a settling needs: the path along which people are sent, the queue of a flood, what gives hints, and marks for the check of one.
#[derive(Drop)]
pub struct Buffers {
    pub path: Path,
    pub queue: Queue<Met>,
    pub marks: Marks,
    pub finder: PathFinder,
}

impl Buffers {
    /// Scratch for the nets of a model.
    pub fn new(alloc: Global, model: &Model) -> Result<Buffers, AllocError>
        requires { IsValid model.now }
        ensures { IfOk result (AreBuffers (length model.now.nodes) model.now.horizon) }
    {
        let nodes = model.node_count();
        let horizon = model.horizon;
        let room = nodes as usize * (horizon as usize + 1);
        Ok(Buffers {
            path: Path::new(alloc, room + 1)?,
            queue: Queue::new(alloc, room)?,
            marks: Marks::new(alloc, nodes, horizon)?,
            finder: PathFinder::new(alloc, model)?,
        })
    }
}
