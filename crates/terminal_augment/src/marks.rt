//! Marks on nodes at moments.
ghost use Rattle.std.specs.Prelude.{◌≡◌, ℕ, ◌+◌, ◌*◌, ◌<◌, ◌≤◌, IfOk, IsFalse, length, replicate};
ghost use Rattle.terminal_augment.specs.Marking.{IsMarks, is_marked, with_stamp};

use crate::spot::Spot;
use std::alloc::{AllocError, Global};
use std::marker::Model;

/// Marks on nodes at moments. A mark counts while its stamp is the latest, so that a new stamp takes all marks off at once.
#[derive(Drop)]
pub struct Marks {
    nodes: u32,
    horizon: u16,
    stamp: u16,
    stamps: Vec<u16>,
}

impl Model for Marks {
    ghost use Rattle.terminal_augment.specs.Marking.{IsMarks, MarkTable};

    ghost Value = { MarkTable };

    ghost view = { λ m. record { nodes = m.nodes; horizon = m.horizon; stamp = m.stamp; list = m.stamps.items } };

    ghost invariant = { λ m. IsMarks (record { nodes = m.nodes; horizon = m.horizon; stamp = m.stamp; list = m.stamps.items }) };
}

impl Marks {
    /// Nothing is marked.
    pub fn new(alloc: Global, nodes: u32, horizon: u16) -> Result<Marks, AllocError>
        ensures { IfOk result (λ m. m ≡ record { nodes = nodes; horizon = horizon; stamp = 1; list = replicate (nodes * (horizon + 1)) 0 }) }
    {
        let count = nodes as usize * (horizon as usize + 1);
        let stamps = vec![in alloc; 0u16; count]?;
        Ok(Marks {
            nodes,
            horizon,
            stamp: 1,
            stamps,
        })
    }

    // The place of a node at a moment.
    fn place(&self, spot: Spot) -> usize
        requires node { spot.node < self.now.nodes }
        requires moment { spot.moment ≤ self.now.horizon }
        ensures place { result ≡ spot.node * (self.now.horizon + 1) + spot.moment }
        ensures within { result < length self.now.list }
    {
        spot.node as usize * (self.horizon as usize + 1) + spot.moment as usize
    }

    /// Whether a node is marked at a moment.
    pub fn is_marked(&self, spot: Spot) -> bool
        requires node { spot.node < self.now.nodes }
        requires moment { spot.moment ≤ self.now.horizon }
        ensures { result ≡ is_marked self.now spot.node spot.moment }
    {
        self.stamps[self.place(spot)] == self.stamp
    }

    /// Marks a node at a moment.
    pub fn mark(&mut self, spot: Spot)
        requires node { spot.node < self.old.nodes }
        requires moment { spot.moment ≤ self.old.horizon }
        ensures marked { self.new ≡ with_stamp self.old spot.node spot.moment self.old.stamp }
        ensures marks { IsMarks self.new }
    {
        let place = self.place(spot);
        self.stamps[place] = self.stamp;
    }

    /// Takes all marks off.
    pub fn clear(&mut self)
        ensures nodes { self.new.nodes ≡ self.old.nodes }
        ensures horizon { self.new.horizon ≡ self.old.horizon }
        ensures size { length self.new.list ≡ length self.old.list }
        ensures none { (n t : ℕ) → IsFalse (is_marked self.new n t) }
        ensures marks { IsMarks self.new }
    {
        if self.stamp == u16::MAX {
            self.stamps.as_mut_slice().fill(0);
            self.stamp = 0;
        }
        self.stamp += 1;
    }
}
