//! The pairs that were relabelled since people were last sent, each once.
ghost use Rattle.std.specs.Prelude.{◌≡◌, ◌<◌, IfOk, vec_len};

use crate::lists::PairList;
use std::alloc::{AllocError, Global};

/// A set of pairs. A pair is in it while its stamp is the latest, so that clearing it costs nothing.
#[derive(Drop)]
pub struct Relabelled {
    /// The pairs in the order in which they came.
    pub pairs: PairList,
    /// The stamp of each pair.
    stamps: Vec<u16>,
    /// The latest stamp.
    stamp: u16,
    ghost stamps_fit: { vec_len stamps ≡ pairs.count },
}

impl Relabelled {
    /// None, with room for all pairs of a building.
    pub fn new(alloc: Global, pairs: u32) -> Result<Relabelled, AllocError>
        ensures { IfOk result (λ relabelled. relabelled.pairs.count ≡ pairs) }
    {
        let stamps = vec![in alloc; 0u16; pairs as usize]?;
        let pairs = PairList::new(alloc, pairs)?;
        Ok(Relabelled {
            pairs,
            stamps,
            stamp: 1,
        })
    }

    /// Whether a pair is one of them.
    pub fn has(&self, pair: u32) -> bool
        requires { pair < self.now.pairs.count }
    {
        self.stamps[pair as usize] == self.stamp
    }

    /// Adds a pair.
    pub fn add(&mut self, pair: u32)
        requires { pair < self.old.pairs.count }
        ensures { self.new.pairs.count ≡ self.old.pairs.count }
    {
        if !self.has(pair) {
            self.stamps[pair as usize] = self.stamp;
            self.pairs.add(pair);
        }
    }

    /// Leaves none, and gives the list of those that were in it for another one.
    pub fn swap(&mut self, pairs: &mut PairList)
        requires { pairs.old.count ≡ self.old.pairs.count }
        ensures pairs { pairs.new.count ≡ pairs.old.count }
        ensures count { self.new.pairs.count ≡ self.old.pairs.count }
    {
        std::mem::swap(&mut self.pairs, pairs);
        self.clear();
    }

    /// Leaves none.
    pub fn clear(&mut self)
        ensures { self.new.pairs.count ≡ self.old.pairs.count }
    {
        self.pairs.clear();
        if self.stamp == u16::MAX {
            self.stamps.as_mut_slice().fill(0);
            self.stamp = 0;
        }
        self.stamp += 1;
    }
}
