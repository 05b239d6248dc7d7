//! Lists whose memory was taken before.
ghost use Rattle.std.specs.Prelude.{◌≡◌, ◌<◌, IfOk, vec_capacity, vec_len};
ghost use Rattle.std.specs.List.{All};

use std::alloc::{AllocError, Global};

/// Pairs of a building, with room for each of them once.
#[derive(Drop)]
pub struct PairList {
    /// How many pairs the building has.
    count: u32,
    /// Those in the list, in the order in which they came.
    list: Vec<u32>,
    ghost within: { All (λ pair. pair < count) list.items },
}

impl PairList {
    /// An empty list, of whose memory nothing is touched.
    pub fn new(alloc: Global, count: u32) -> Result<PairList, AllocError>
        ensures { IfOk result (λ pairs. pairs.count ≡ count) }
    {
        let list = Vec::with_capacity(alloc, count as usize)?;
        Ok(PairList { count, list })
    }

    /// How many there are.
    pub fn len(&self) -> usize
        ensures { result ≡ vec_len self.now.list }
    {
        self.list.len()
    }

    /// One of them.
    pub fn get(&self, at: usize) -> u32
        requires { at < vec_len self.now.list }
        ensures { result < self.now.count }
    {
        self.list[at]
    }

    /// Adds a pair, while there is room.
    pub fn add(&mut self, pair: u32)
        requires { pair < self.old.count }
        ensures { self.new.count ≡ self.old.count }
    {
        if self.list.len() < self.list.capacity() {
            self.list.push_reserved(pair);
        }
    }

    /// Leaves none.
    pub fn clear(&mut self)
        ensures { self.new.count ≡ self.old.count }
    {
        self.list.clear();
    }
}

/// Adds to a list, as far as its memory reaches.
pub fn add<T: Copy + Drop>(list: &mut Vec<T>, item: T)
    ensures { vec_capacity list.new ≡ vec_capacity list.old }
{
    if list.len() < list.capacity() {
        list.push_reserved(item);
    }
}
