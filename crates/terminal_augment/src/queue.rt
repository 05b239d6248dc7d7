//! A queue in memory that is reserved once.
ghost use Rattle.std.specs.Prelude.{◌≡◌, ◌-◌, ◌<◌, [], ◌∷◌, IfOk, length, slice_index_or};

use std::alloc::{AllocError, Global};
use std::marker::Model;

/// The queue of a search. Nothing leaves it: its front is an index, and what was gone through stays. Memory for more things isn't touched
/// before they are added.
#[derive(Drop)]
pub struct Queue<T> {
    items: Vec<T>,
    room: usize,
}

impl<T> Model for Queue<T> {
    ghost use Rattle.std.specs.Prelude.{◌≤◌, length, reverse, vec_capacity};
    ghost use Rattle.terminal_augment.specs.Queues.{Queue as Line};

    ghost Value = { Line T };

    ghost view = { λ q. record { list = reverse q.items.items; room = q.room } };

    ghost invariant = { λ q. (length q.items.items ≤ q.room) × (q.room ≤ vec_capacity q.items) };
}

impl<T: Copy + Drop> Queue<T> {
    /// An empty queue with room for some things.
    pub fn new(alloc: Global, room: usize) -> Result<Queue<T>, AllocError>
        ensures { IfOk result (λ q. q ≡ record { list = []; room = room }) }
    {
        let items = Vec::with_capacity(alloc, room)?;
        Ok(Queue { items, room })
    }

    /// Leaves nothing.
    pub fn clear(&mut self)
        ensures { self.new ≡ record { list = []; room = self.old.room } }
    {
        self.items.clear();
    }

    /// Adds a thing at the back.
    pub fn push(&mut self, item: T)
        requires { length self.old.list < self.old.room }
        ensures { self.new ≡ record { list = item ∷ self.old.list; room = self.old.room } }
    {
        self.items.push_reserved(item);
    }

    /// How many things there are.
    pub fn len(&self) -> usize
        ensures { result ≡ length self.now.list }
    {
        self.items.len()
    }

    /// The thing before which so many others were added.
    pub fn get(&self, number: usize) -> T
        requires { number < length self.now.list }
        ensures { result ≡ slice_index_or self.now.list (length self.now.list - number - 1) result }
    {
        self.items[number]
    }

    /// The thing after which so many others were added.
    pub fn from_back(&self, number: usize) -> T
        requires { number < length self.now.list }
        ensures { result ≡ slice_index_or self.now.list number result }
    {
        self.items[self.items.len() - 1 - number]
    }
}
