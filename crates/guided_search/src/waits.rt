//! The waits in a node, several at once.
ghost use Rattle.std.specs.Prelude.{◌≡◌, ◌<◌, ◌≤◌, length};

use residual_net::Cell;

// How many waits are looked at at once.
const BLOCK: usize = 16;

/// The waits in a node up to a moment, by the moments at which they begin.
#[derive(Clone, Copy)]
pub struct Waits<'a> {
    /// The distance label of the pair at which each begins.
    pub labels: &'a [u16],
    /// The current arc of the pair at which it ends.
    pub current_arcs: &'a [u8],
    /// Its cell.
    pub cells: &'a [Cell],
    pub ghost arcs_fit: { length current_arcs.now ≡ length labels.now },
    pub ghost cells_fit: { length cells.now ≡ length labels.now },
}

impl Waits<'_> {
    /// Whether a wait begins at a pair with a distance label, is the first way into the pair at which it ends, and has room.
    pub fn is_passable(&self, at: usize, label: u16) -> bool
        requires { at < length self.now.labels.now }
    {
        let cell = self.cells[at];
        self.labels[at] == label && self.current_arcs[at] == 0 && cell.flow < cell.limit
    }

    // Whether all waits from one up to another are passable. Nothing is skipped after a first that isn't, so that a processor compares
    // several at once.
    fn are_passable(&self, from: usize, end: usize, label: u16) -> bool
        requires from { from ≤ end }
        requires end { end ≤ length self.now.labels.now }
    {
        let labels = self.labels[from..end].iter();
        let current_arcs = self.current_arcs[from..end].iter();
        labels.fold(0u16, |differ, it| differ | (*it ^ label)) == 0
            && current_arcs.fold(0u8, |some, arc| some | *arc) == 0
            && have_room(&self.cells[from..end])
    }

    // The first of the waits before one from which on all are passable, down to one at the lowest: one by one.
    fn passable_singly(&self, lowest: usize, end: usize, label: u16) -> usize
        requires lowest { lowest ≤ end }
        requires end { end ≤ length self.now.labels.now }
        ensures lowest { lowest ≤ result }
        ensures end { result ≤ end }
    {
        for at in (lowest..end).rev() {
            if !self.is_passable(at, label) {
                return at + 1;
            }
        }
        lowest
    }

    // The same in whole blocks.
    fn passable_blocks(&self, lowest: usize, end: usize, label: u16) -> usize
        requires lowest { lowest ≤ end }
        requires end { end ≤ length self.now.labels.now }
        ensures lowest { lowest ≤ result }
        ensures end { result ≤ end }
    {
        for block in 0..(end - lowest) / BLOCK {
            let last = end - block * BLOCK;
            if !self.are_passable(last - BLOCK, last, label) {
                return last;
            }
        }
        lowest + (end - lowest) % BLOCK
    }

    /// The first of the waits from which on all are passable, down to one at the lowest. Most have few after them, and these are looked at
    /// one by one.
    pub fn passable_from(&self, lowest: usize, label: u16) -> usize
        requires { lowest ≤ length self.now.labels.now }
        ensures lowest { lowest ≤ result }
        ensures count { result ≤ length self.now.labels.now }
    {
        let count = self.labels.len();
        let near = count.saturating_sub(BLOCK).max(lowest);
        let first = self.passable_singly(near, count, label);
        if first > near {
            return first;
        }
        let first = self.passable_blocks(lowest, near, label);
        self.passable_singly(lowest, first, label)
    }
}

/// Whether all of some cells have room for more people.
pub fn have_room(cells: &[Cell]) -> bool {
    cells
        .iter()
        .fold(true, |open, cell| open & (cell.flow < cell.limit))
}
