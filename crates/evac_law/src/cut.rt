//! The items of a cut's value.

/// A part of a cut's value: people who come in outside the cut, people who may wait out of it, or people who may move out of it.
#[derive(Clone, Copy, PartialEq, Eq)]
pub enum CutItem {
    Entry {
        node: u32,
        people: u32,
    },
    Hold {
        node: u32,
        moment: u16,
        capacity: u32,
    },
    Arc {
        arc: u32,
        moment: u16,
        rate: u32,
    },
}
