//! What the places of a net lead from and to.

/// The source of all people, a node at a moment, or the exits at a moment.
#[derive(Clone, Copy, PartialEq, Eq)]
pub enum End {
    Source,
    Pair { node: u32, moment: u16 },
    Door(u16),
}
