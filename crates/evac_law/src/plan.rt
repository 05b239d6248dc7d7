//! Moves: what plans are made of.

/// People who enter an arc at a moment. A plan is a list of moves.
#[derive(Clone, Copy)]
pub struct Move {
    pub moment: u16,
    pub arc: u32,
    pub people: u32,
}
