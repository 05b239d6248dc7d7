//! The block that was read.
use evac_law::{Labels, Move, Rows};

/// An answer block: its number, the people, the moment at which the last one is out, the people out by each period up to it, the labels
/// and the moves.
#[derive(Drop)]
pub struct Block {
    pub index: u32,
    pub people: u32,
    pub cleared: u16,
    pub outs: Rows<u32>,
    pub labels: Labels,
    pub moves: Rows<Move>,
}
