//! What a flood meets.

use residual_net::PathStep;

/// A node at a moment.
#[derive(Clone, Copy)]
pub struct Spot {
    pub node: u32,
    pub moment: u16,
}

/// An arc at a moment.
#[derive(Clone, Copy)]
pub struct ArcAt {
    pub arc: u32,
    pub moment: u16,
}

/// A node at a moment that a flood met, and the step from there by which it did.
#[derive(Clone, Copy)]
pub struct Met {
    pub spot: Spot,
    pub step: PathStep,
}
