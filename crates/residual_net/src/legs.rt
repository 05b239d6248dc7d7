//! Paths by their legs.

use crate::place::PathStep;

/// Waits in the node at which a step starts, at each moment since one up to that of the step, and then the step. A step that starts at no
/// pair has no waits before it.
#[derive(Clone, Copy)]
pub struct Leg {
    pub since: u16,
    pub step: PathStep,
}
