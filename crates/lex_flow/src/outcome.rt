//! What settling comes to.

/// Everybody is out by a moment and no sooner, or at most so many can get out.
#[derive(Clone, Copy)]
pub enum Outcome {
    Cleared { moment: u16, pushes: u64 },
    Short { most: u32, pushes: u64 },
}
