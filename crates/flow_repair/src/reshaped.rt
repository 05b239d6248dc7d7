//! What a repair comes to.

/// How many people were taken off, and the least moment at which the labels may fail.
#[derive(Clone, Copy)]
pub struct Reshaped {
    pub cancelled: u64,
    pub least_label: u16,
}
