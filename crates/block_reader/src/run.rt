//! Runs of labels.

/// A node's label from a moment on.
#[derive(Clone, Copy)]
pub(crate) struct Run {
    pub node: u32,
    pub moment: u16,
    pub label: u16,
}
