//! Those who come to a node, and those who leave it.
use route_decompose::RouteStep;

/// A person who comes to a node at a moment, and how many come to it before.
#[derive(Clone, Copy)]
pub struct Comer {
    pub node: u32,
    pub moment: u16,
    pub number: u64,
}

/// Somebody who enters an arc, and how many of those who enter it then do so before.
#[derive(Clone, Copy)]
pub struct Leaver {
    pub step: RouteStep,
    pub behind: u32,
}
