//! A building.
use crate::names::Names;
use evac_law::Model;

/// A building: its model, and the names of its nodes, arcs and floors.
#[derive(Drop)]
pub struct Building {
    pub model: Model,
    pub names: Names,
}
