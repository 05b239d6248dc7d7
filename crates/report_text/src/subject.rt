//! What a report is on.
use building_table::Names;
use evac_law::Model;

/// What a report is on: a building by its model and its names, and the index of the answer.
#[derive(Clone, Copy)]
pub struct Subject<'a> {
    pub model: &'a Model,
    pub names: &'a Names,
    pub index: u32,
}
