//! The building that the lines of a model describe: its model, the names of its nodes and arcs, its floors and its title.
//!
//! `Builder` takes parts one by one, `read_model` reads them from lines up to `end`, and `Names` finds what commands name.
#![tactic(auto)]

mod builder;
mod building;
mod commands;
mod entrants;
mod faults;
mod hear;
mod name_index;
mod names;
mod read;

pub use builder::Builder;
pub use building::Building;
pub use commands::{arc_of, edit_of};
pub use faults::{BuildFault, EndFault, ModelFault, NameFault};
pub use names::Names;
pub use read::read_model;
