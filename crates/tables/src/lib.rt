//! A table by row and moment.
//!
//! `Table` keeps an item for each row and each moment up to the last, one row after another.
#![tactic(auto)]

mod table;

pub use table::Table;
