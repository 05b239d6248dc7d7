//! The law of evacuation plans: what a model, a plan, a cut and an edit are, when a plan is feasible, and what proves it best.
//!
//! The definitions stand in `specs/`, the laws over them are the contracts of the functions of `laws`, and everything above this
//! crate speaks of buildings and plans by these definitions alone.
#![tactic(auto)]

mod code;
mod cut;
mod edit;
mod entrant;
mod labels;
mod laws;
pub mod limits;
mod model;
mod name;
mod plan;
mod rows;
mod standing;
mod steps;
mod window;

pub use code::Code;
pub use cut::CutItem;
pub use edit::{Edit, EditFault, apply};
pub use entrant::Entrant;
pub use labels::Labels;
pub use laws::{
    all_out_is_clearable, all_out_leaves_nobody, certified_is_best, certified_is_clearable,
    certified_is_quickest, certified_plans_agree, edit_keeps_shape, empty_cut, entrants_of_table,
    inverse_undoes, moves_of_table, parts_are_bounded, shortfall_bars_clearing,
    stated_cut_is_worth, tight_is_equal, weak_duality,
};
pub use model::{ArcRow, Model, NodeRow};
pub use name::{Kind, NodeName};
pub use plan::Move;
pub use rows::Rows;
pub use standing::Standing;
pub use steps::Steps;
pub use window::Window;
