//! A building as a text of version 2.
//!
//! `specs/` has the text and the law that its lines describe the same building again.
#![tactic(auto)]

mod laws;
mod limits;
mod line;
mod model;

pub use laws::{
    fine_parts_read_back, lines_read_back, statements_read_back, text_is_of_description,
    texts_describe_again,
};
pub use model::put_model;
