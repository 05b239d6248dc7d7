//! What the lines of a model, of a session and of a study say.
//!
//! `specs/` has the grammar by cases on the bytes, and the building that the lines of a model describe or their first fault, blind to any
//! reader. The readers here answer exactly by it.
#![tactic(auto)]

mod command;
mod fault;
mod field_values;
mod fields;
mod laws;
mod name;
mod named_edit;
mod number;
mod part;
mod statement;
mod study;

pub use command::{Command, Report, read_command};
pub use fault::TextFault;
pub use fields::{Fields, is_word};
pub use laws::{described_is_plain, described_is_valid, names_read_back};
pub use name::read_name;
pub use named_edit::NamedEdit;
pub use number::read_number;
pub use part::Part;
pub use statement::{Statement, is_comment, read_later_line, read_line};
pub use study::{StudyCommand, read_study_command};
