//! An editing session: a model with its best plan, repaired after each edit, and edits undone.
//!
//! `Session::begin` takes all memory. After each edit and undo the plan's net is brought under the edited model's limits, and settled
//! from the first moment that the edit may have touched; where not everybody can get out any more, all is left as it was. A trial
//! answers when everybody would be out after an edit, and leaves all as it was.
#![tactic(auto)]

mod course;
mod faults;
mod laws;
mod limits;
mod make_edit;
mod planned;
mod repair;
mod scratch;
mod session;
mod work;

pub use faults::{BeginFault, EditRefusal, Short, UndoRefusal};
pub use laws::{cuts_stay, goes_on_as_fresh, state_is_quickest};
pub use session::Session;
pub use work::Work;
