//! An editing session over lines: a building is opened with its best plan, and each line after it is answered, until the input ends, a
//! line quits, or a line has a fault.
//!
//! A `SessionTalk` takes all memory that it needs before it is opened. `specs/Sessions` says what a line gets. Whoever holds a session another
//! way makes its replies on a `Desk` too.

mod desk;
mod laws;
mod reply;
mod speaker;

pub use desk::Desk;
pub use laws::{edits_apart, sessions_agree, sessions_part};
pub use reply::{reply_cut, reply_edited, reply_report, reply_undone};
pub use speaker::SessionTalk;
