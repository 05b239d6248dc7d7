//! Answer blocks from lines.
//!
//! `read_block` answers the block that lines state, or the first line with which they begin no block of the model, exactly by
//! `certificate_text`'s `specs/BlockReadings`. How it keeps what it has read so far (`specs/Drafts`) is its own matter.
#![tactic(auto)]

mod builder;
mod entry;
mod fault;
mod finish;
mod laws;
mod read;
mod run;
mod stage;

pub use fault::BlockFault;
pub use laws::{entries_tell_the_block, lines_are_read_one_way};
pub use read::read_block;
