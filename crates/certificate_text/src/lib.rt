//! The text of answers: the block of a certified plan with its cuts, byte for byte, and the block of a cut that shows that not everybody
//! can get out.
//!
//! What a writer puts is the text that `specs/BlockText` defines from the model, the plan and the labels. `write_answer` and `write_short` do the
//! same before a buffer and a sink; a sink that fails has a front of it.
//!
//! A block is the list of its entries, which `specs/BlockEntries` defines; what lines say of it, and which line is refused, is in
//! `specs/BlockReadings`.
#![tactic(auto)]

mod answer;
mod block;
mod entry;
mod laws;
mod lines;
mod names;
mod short;

pub use answer::{put_answer, put_moves, write_answer};
pub use block::Block;
pub use entry::Entry;
pub use laws::{block_is_small, block_reads_back};
pub use lines::{put_end, put_name, put_refusal};
pub use short::{put_ins, put_short, write_short};
