//! Two examples of a caller, to be read and copied from.
//!
//! `what_if` reads a building from text, plans it, shuts an exit by its name, and answers when the last are out before and after. The program
//! exit_cost calls it. `check_plan` writes the block of a plan into memory, reads it back and asks the checker, which says yes. Each shows how a
//! program calls the libraries, and what a caller can promise in the words of their definitions.
#![tactic(auto)]

mod answer;
mod own_block;
mod shut_exit;

pub use answer::{Answer, WhatIfFault};
pub use own_block::check_plan;
pub use shut_exit::what_if;
