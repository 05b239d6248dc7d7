//! The top call: words, an input read to its end, an answer and a status.
//!
//! `run` is a function of what it is given, a source, a sink and the words. What it did is said in `specs/Runs`: what it took, wrote and
//! counted, and its status with its cause. At statuses 0, 1 and 2 that is the whole answer to the input, by the mode that the words ask for.
#![tactic(auto)]

mod check;
mod claim;
mod drill;
mod holding;
mod laws;
mod plan;
mod query;
mod read;
mod report_tables;
mod room;
mod solve;
mod stop;
mod top;
mod upgrade;
mod verdict;
mod words;

pub use laws::{
    checks_keep_promise, drills_agree, drills_keep_promise, first_advance_is_carried_out,
    first_edit_gets_its_block, first_replan_edit_gets_its_block, first_undo_is_refused,
    first_work_is_of_the_opening, plans_keep_promise, replans_keep_promise, runs_answer,
    session_solves_alike, sessions_keep_promise, solved_is_checked, solves_agree,
    stopping_is_refused, study_keeps_promise, upgraded_solves_alike, upgraded_twice,
    upgrades_keep_promise, yes_is_best,
};
pub use top::run;
