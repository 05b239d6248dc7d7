//! A replan over lines: a session whose plan is carried out step by step, each line answered.
//!
//! A `ReplanTalk` wants memory before it is opened, and then only where a plan is carried out. `specs/ReplanTalks` says what a line gets: the rows
//! of `advance` and of edits that come too late stand before those of a session, whose replies these are.

mod gone;
mod request;
mod speaker;

pub use speaker::ReplanTalk;
