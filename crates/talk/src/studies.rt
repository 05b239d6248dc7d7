//! A study over lines: a building is opened with its best plan, and each line after it is answered: by when everybody is out without each of
//! its exits, or by the least rate of an arc.
//!
//! A `StudyDesk` takes all memory that it needs before it is opened. No reply changes the building, so a line gets what it would get first.
//! `specs/Studies` says what a line gets.

mod desk;
mod exits;
mod going_back;
mod least;
mod lines;
mod reply;
mod speaker;
mod trial;

pub use desk::StudyDesk;
