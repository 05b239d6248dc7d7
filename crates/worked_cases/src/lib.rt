//! Worked cases of calls: what it costs to shut an exit, whether a session's own plan is right and what its block is, and what faults say. What a
//! whole run prints is a row of worked_rows.
//!
//! Nothing here is called by a program. What is expected was worked out by hand, or by a slow solver of its own.
#![tactic(auto)]

#[cfg(test)]
mod caller;
#[cfg(test)]
mod faults;
