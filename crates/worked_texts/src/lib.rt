//! Worked texts: lines and fields as calls read them, a number and a cut as calls write them, and what the adapters over std's reader and writer
//! pass on. What a whole run makes of a text is a row of worked_rows.
//!
//! Nothing here is called by a program.
#![tactic(auto)]

#[cfg(test)]
mod blocks;
#[cfg(test)]
mod lines;
#[cfg(test)]
mod statements;
