//! Worked plans: buildings as text, and what is known of the plans and the cuts for them, by the definitions and as programs sum them.
//!
//! Nothing here is called by a program. What is expected was worked out by hand, or by a slow solver of its own.
#![tactic(auto)]

#[cfg(test)]
mod cuts;
#[cfg(test)]
mod definitions;
#[cfg(test)]
mod labels;
#[cfg(test)]
mod lists;
