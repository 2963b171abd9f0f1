//! The lines of a session: what is tendered, what stands, what striking releases, and what a fix fills.

#![tactic(auto)]

pub mod entries;
mod filling;
pub mod fills;
pub mod line;
pub mod margins;
mod strike;
pub mod table;
