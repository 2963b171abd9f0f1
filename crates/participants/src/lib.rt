//! Who takes part in a session, and the prices that the quoting seats name.

#![tactic(auto)]

pub mod enrolment;
pub mod kinds;
pub mod means;
pub mod naming;
pub mod quotes;
pub mod roster;
pub mod rows;
pub mod table;
mod tally;
