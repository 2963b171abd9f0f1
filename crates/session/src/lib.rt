//! One session of benchmark price trading: quotes, rounds of tendering, the fix and the fills.

#![tactic(auto)]

mod begin;
mod close;
mod executed;
mod fix;
pub mod lists;
pub mod open;
pub mod orders;
pub mod questions;
mod quote;
mod reduce;
pub mod session;
pub mod sheet;
mod strike;
mod suspend;
mod tender;
