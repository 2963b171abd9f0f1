//! How the Fixing Members share the excess of a fix.

#![tactic(auto)]

mod bounds;
pub mod by_turn;
pub mod policy;
pub mod table_order;
mod turns;
