//! The contracts that are fixed: their figures, and what every contract shows.

#![tactic(auto)]

pub mod edges;
pub mod fixing;
pub mod quoted;
pub mod shag;
pub mod shau;
