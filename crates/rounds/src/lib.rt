//! What the rounds of a session are made of: stages, periods, moves of the price, the checks that calls share, and why a
//! call is refused.

#![tactic(auto)]

pub mod answers;
pub mod faults;
pub mod gates;
pub mod moves;
pub mod periods;
pub mod sides;
pub mod stages;
pub mod times;
