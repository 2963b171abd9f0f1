//! Words of 32 bits: messages read as calls, calls written as messages, answers as words.

#![tactic(auto)]

pub mod answers;
pub mod calls;
pub mod faults;
pub mod kinds;
pub mod lent;
pub mod prices;
pub mod reader;
pub mod reading;
pub mod rows;
pub mod trips;
pub mod verbs;
pub mod writing;
