//! One session with its book and the order in hand: it answers a call, a message and a whole list of words.

#![tactic(auto)]

pub mod call;
pub mod engine;
pub mod list;
pub mod message;
pub mod sheet;
pub mod transcript;
pub mod words;
