//! The margin book: for each account its free and its frozen money.

#![tactic(auto)]

pub mod balance;
pub mod bank_line;
pub mod book;
pub mod cash;
pub mod faults;
mod passing;
pub mod record;
pub mod record_book;
