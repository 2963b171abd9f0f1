//! The four measures of the engine, which never mix: kilograms, lots, ticks and fen.

#![tactic(auto)]

mod amounts;

/// Kilograms of metal.
#[derive(Clone, Copy, PartialEq, Eq, PartialOrd, Ord, Debug)]
pub struct Kg(pub u32);

/// Lots of a contract.
#[derive(Clone, Copy, PartialEq, Eq, PartialOrd, Ord, Debug)]
pub struct Lots(pub u32);

/// A price, or a change of one, in the contract's least price change.
#[derive(Clone, Copy, PartialEq, Eq, PartialOrd, Ord, Debug)]
pub struct Ticks(pub u32);

/// Money: a fen is 0.01 yuan.
#[derive(Clone, Copy, PartialEq, Eq, PartialOrd, Ord, Debug)]
pub struct Fen(pub u64);
