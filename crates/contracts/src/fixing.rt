//! The fixing part of a contract, built on the quoted part: when a price is fixed, and how far it moves otherwise.

ghost use Rattle.std.specs.Prelude.{◌≡◌, ℕ, ◌≤◌, ◌<◌};
ghost use Rattle.measures.specs.declared.Lots.{Lots};

use crate::quoted::QuotedContract;
use measures::{Lots, Ticks};

/// A contract whose price is fixed in rounds.
pub trait FixingContract: QuotedContract {
    /// The largest imbalance at which the price is fixed.
    const THRESHOLD: Lots;

    ghost THRESHOLD: { Lots };

    ghost step: { ℕ → ℕ };

    // The match of each contract is its table of steps: the table as data would need a search through it, and is no plainer.
    /// How far the price moves at an imbalance: not at all within the threshold.
    fn step_at(imbalance: Lots) -> Ticks
        ensures { result.0 ≡ step imbalance.0 };

    ghost threshold_high: { THRESHOLD.0 ≤ 1000000 };

    ghost step_none: { (n : ℕ) → n ≤ THRESHOLD.0 → step n ≡ 0 };

    ghost step_low: { (n : ℕ) → THRESHOLD.0 < n → 1 ≤ step n };

    ghost step_high: { (n : ℕ) → step n ≤ 1000 };
}
