//! The quoted part of a contract: what trading and clearing alike need of it.

ghost use Rattle.std.specs.Prelude.{◌≤◌};
ghost use Rattle.measures.specs.declared.Fen.{Fen};
ghost use Rattle.measures.specs.declared.Kg.{Kg};
ghost use Rattle.measures.specs.declared.Lots.{Lots};

use measures::{Fen, Kg, Lots};

/// A quoted contract. Each figure is a constant for code and, under the same name, a ghost member for clauses: a contract sets
/// both, and the check proves them equal.
pub trait QuotedContract {
    /// What one lot weighs.
    const LOT_WEIGHT: Kg;
    /// What one tick is worth for one lot.
    const FEN: Fen;
    /// What one tick of the price of one lot freezes as margin.
    const MARGIN: Fen;
    /// The most lots of one tender.
    const LARGEST: Lots;

    ghost LOT_WEIGHT: { Kg };

    ghost FEN: { Fen };

    ghost MARGIN: { Fen };

    ghost LARGEST: { Lots };

    ghost weight_low: { 1 ≤ LOT_WEIGHT.0 };

    ghost weight_high: { LOT_WEIGHT.0 ≤ 1000 };

    ghost worth_high: { FEN.0 ≤ 1500 };

    ghost margin_low: { 1 ≤ MARGIN.0 };

    ghost margin_high: { MARGIN.0 ≤ FEN.0 };

    ghost largest_low: { 1 ≤ LARGEST.0 };

    ghost largest_high: { LARGEST.0 ≤ 40000 };
}
