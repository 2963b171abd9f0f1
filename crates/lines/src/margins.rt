//! The margin of lots at a price.

ghost use Rattle.std.specs.Prelude.{◌≡◌, ◌-◌, ◌^◌, ◌≤◌, min};
ghost use Rattle.measures.specs.Amounts.{amount};

use contracts::quoted::QuotedContract;
use measures::{Fen, Lots, Ticks};

/// What lots at a price freeze: lots × price × the contract's margin figure. That of a tender at a price always fits; what
/// 64 bits cannot hold counts as the most that they hold.
pub fn margin_of<C: QuotedContract>(lots: Lots, price: Ticks) -> Fen
    ensures value { result.0 ≡ min (amount C.MARGIN.0 lots.0 price.0) (2 ^ 64 - 1) }
    ensures fits { lots.0 ≤ 40000 → price.0 ≤ 10000000 → result.0 ≡ amount C.MARGIN.0 lots.0 price.0 }
{
    lots.amount(price, C::MARGIN).unwrap_or(Fen(u64::MAX))
}
