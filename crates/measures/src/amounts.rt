//! What the measures make of one another.

ghost use Rattle.std.specs.Prelude.{◌≡◌, ◌*◌};
ghost use Rattle.measures.specs.Amounts.{apart, amount, fitting};

use crate::{Fen, Lots, Ticks};

impl Lots {
    /// How far two are apart.
    pub fn apart(self, other: Lots) -> Lots
        ensures { result.0 ≡ apart self.0 other.0 }
    {
        Lots(self.0.abs_diff(other.0))
    }

    /// The money of these lots at a price, where each tick of each lot stands for `figure` fen; nothing if 64 bits cannot hold it.
    pub fn amount(self, price: Ticks, figure: Fen) -> Option<Fen>
        ensures { result ≡ fitting (amount figure.0 self.0 price.0) }
    {
        figure
            .0
            .checked_mul(self.0 as u64 * price.0 as u64)
            .map(Fen)
    }
}

impl Fen {
    /// A number of millions of fen.
    pub fn millions(count: u32) -> Fen
        ensures { result.0 ≡ 1000000 * count }
    {
        Fen(1_000_000 * count as u64)
    }
}
