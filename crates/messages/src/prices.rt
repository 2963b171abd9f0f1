//! The executed prices of a message, or of a caller without words.

ghost use Rattle.std.specs.Prelude.{◌≡◌};
ghost use Rattle.messages.specs.Prices.{prices_of, priced};

use crate::kinds::figure;
use crate::lent::{Lent, Worded};
use measures::Ticks;
use session::lists::PriceList;

/// The executed prices of a `Begin`.
pub type Prices<'a> = Lent<'a, Ticks>;

/// A word is a price.
impl Worded for Ticks {
    ghost read = { priced };

    fn count(words: &[u32]) -> usize {
        words.len()
    }

    fn pick(words: &[u32], place: usize) -> Option<Ticks> {
        let word = words.get(place)?;
        Some(Ticks(figure(*word)))
    }
}

impl<'a> PriceList for Lent<'a, Ticks> {
    ghost prices = { prices_of };

    fn count(&self) -> usize {
        self.len()
    }

    fn price(&self, place: usize) -> Ticks {
        self.get(place).unwrap_or(Ticks(0))
    }
}
