//! A list of prices that a caller lends to a session, read by place, so that nothing is copied.

ghost use Rattle.std.specs.Prelude.{◌≡◌, ℕ, List, length, slice_index};

use measures::Ticks;

/// The most executed prices of a beginning.
pub const MOST_PRICES: usize = 10_000;

/// A list of prices.
pub trait PriceList {
    ghost prices: { Self → List ℕ };

    /// How many there are.
    fn count(&self) -> usize
        ensures { result ≡ length (prices self.now) };

    /// The price at a place, 0 past the end.
    fn price(&self, place: usize) -> Ticks
        ensures { result.0 ≡ slice_index (prices self.now) place };
}
