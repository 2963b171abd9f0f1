//! The quotes of the quoting seats.

ghost use Rattle.std.specs.Prelude.{◌≡◌, ◌≤◌, true, vec_len};
ghost use Rattle.participants.specs.Quotes.{lawful_quotes};

use measures::Ticks;

/// A quote a row, or none.
#[derive(Drop)]
pub struct Quotes {
    pub(crate) prices: Vec<Option<Ticks>>,
    ghost few: { vec_len prices ≤ 256 },
    ghost named: { lawful_quotes prices.items ≡ true },
}
