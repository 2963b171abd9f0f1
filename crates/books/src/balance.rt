//! What one account holds.

use measures::Fen;

/// The two sums of an account: `free` may be frozen, `frozen` may be released.
#[derive(Clone, Copy, PartialEq, Eq, Debug)]
pub struct Balance {
    pub free: Fen,
    pub frozen: Fen,
}

/// The most that an account holds, free and frozen together.
pub(crate) const MOST_HELD: Fen = Fen(4_000_000_000_000_000_000);
