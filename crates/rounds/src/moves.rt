//! How far the price moves, and whither.

ghost use Rattle.std.specs.Prelude.{◌≡◌, ◌≤◌, true, IfSome};
ghost use Rattle.rounds.specs.Moves.{move_for, moved_price, struck_by, up_for, of_ticks, Beyond};

use crate::gates::HIGHEST_PRICE;
use crate::periods::Move;
use crate::sides::{Side, Struck};
use measures::Ticks;

impl Side {
    /// Whether an excess of this side moves the price up.
    pub fn moves_up(self) -> bool
        ensures { result ≡ up_for self }
    {
        match self {
            Side::Buy => true,
            Side::Sell => false,
        }
    }
}

impl Move {
    /// The next move: a contract's step, or half the last move's size, rounded up, where that went the other way. Of a step
    /// and a last move of a tick or more it is one of a tick or more.
    pub fn after(last: Option<Move>, up: bool, step: Ticks) -> Move
        ensures value { result ≡ move_for step.0 up last }
        ensures some { 1 ≤ step.0 → of_ticks last ≡ true → 1 ≤ result.size.0 }
    {
        let size = match last {
            Some(last) if last.up != up => Ticks(last.size.0.div_ceil(2)),
            _ => step,
        };
        Move { up, size }
    }

    /// The price after this move, unless it is out of the bounds of prices. A move of a tick or more changes the price, and
    /// its own way.
    pub fn from(self, price: Ticks) -> Option<Ticks>
        ensures value { result ≡ moved_price price.0 self }
        ensures within { IfSome result (λ p. (1 ≤ p.0) × (p.0 ≤ 10000000)) }
        ensures beyond { IfSome result (λ p. 1 ≤ self.size.0 → Beyond self.up price.0 p.0) }
    {
        let moved = if self.up {
            price.0.saturating_add(self.size.0)
        } else {
            price.0.saturating_sub(self.size.0)
        };
        if moved < 1 || moved > HIGHEST_PRICE {
            return None;
        }
        Some(Ticks(moved))
    }

    /// The lines that this move strikes: those of the side of the excess.
    pub fn strikes(self) -> Struck
        ensures { result ≡ struck_by self.up }
    {
        Struck::Only(if self.up { Side::Buy } else { Side::Sell })
    }
}
